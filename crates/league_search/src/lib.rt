//! The searches over a league's rows, by clauses and by cutting planes, with rows of breaks behind them that make these
//! shorter; and the search for home-away patterns.
//!
//! A row of breaks is a sum of earlier rows, and such sums are the first steps of the search's log. So the log is one
//! over the league's rows alone.
//!
//! Home-away patterns that a league's pattern rows allow, or a proof that there are none, are found by `pattern_set`.
//! Patterns before opponents are the first phase of Nemhauser and Trick (1998). The pattern rows are those of a
//! league's rows that speak of no game: of venues and breaks alone. What refutes them refutes the league; patterns that
//! satisfy them needn't be those of a schedule. `specs/PatternSets.antt` and `specs/PatternLogs.antt` say what each
//! answer promises.
#![tactic(auto)]

mod behind;
mod break_rows;
mod by_planes;
mod copied;
mod finder;
mod found;
mod letters;
mod longer;
mod lowered;
mod narrowed;
mod picked;
mod raised;
mod search;
mod sum;

pub use by_planes::refute_league;
pub use finder::{pattern_set, pattern_set_watched};
pub use found::PatternFound;
pub use search::search_league;
