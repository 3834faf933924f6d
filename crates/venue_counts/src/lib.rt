//! Leagues that allow their teams too few games on a side, or ask too many of them: refuted by adding up.
//!
//! In a slot half of the teams play at home and half away. Where hard constraints CA1 over exactly the same slots leave
//! the teams together fewer games than that, no schedule is accepted, and a log of two steps says why: the sum of the
//! rows concerned, and the empty clause. As clauses alone such a refutation is astronomically long, as that of the
//! pigeonhole principle is (Haken 1985).
#![tactic(auto)]

mod counts;
mod group;
mod groups;
mod limit;
mod log;
mod numbers;

pub use counts::{venue_count, venue_count_low};
