//! Leagues that allow their teams too few breaks: refuted by counting.
//!
//! In a half of a phased league, and in the season of any other, each two teams meet. So all teams but two have a break
//! there (de Werra). Where hard constraints BR1 and BR2 allow the teams fewer, no schedule is accepted.
//!
//! `floors` counts the breaks of soft constraints by the same steps.
#![tactic(auto)]

mod allowed;
mod bounds;
mod clique;
mod counts;
mod cover;
mod frame;
mod laws;
mod lines;
mod log;
mod searched;
mod shortage;
mod stretch;
mod sums;
mod together;
mod writer;

pub use clique::add_clique;
pub use counts::{break_count, break_sum};
pub use cover::covers;
pub use frame::Frame;
pub use laws::{added_breaks_allow_none, few_breaks_allow_none};
pub use lines::has_short_lines;
pub use stretch::Stretch;
pub use together::Summand;
pub use writer::Writer;
