//! A walk over double round robins by random moves, and the best one that was seen.
//!
//! `walk` keeps the best of the double round robin from which it starts and of those that it comes by. It searches from
//! that one first, not for long where it is in vain, and then from random ones, one search after another until its
//! budget is spent. A search looks for games that meet the hard
//! constraints first: by moves that may cost a little more, some of them aimed at what isn't met, and by weights of the
//! constraints' parts that grow while they aren't met. Among schedules that are accepted it then looks for those that
//! cost less. What `walk` gives is the best double round robin that it stood on at the end of a stretch of moves or of
//! a search, or that it came by once nothing hard was unmet, with what the league's constraints cost on it. Which moves
//! it draws and which it makes is not promised.
#![tactic(auto)]

mod afresh;
mod aims;
mod best;
mod chains;
mod circles;
mod cooled;
mod copies;
mod course;
mod draws;
mod factors;
mod lists;
mod measure;
mod number_set;
mod parts;
mod plays;
mod scale;
mod spots;
mod standing;
mod subjects;
mod threshold;
mod trades;
mod walked;
mod walker;
mod watches;
mod weighed;
mod weights;

pub use best::Best;
pub use walked::{Walked, walk};
