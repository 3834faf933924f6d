//! Moves of a search: five kinds of changes of a double round robin, each of which relabels some of its games.
//!
//! A `Board` is a double round robin as a table. A move is legal where its own condition holds and it leads to a double
//! round robin of the same league. `Edit` holds the games that a legal move takes out and puts in, and `Neighbours`
//! gives all moves in order. What each move is, and when it is legal, is defined in `specs/`.
#![tactic(auto)]

mod board;
mod edit;
pub mod laws;
mod legality;
mod move_list;
mod neighbours;
mod place;
mod slots;
mod swap;
mod teams;
mod turn;
mod walks;

pub use board::Board;
pub use edit::Edit;
pub use legality::edit_of;
pub use move_list::MoveList;
pub use neighbours::Neighbours;
pub use swap::Swap;
