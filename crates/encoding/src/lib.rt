//! The encoding of a league as pseudo-Boolean rows: which of them say that a schedule is a double round robin, and
//! which that it meets each hard constraint.
//!
//! `specs/Variables.antt` numbers what can be true of a schedule, `specs/Season.antt` and `specs/Demands.antt` have the
//! rows group by group, and `specs/Encoding.antt` has all of them in order. `encode` writes them: those that make a
//! double round robin, those that tie breaks to venues, and those of each hard constraint. `encoding_size` says by
//! formulas how many terms they have, before any is written; it takes no memory.
#![tactic(auto)]

mod break_rows;
mod counted;
mod demands;
mod draft;
mod encoder;
mod encoding;
mod keys;
mod literal_counts;
mod literals;
mod meetings;
mod places;
mod room;
mod season;
mod season_rows;
mod sets;
mod sizes;
mod subjects;
mod totals;
mod variables;
mod venue_rows;
mod writer;

pub use encoder::{EncodeFault, MOST_TERMS, check_size, encode, encode_small};
pub use encoding::Encoding;
pub use keys::{Counted, Key, key_at, separation_key};
pub use literal_counts::literal_count;
pub use meetings::{all_meetings, meetings_in_order, pairs_of};
pub use season::Season;
pub use sets::{is_between, meeting_numbers, pair_total, slot_numbers, team_numbers, team_pairs};
pub use subjects::{Subject, places_of, separation_places, subject_at, subject_count};
pub use totals::encoding_size;
pub use variables::{ab_at, h_at, h_count, has_breaks, hb_at, hb_count, x_at, x_count};
pub use writer::{Written, write_class, write_rows, write_rows_with};
