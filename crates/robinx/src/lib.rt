//! Instance and solution files of the International Timetabling Competition 2021 (RobinX), read into leagues and
//! schedules, and written.
//!
//! A contract sees a file as its list of pieces: its tags and texts from front to back, each with its line, up to the
//! first fault. `specs/Pieces.antt` defines the pieces of a file, and a `TagReader` is seen by those that it has left.
//!
//! `specs/InstanceFile.antt` and `specs/SolutionFile.antt` define what these pieces say: a league or a list of games,
//! or the first fault with its kind and its line. `read_file` is the walk over the pieces. `specs/Texts.antt` defines
//! the texts of files: what is written is such a text, and it reads back as what it was written for.
//!
//! The names of a league's teams and slots are read by `read_names` and cleaned for printing. A contract sees names as
//! the bytes of their texts, by the numbers of teams and slots; `specs/Plain.antt` says what is printed of a value of a
//! file.
#![tactic(auto)]

mod attribute;
mod bytes;
mod classes;
mod demands;
mod draft;
mod element;
mod fault;
mod fronts;
mod games;
mod instance;
mod labels;
mod lists;
mod names;
mod names_file;
mod opening;
mod piece;
mod plain;
mod position;
mod reader;
mod reading;
mod reads;
mod roll;
mod tag;
mod tag_fault;
mod turn;
mod values;
mod walk;
mod words;
mod write_class;
mod write_constraints;
mod write_instance;
mod write_solution;
mod write_tag;

pub use attribute::{Attr, Attrs};
pub use element::{Element, GroupName, Row, Times};
pub use fault::{FormFault, ReadFault};
pub use fronts::trimmed;
pub use instance::{INSTANCE_LIMIT, SOLUTION_LIMIT, read_instance, read_solution};
pub use names::Names;
pub use names_file::read_names;
pub use plain::plain_name;
pub use reader::TagReader;
pub use reads::Reads;
pub use tag::{Tag, TagKind};
pub use tag_fault::{FormKind, Stop, TagFault};
pub use values::number_in;
pub use walk::read_file;
pub use write_constraints::type_word;
pub use write_instance::instance_text;
pub use write_solution::solution_text;
