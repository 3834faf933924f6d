//! The outside of robin: stores of files that are read, sinks that bytes are written to, and decimal numbers.
//!
//! A contract sees a store by the bytes that it tells, if it tells any, and by counts that never fall.
#![tactic(auto)]

mod failed;
mod host;
mod mem_shelf;
mod mem_sink;
mod numbers;
mod plan;
mod shelf;
mod sink;

pub use failed::Failed;
pub use host::{HostShelf, HostSink};
pub use mem_shelf::MemShelf;
pub use mem_sink::MemSink;
pub use numbers::{NumberFault, decimal, put_decimal};
pub use shelf::{Shelf, TakeFault, read_all};
pub use sink::{Sink, put_all};
