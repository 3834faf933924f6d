//! Rows that are kept and what they force, and searches over a few clauses, worked out by hand.
//!
//! - `rows` shows what rows of two and three terms force, and what a store of rows and an assignment keep.
//! - `search 6` and `search 5` search over all six clauses and over the first five, `search 6 N` with at most N conflicts.
//!   `planes` searches over all six by cutting planes.
mod kept;
mod worked;

ghost use Rattle.std.specs.Prelude.{◌≡◌, length};
ghost use Rattle.std.specs.List.{All};
ghost use Rattle.propagate.specs.Trails.{KnowsVariables};

use crate::devices::logs::write_back;
use clause_search::{Found, search};
pub use kept::show_rows;
use planes::{Start, refute};
use refutation::Log;
use robin_watch::Unwatched;
use rows::{Assignment, Lit, RowStore};
use std::io;
use worked::{VARS, worked_clauses};

/// Searches over so many clauses, or over all by cutting planes.
pub fn show(rt: &HostRuntime, kind: &str, asked: &str) -> io::Result<()> {
    let (count, limit) = asked.split_once(' ').unwrap_or((asked, ""));
    let rows = worked_clauses(rt.alloc(), count != "5")?;
    match kind {
        "planes" => show_planes(rt, &rows),
        _ => show_search(rt, &rows, limit.parse::<u64>().ok()),
    }
}

/// Searches within a limit if there is one, with the variables 1, 2 and 3 preferred, to be true. Tells what is found.
fn show_search(rt: &HostRuntime, rows: &RowStore, limit: Option<u64>) -> io::Result<()>
    requires { All (KnowsVariables VARS) rows.now }
{
    let prefer = [Lit::new(1, true), Lit::new(2, true), Lit::new(3, true)];
    match search(rt.alloc(), rows, VARS, &prefer, limit)? {
        Found::Sat(values) => tell_values(rt, &values),
        Found::Refuted(log) => tell_log(rt, "refuted", &log),
        Found::Spent(log) => tell_log(rt, "spent", &log),
    }
}

/// Searches by cutting planes, and tells what is found.
fn show_planes(rt: &HostRuntime, rows: &RowStore) -> io::Result<()>
    requires { All (KnowsVariables VARS) rows.now }
{
    let start = Start {
        steps: Log::new(rt.alloc()),
        derived: Vec::new(rt.alloc()),
    };
    match refute(rt.alloc(), rows, VARS, start, 10, &Unwatched)? {
        Some(log) => tell_log(rt, "refuted by planes", &log),
        None => println!(rt; "no log"),
    }
}

/// Tells which variables are true.
fn tell_values(rt: &HostRuntime, values: &Assignment) -> io::Result<()>
    requires { length values.now ≡ VARS }
{
    rt.println("satisfied")?;
    for before in 0..VARS {
        let var = before + 1;
        if values.value(var) {
            println!(rt; "true {var}")?;
        }
    }
    Ok(())
}

/// Tells the log's text.
fn tell_log(rt: &HostRuntime, answer: &str, log: &Log) -> io::Result<()> {
    rt.println(answer)?;
    write_back(rt, log)
}
