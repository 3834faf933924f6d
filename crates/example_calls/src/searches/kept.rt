//! What rows of two and three terms force, and what a store of rows and an assignment keep.
ghost use Rattle.std.specs.Prelude.{◌≡◌, ◌≤◌, [], length};
ghost use Rattle.std.specs.List.{All};

use rows::{Assignment, Lit, Partial, RowStore, Term, Value, force, forced, reach, slack};
use std::io;
use std::mem::size_of;

/// Tells how much a literal and a term take, and then all of that.
pub fn show_rows(rt: &HostRuntime) -> io::Result<()> {
    let (literal, term) = (size_of::<Lit>(), size_of::<Term>());
    println!(rt; "literal {literal} bytes, term {term} bytes")?;
    show_forced(rt)?;
    show_force(rt)?;
    show_store(rt)?;
    show_assignment(rt)
}

/// Where 2 is true, the row "2 of 1, 3 of not 2, 1 of 3, at least 2" has 1 to spare and forces 1 alone, and with a
/// degree of 5 it lacks 2.
fn show_forced(rt: &HostRuntime) -> io::Result<()> {
    let terms = [
        Term {
            coef: 2,
            lit: Lit::new(1, true),
        },
        Term {
            coef: 3,
            lit: Lit::new(2, false),
        },
        Term {
            coef: 1,
            lit: Lit::new(3, true),
        },
    ];
    let mut partial = Partial::new(rt.alloc(), 3)?;
    partial.set(Lit::new(2, true));
    tell_forced(rt, &terms, &mut partial)
}

/// Tells the slack of terms with the degrees 2 and 5, what is forced with the degree 2, and that 2 can be free again.
fn tell_forced(rt: &HostRuntime, terms: &[Term], partial: &mut Partial) -> io::Result<()>
    requires known { All (λ t. t.lit.var ≤ length partial.old) terms.now }
    requires two { 2 ≤ length partial.old }
{
    let (spare, lack) = (slack(terms, 2, partial), slack(terms, 5, partial));
    println!(rt; "slack {spare} and {lack}")?;
    if reach(terms, partial) < 2 {
        return println!(rt; "in conflict");
    }
    let first = forced(terms, 2, partial, 0) == Some(0);
    let next = forced(terms, 2, partial, 1).is_some();
    partial.unset(2);
    let free = partial.value(Lit::new(2, false)) == Value::Free;
    println!(rt; "forced first {first}, next {next}\nfree again {free}")
}

/// "1 of 1, 3 of not 2, at least 2" makes not 2 true, and lists 2.
fn show_force(rt: &HostRuntime) -> io::Result<()> {
    let terms = [
        Term {
            coef: 1,
            lit: Lit::new(1, true),
        },
        Term {
            coef: 3,
            lit: Lit::new(2, false),
        },
    ];
    let mut partial = Partial::new(rt.alloc(), 2)?;
    let mut trail = Vec::new(rt.alloc());
    let reached = reach(&terms, &partial);
    force(&terms, 2, reached, &mut partial, &mut trail)?;
    let is_true = partial.value(Lit::new(2, false)) == Value::True;
    tell_made(rt, &trail, is_true)
}

/// Tells which variables got a value, and whether the literal "not 2" is true.
fn tell_made(rt: &HostRuntime, trail: &[u32], is_true: bool) -> io::Result<()> {
    for var in trail {
        println!(rt; "made true {var}")?;
    }
    println!(rt; "not 2 true {is_true}")
}

/// A row without terms and one of 7 of not 5 are kept.
fn show_store(rt: &HostRuntime) -> io::Result<()> {
    let mut store = RowStore::with_room(rt.alloc(), 2, 1)?;
    tell_rows(rt, &mut store)
}

/// Puts the two rows into an empty store, and tells what it keeps of each row.
fn tell_rows(rt: &HostRuntime, store: &mut RowStore) -> io::Result<()>
    requires { store.old ≡ [] }
{
    store.push(&[], 3)?;
    let term = Term {
        coef: 7,
        lit: Lit::new(5, false),
    };
    store.push(&[term], 4)?;
    for place in 0..store.len() {
        let (terms, degree) = (store.terms(place).len(), store.degree(place));
        println!(rt; "row of {terms} terms and degree {degree}")?;
    }
    Ok(())
}

/// An assignment of two variables, of which the second is made true.
fn show_assignment(rt: &HostRuntime) -> io::Result<()> {
    let mut assignment = Assignment::new(rt.alloc(), 2)?;
    assignment.set(2, true);
    let (first, second) = (assignment.value(1), assignment.value(2));
    println!(rt; "values {first} {second}")
}
