//! The comments behind a schedule: the descent that led to it.
ghost use Rattle.std.specs.Prelude.{◌≡◌, ◌++◌, IfOk, OnOk, string_bytes};
ghost use Rattle.std.specs.List.{flat_map};
ghost use Rattle.command_solve.specs.Solve.{descent_line, descent_text, move_line, move_of_three, move_of_two};

use descent::Descent;
use moves::{MoveList, Swap};
use std::alloc::{AllocError, Global};

/// Adds the comments of a descent to a text: what it began with, and its moves.
///
/// # Errors
/// Only where memory runs out.
pub(crate) fn add_descent(
    alloc: Global,
    text: &mut Vec<u8>,
    first: u128,
    descent: &Descent,
) -> Result<(), AllocError>
    ensures { OnOk result (text.new.items ≡ text.old.items ++ descent_text first descent.now) }
{
    let line = first_line(alloc, first, descent)?;
    text.extend_from_slice(line.as_bytes())?;
    add_moves(alloc, text, descent.trail())
}

/// The comment that comes first.
fn first_line(alloc: Global, first: u128, descent: &Descent) -> Result<String, AllocError>
    ensures { IfOk result (λ line. string_bytes line ≡ descent_line first descent.now) }
{
    let moves = descent.trail().len();
    if descent.settled() {
        format!(in alloc; "<!-- descent first={first} moves={moves} settled=yes -->\n")
    } else {
        format!(in alloc; "<!-- descent first={first} moves={moves} settled=no -->\n")
    }
}

/// Adds the comments of moves to a text.
fn add_moves(alloc: Global, text: &mut Vec<u8>, trail: &MoveList) -> Result<(), AllocError>
    ensures { OnOk result (text.new.items ≡ text.old.items ++ flat_map move_line trail.now.list) }
{
    for k in 0..trail.len() {
        let line = move_comment(alloc, trail.get(k))?;
        text.extend_from_slice(line.as_bytes())?;
    }
    Ok(())
}

/// The comment of a move.
fn move_comment(alloc: Global, step: Swap) -> Result<String, AllocError>
    ensures { IfOk result (λ line. string_bytes line ≡ move_line step) }
{
    match step {
        Swap::HomeSwap { i, j } => pair_comment(alloc, "HomeSwap", i.0, j.0),
        Swap::RoundSwap { s, t } => pair_comment(alloc, "RoundSwap", s.0, t.0),
        Swap::TeamSwap { i, j } => pair_comment(alloc, "TeamSwap", i.0, j.0),
        Swap::PartRoundSwap { i, s, t } => triple_comment(alloc, "PartRoundSwap", i.0, s.0, t.0),
        Swap::PartTeamSwap { i, j, s } => triple_comment(alloc, "PartTeamSwap", i.0, j.0, s.0),
    }
}

/// The comment of a move with two numbers.
fn pair_comment(alloc: Global, name: &str, a: u16, b: u16) -> Result<String, AllocError>
    ensures { IfOk result (λ line. string_bytes line ≡ move_of_two name.now a b) }
{
    format!(in alloc; "<!-- move {name} {a} {b} -->\n")
}

/// The comment of a move with three.
fn triple_comment(alloc: Global, name: &str, a: u16, b: u16, c: u16) -> Result<String, AllocError>
    ensures { IfOk result (λ line. string_bytes line ≡ move_of_three name.now a b c) }
{
    format!(in alloc; "<!-- move {name} {a} {b} {c} -->\n")
}
