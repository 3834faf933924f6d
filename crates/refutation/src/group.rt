// Groups of tokens, up to each `0`.
ghost use Rattle.std.specs.Prelude.{◌≡◌};
ghost use Rattle.refutation.specs.Lines.{groups_of, is_count, is_literal, is_small_number, is_small_variable};
ghost use Rattle.refutation.specs.Lines.{literal, number, tokens_of};
ghost use Rattle.refutation.specs.Groups.{FindsGroup};

use crate::fault::{LogKind, Stop};
use crate::token::{literal_at, number_at};
use rows::Lit;

/// Adds the literals up to `0`. Says whether all are small enough, and what is left behind the space after `0`.
pub(crate) fn literals_at<'a>(
    bytes: &'a [u8],
    literals: &mut Vec<Lit>,
) -> Result<(bool, Option<&'a [u8]>), Stop>
    ensures { FindsGroup is_literal is_small_variable literal (groups_of (tokens_of bytes.now)) result
        literals.old.items literals.new.items }
{
    let mut rest = bytes;
    let mut all_small = true;
    'tokens: loop {
        let (token, left) = match literal_at(rest) {
            Ok(found) => found,
            Err(kind) => return Err(Stop::Form(kind)),
        };
        let Some(item) = token else {
            return Ok((all_small, left));
        };
        literals.push(item.value)?;
        all_small &= item.small;
        let Some(left) = left else {
            return Err(Stop::Form(LogKind::BadLine));
        };
        rest = left;
    }
}

/// Adds the numbers up to `0`. Says whether all are small enough, and what is left behind the space after `0`.
pub(crate) fn numbers_at<'a>(
    bytes: &'a [u8],
    numbers: &mut Vec<u64>,
) -> Result<(bool, Option<&'a [u8]>), Stop>
    ensures { FindsGroup is_count is_small_number number (groups_of (tokens_of bytes.now)) result
        numbers.old.items numbers.new.items }
{
    let mut rest = bytes;
    let mut all_small = true;
    'tokens: loop {
        let (token, left) = number_at(rest)?;
        let Some(item) = token else {
            return Ok((all_small, left));
        };
        numbers.push(item.value)?;
        all_small &= item.small;
        let Some(left) = left else {
            return Err(Stop::Form(LogKind::BadLine));
        };
        rest = left;
    }
}
