//! The text of a file, handed on to a sink.
ghost use Rattle.std.specs.Prelude.{◌≡◌, ◌++◌, ℕ, List, OnOk, IfSome};
ghost use Rattle.std.specs.Io.KnownBytes.{Appends};

use robin_io::{Failed, Shelf, Sink, put_all};

/// How many bytes are handed on at once.
const PIECE: usize = 8192;

/// Hands the whole file of a name on to a sink.
///
/// # Errors
/// Only where the store or the sink failed.
pub fn hand_on<S: Shelf, K: Sink>(shelf: &mut S, name: &str, out: &mut K) -> Result<(), Failed>
    ensures whole { OnOk result (IfSome (S.contents shelf.old name.now)
        (λ bytes. Appends (K.written out.old) (K.written out.new) bytes)) }
    ensures contents { (n : List ℕ) → S.contents shelf.new n ≡ S.contents shelf.old n }
{
    shelf.start(name)?;
    let mut room = [0u8; PIECE];
    for _piece in 0..u64::MAX {
        let count = shelf.take(name, &mut room)?;
        if count == 0 {
            return Ok(());
        }
        put_all(out, &room[..count])?;
    }
    Err(Failed)
}
