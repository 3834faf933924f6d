// Sinks, which take bytes in order, and the writing of a whole text.
ghost use Rattle.std.specs.Prelude.{◌≡◌, ◌+◌, ◌<◌, ◌≤◌, ℕ, List, [], Option, length, take, IfOk, IsOk, OnOk, OnErr};
ghost use Rattle.std.specs.Io.KnownBytes.{Appends};
ghost use Rattle.robin_io.specs.Counts.{Rose, HasOneCause};
ghost use Rattle.robin_io.specs.Written.{AppendsPrefix};

use crate::Failed;

/// A sink takes bytes in order.
pub trait Sink {
    /// The bytes so far, where the sink tells them.
    ghost written: { Self → Option (List ℕ) };

    /// How often the sink has failed, up to 2^64 - 1, its last value.
    ghost faults: { Self → ℕ };

    /// How many calls of `put` were counted. A sink may count none.
    ghost calls: { Self → ℕ } = { λ _. 0 };

    /// Takes bytes from the front of the piece, at least one where there is one, and says how many.
    /// After `Failed` nothing was taken.
    fn put(&mut self, piece: &[u8]) -> Result<usize, Failed>
        ensures most { IfOk result (λ k. k ≤ length piece.now) }
        ensures some { IfOk result (λ k. 0 < length piece.now → 0 < k) }
        ensures bytes { IfOk result (λ k. Appends (written self.old) (written self.new) (take k piece.now)) }
        ensures err { OnErr result (written self.new ≡ written self.old) }
        ensures calls { calls self.new ≤ calls self.old + 1 }
        ensures cause { HasOneCause (faults self.old) (faults self.new) result };
}

/// Writes all the bytes, and takes no memory.
///
/// # Errors
/// Only where the sink failed: then a prefix of the bytes was written.
pub fn put_all<K: Sink>(sink: &mut K, bytes: &[u8]) -> Result<(), Failed>
    ensures ok { OnOk result (Appends (K.written sink.old) (K.written sink.new) bytes.now) }
    ensures err { OnErr result (AppendsPrefix (K.written sink.old) (K.written sink.new) bytes.now) }
    ensures cause { HasOneCause (K.faults sink.old) (K.faults sink.new) result }

    // At most as many puts as bytes: each but the last takes one.
    ensures calls { K.calls sink.new ≤ K.calls sink.old + length bytes.now }

    // Where there is nothing to write, nothing is put.
    ensures nothing { bytes.now ≡ [] → IsOk result × (sink.new ≡ sink.old) }
{
    let mut done = 0;
    while done < bytes.len() {
        done += sink.put(&bytes[done..])?;
    }
    Ok(())
}
