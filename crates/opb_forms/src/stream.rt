//! A text on its way to a sink.
ghost use Rattle.std.specs.Prelude.{◌≡◌, ◌+◌, ◌≤◌, [], length, OnOk};
ghost use Rattle.opb_forms.specs.Streams.{Sends};

use crate::waiting::{ROOM, Waiting};
use robin_io::{Failed, Sink, put_all};

/// The most bytes of a piece of text.
pub(crate) const PIECE: usize = 128;

/// Writes all bytes that wait.
pub(crate) fn flush<K: Sink>(sink: &mut K, waiting: &mut Waiting) -> Result<(), Failed>
    ensures sends { Sends K.Sink sink.old sink.new waiting.old waiting.new [] result }
    ensures none { OnOk result (waiting.new ≡ []) }
{
    put_all(sink, waiting.bytes())?;
    waiting.clear();
    Ok(())
}

/// Sees to it that there is room for a piece of text.
pub(crate) fn make_room<K: Sink>(sink: &mut K, waiting: &mut Waiting) -> Result<(), Failed>
    ensures sends { Sends K.Sink sink.old sink.new waiting.old waiting.new [] result }
    ensures room { OnOk result (length waiting.new + 128 ≤ 65536) }
{
    if waiting.len() + PIECE > ROOM {
        return flush(sink, waiting);
    }
    Ok(())
}

/// Sends a short text on its way.
pub(crate) fn send<K: Sink>(sink: &mut K, waiting: &mut Waiting, text: &[u8]) -> Result<(), Failed>
    requires { length text.now ≤ 128 }
    ensures { Sends K.Sink sink.old sink.new waiting.old waiting.new text.now result }
{
    make_room(sink, waiting)?;
    waiting.add(text);
    Ok(())
}
