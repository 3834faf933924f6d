//! A log that is checked while it is read: its text comes in pieces, and neither it nor its steps are kept.
ghost use Rattle.std.specs.Prelude.{◌≡◌, ◌<◌, ◌≤◌, ◌+◌, ◌^◌, ℕ, List, true, false, IfOk, IfSome, IsErrOf, OnOk, length};
ghost use Rattle.robin_io.specs.Outside.{store_between};
ghost use Rattle.refutation.specs.Places.{start};
ghost use Rattle.refutation_check.specs.Room.{has_room};
ghost use Rattle.command_check.specs.Check.{most_log_bytes};
ghost use Rattle.command_check.specs.Feeding.{ChecksFile, ChecksOn};
ghost use Rattle.command_check.specs.Stopping.{ChecksSome, PassesLimit};

use refutation::{Log, LogFeed};
use refutation_check::{Checker, StepsFault, give_all};
use robin_io::{Failed, Shelf};
use std::alloc::Global;

/// The most bytes of a log.
pub const LOG_LIMIT: usize = 268_435_456;

/// How many bytes of a log one take asks for at most.
const PIECE: usize = 8_192;

/// Why the log of a file isn't judged to its end.
#[derive(Clone, Copy, Debug, PartialEq, Eq)]
pub(crate) enum FeedFault {
    /// The store failed.
    Failed,
    /// The file has more bytes than a log may have.
    TooLong,
    /// The steps take more bytes than there is room for.
    Full,
    /// Memory ran out.
    Mem,
}

impl From<Failed> for FeedFault {
    ghost use Rattle.std.specs.Prelude.{◌≡◌};
    ghost use Rattle.command_check.specs.declared.feeding.FeedFault.TheVariants as faults;

    ghost from_gives = { λ _ fault. fault ≡ faults.Failed };

    fn from(_: Failed) -> FeedFault {
        FeedFault::Failed
    }
}

impl From<StepsFault> for FeedFault {
    ghost use Rattle.std.specs.Prelude.{◌≡◌};
    ghost use Rattle.command_check.specs.Feeding.{feed_fault};

    ghost from_gives = { λ steps fault. fault ≡ feed_fault steps };

    fn from(fault: StepsFault) -> FeedFault {
        match fault {
            StepsFault::Full => FeedFault::Full,
            StepsFault::Mem => FeedFault::Mem,
        }
    }
}

/// Reads a piece of a log's text, judges the steps of the lines that it ends, and says how many they were.
fn check_piece(
    alloc: Global,
    piece: &[u8],
    feed: &mut LogFeed,
    checker: &mut Checker,
    limit: Option<u128>,
) -> Result<usize, StepsFault>
    requires { feed.old.line + length piece.now < 2 ^ 64 }
    ensures checked { IfOk result (ChecksOn feed.old checker.old piece.now feed.new checker.new) }
    ensures within { OnOk result (has_room limit checker.old ≡ true → has_room limit checker.new ≡ true) }
    ensures full { IsErrOf result StepsFault.Full →
        ChecksSome feed.old checker.old piece.now checker.new × (has_room limit checker.new ≡ false) }
    ensures line { feed.new.line ≤ feed.old.line + length piece.now }
{
    let mut steps = Log::new(alloc);
    feed.feed(piece, &mut steps)?;
    give_all(checker, &steps, limit)?;
    Ok(steps.len())
}

/// Reads the file of a log, judges its steps while they take no more bytes than the limit, and says how many they were.
///
/// The file is taken in pieces, so that of its text no more than a piece and an unfinished line is held at a time.
pub(crate) fn check_file<S: Shelf>(
    alloc: Global,
    shelf: &mut S,
    name: &str,
    feed: &mut LogFeed,
    checker: &mut Checker,
    limit: Option<u128>,
) -> Result<usize, FeedFault>
    requires start { feed.old ≡ start }
    ensures checked { IfOk result
        (ChecksFile (S.contents shelf.old name.now) feed.old checker.old feed.new checker.new) }

    // Each refusal's cause, as in reading a whole file.
    ensures failed { IsErrOf result FeedFault.Failed →
        (store_between S.Shelf shelf.old shelf.new).failed name.now }
    ensures too_long { IsErrOf result FeedFault.TooLong →
        (store_between S.Shelf shelf.old shelf.new).took_more most_log_bytes
        × IfSome (S.contents shelf.old name.now) (λ file. most_log_bytes < length file) }
    ensures within { OnOk result (has_room limit checker.old ≡ true → has_room limit checker.new ≡ true) }
    ensures full { IsErrOf result FeedFault.Full →
        PassesLimit (S.contents shelf.old name.now) limit feed.old checker.old checker.new }
    ensures taken { S.taken shelf.new ≤ S.taken shelf.old + (most_log_bytes + 1) }
    ensures contents { (n : List ℕ) → S.contents shelf.new n ≡ S.contents shelf.old n }
{
    let mut room = [0u8; PIECE];
    shelf.start(name)?;
    let mut bytes = 0;
    let mut steps = 0;
    'pieces: loop {
        let most = PIECE.min(LOG_LIMIT + 1 - bytes);
        let count = shelf.take(name, &mut room[..most])?;
        if count == 0 {
            return Ok(steps);
        }
        // Before the piece is read, so that what lies beyond the limit is looked at for nothing else.
        if count > LOG_LIMIT - bytes {
            return Err(FeedFault::TooLong);
        }
        bytes += count;
        steps += check_piece(alloc, &room[..count], feed, checker, limit)?;
    }
}
