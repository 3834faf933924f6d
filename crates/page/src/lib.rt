//! What a page calls: a run of the words of a command line over files that lie in memory.
//!
//! A text crosses as an address and a length, and the answer goes to the front of a room that the page lends. No raw
//! pointer stands here, so no proof is written by hand for one. The store never fails, and a text fails only where memory
//! runs out, so what `run` promises where nothing fails holds.
#![tactic(auto)]

mod files;
mod text;
mod words;

ghost use Rattle.std.specs.Prelude.{◌≡◌, ◌<◌, ◌≤◌, ◌⊎◌, length, map, string_bytes, take};
ghost use Rattle.command_line.specs.Words.{reading};
ghost use Rattle.page.specs.Promises.{Promises};
ghost use Rattle.page.specs.Shown.{HasRun, IsAnswered, IsCut, IsShown, lines};

use crate::files::{Files, PageShelf};
use crate::text::PageSink;
use crate::words::words_of;
use answers::{Status, code};
use robin_run::run;
use robin_watch::Unwatched;
use std::alloc::{AllocError, Global};

/// How many bytes of the room the texts of a run take: the answer at the front, and behind it what a person is told.
#[repr(C)]
#[derive(Drop)]
pub struct Lengths {
    pub text: usize,
    pub told: usize,
}

/// The status where the words aren't UTF-8.
const UNREAD_WORDS: u8 = 10;

/// Puts a text to the front of the room, and behind it as much as fits of what a person is told.
fn put(text: &[u8], told: &[u8], room: &mut [u8], lengths: &mut Lengths)
    requires { length text.now ≤ length room.old }
    ensures length { lengths.new.text ≡ length text.now }
    ensures text { take lengths.new.text room.new ≡ text.now }
{
    let (front, rest) = room.split_at_mut(text.len());
    front.copy_from_slice(text);
    let count = told.len().min(rest.len());
    rest[..count].copy_from_slice(&told[..count]);
    lengths.text = text.len();
    lengths.told = count;
}

/// Shows what a run left, unless memory for the text ran out or the room is too small for it.
fn show(
    ended: Status,
    faults: u64,
    text: &[u8],
    told: &[u8],
    room: &mut [u8],
    lengths: &mut Lengths,
) -> u8
    ensures { IsShown ended text.now faults result lengths.new.text room.new
        ⊎ IsCut text.now faults result lengths.new.text room.new }
{
    if faults > 0 || text.len() > room.len() {
        lengths.text = 0;
        lengths.told = 0;
        return code(Status::WriteFault);
    }
    put(text, told, room, lengths);
    code(ended)
}

/// Runs the command of these words over these files.
fn run_words(
    alloc: Global,
    words: &[String],
    files: &Files,
    room: &mut [u8],
    lengths: &mut Lengths,
) -> u8
    ensures { HasRun (map string_bytes words.now) files.now result lengths.new.text room.new }
{
    let mut shelf = PageShelf::new(files);
    let mut out = PageSink::new(alloc);
    let mut told = PageSink::new(alloc);
    let ended = run(alloc, words, &mut shelf, &mut out, &mut told, &Unwatched);
    show(ended, out.faults(), out.text(), told.text(), room, lengths)
}

/// Runs the command of the words that stand one on a line, over these files.
#[tactic(auto, using(crate::proofs::RunLemmas::answered))]
fn run_lines(
    alloc: Global,
    words: &[u8],
    files: &Files,
    room: &mut [u8],
    lengths: &mut Lengths,
) -> u8
    ensures { IsAnswered words.now files.now result lengths.new.text room.new }
{
    lengths.text = 0;
    lengths.told = 0;
    let Ok(text) = str::from_utf8(words) else {
        return UNREAD_WORDS;
    };
    match words_of(alloc, text) {
        Ok(words) => run_words(alloc, &words, files, room, lengths),
        Err(AllocError) => code(Status::Memory),
    }
}

/// Runs the command that the words name, which stand one on a line, over files that are named `1` to `4`. The text goes to
/// the front of the room and its length to `lengths`, with what a person is told behind it, and the status of the run is
/// answered: 10 where the words aren't UTF-8, 8 where memory runs out, and 7 where the text doesn't fit into the room or
/// memory for it runs out.
///
/// - `answered`: a run was made that keeps all that `run` promises, and its whole text is shown, or none.
/// - `promises`: what that means for `validate`, `check` and `solve`, without a word of stores and sinks.
///
/// Nothing watches the run, and there is no clock here. So `--seconds` ends no run; the page ends the worker that it goes in.
#[unsafe(no_mangle)]
pub extern "C" fn page_run(
    alloc: Global,
    words: &[u8],
    files: &Files,
    room: &mut [u8],
    lengths: &mut Lengths,
) -> u8
    ensures answered { IsAnswered words.now files.now result lengths.new.text room.new }
    ensures promises { Promises (reading (lines words.now)) files.now result lengths.new.text room.new }
{
    run_lines(alloc, words, files, room, lengths)
}
