//! The call that the program makes: the words, the command's stages, and the answer written.
ghost use Rattle.std.specs.Prelude.{◌≡◌, ◌+◌, ◌*◌, ◌≤◌, ℕ, List, length, Some, map, option_map, string_bytes};
ghost use Rattle.std.specs.Option.{option_copied};
ghost use Rattle.std.specs.Io.KnownBytes.{Keeps};
ghost use Rattle.robin_io.specs.Outside.{output_between, store_between};
ghost use Rattle.command_line.specs.SeenWords.{command_of};
ghost use Rattle.command_line.specs.Words.{members_of, reading, HasTeams, NeedsNoFile};
ghost use Rattle.answers.specs.SeenReply.{answer_of, Answers};
ghost use Rattle.answers.specs.Stages.{IsWritten};
ghost use Rattle.robinx.specs.declared.instance.TheConstants.{INSTANCE_LIMIT};
ghost use Rattle.command_explain.specs.Parted.{parted};
ghost use Rattle.command_show.specs.Demands.{demanded};
ghost use Rattle.command_rows.specs.Rowed.{rowed, rows_answer};
ghost use Rattle.robin_run.specs.Answer.{IsAnswer};
ghost use Rattle.robin_run.specs.Commands.{KeepsPromises};
ghost use Rattle.robin_run.specs.Ends.{EndsByWords};
ghost use Rattle.robin_run.specs.Folded.{IsFolded, most_puts};
ghost use Rattle.robin_run.specs.Givens.{Gives, GivesReply, HearsNoWatch};
ghost use Rattle.robin_run.specs.Run.{Answered, run_of, step_room};
ghost use Rattle.robin_run.specs.Taken.{most_taken};

use crate::given::{Given, give};
use answers::{NoValue, Reply, Status, help, refuse_words, version, write_answer};
use command_check::{check, validate};
use command_explain::{explain_file, part_file};
use command_line::{Goal, Words, members, read_words, room_of};
use command_prove::{Aim, bound_file, prove_file};
use command_resume::{
    Audit, NearResumption, Resumption, audit_file, resume_file, resume_near_file,
};
use command_rows::{ReadyRows, rows_file, values_file, write_rows};
use command_show::{Form, demands, show};
use command_solve::{circle, make_league, patterns_file, solve_file, solve_from_file, trial};
use robin_io::{Shelf, Sink, put_all};
use robin_watch::{Listener, News};
use std::alloc::Global;

/// Writes the part of the league of a file for the numbers of a list.
fn part_of_list<S: Shelf>(
    alloc: Global,
    shelf: &mut S,
    instance: &str,
    list: &str,
) -> Result<Reply, NoValue>
    ensures answer { Answers (parted (store_between S.Shelf shelf.old shelf.new)
        instance.now (members_of list.now)) result }
    ensures taken { S.taken shelf.new ≤ S.taken shelf.old + (INSTANCE_LIMIT + 1) }
    ensures contents { (n : List ℕ) → S.contents shelf.new n ≡ S.contents shelf.old n }
{
    let members = members(alloc, list)?;
    part_file(alloc, shelf, instance, &members)
}

/// Says what the constraints of the league of a file demand that have the numbers of a list, or all.
fn demands_of_list<S: Shelf>(
    alloc: Global,
    shelf: &mut S,
    instance: &str,
    list: Option<&str>,
) -> Result<Reply, NoValue>
    ensures answer { Answers (demanded (store_between S.Shelf shelf.old shelf.new)
        instance.now (option_map members_of (option_copied list.entry))) result }
    ensures taken { S.taken shelf.new ≤ S.taken shelf.old + (INSTANCE_LIMIT + 1) }
    ensures contents { (n : List ℕ) → S.contents shelf.new n ≡ S.contents shelf.old n }
{
    match list {
        Some(list) => {
            let members = members(alloc, list)?;
            demands(alloc, shelf, instance, Some(&members))
        }
        None => demands(alloc, shelf, instance, None),
    }
}

/// The rows of the league of a file, ready to be written.
fn rows_of_file<S: Shelf>(
    alloc: Global,
    shelf: &mut S,
    instance: &str,
    goal: Goal,
) -> Result<Given, NoValue>
    ensures answer { Gives (rowed (store_between S.Shelf shelf.old shelf.new) instance.now goal) result }
    ensures taken { S.taken shelf.new ≤ S.taken shelf.old + (INSTANCE_LIMIT + 1) }
    ensures contents { (n : List ℕ) → S.contents shelf.new n ≡ S.contents shelf.old n }
{
    let ready = rows_file(alloc, shelf, instance, goal)?;
    Ok(Given::Rows(ready))
}

/// So many megabytes, as bytes.
fn in_bytes(megabytes: Option<u64>) -> Option<u128>
    ensures { result ≡ option_map (λ n. n * 1000000) megabytes }
{
    match megabytes {
        None => None,
        Some(n) => Some(u128::from(n) * 1_000_000),
    }
}

/// Follows a command. The steps of a log may take so many bytes as the limit says.
fn follow<S: Shelf, W: Listener>(
    alloc: Global,
    command: Words,
    shelf: &mut S,
    watch: &W,
    limit: Option<u128>,
) -> Result<Given, NoValue>
    requires { HasTeams (command_of command) }
    ensures answer { Gives (IsAnswer (W.may_stop watch.now) limit (Some (command_of command.entry))
        (store_between S.Shelf shelf.old shelf.new)) result }
    ensures taken { S.taken shelf.new ≤ S.taken shelf.old + most_taken (Some (command_of command.entry)) }
    ensures contents { (n : List ℕ) → S.contents shelf.new n ≡ S.contents shelf.old n }
    ensures untouched { NeedsNoFile (Some (command_of command.entry)) → shelf.new ≡ shelf.old }
{
    match command {
        Words::Rows { instance, goal } => rows_of_file(alloc, shelf, instance, goal),
        _ => give(replied(alloc, command, shelf, watch, limit)),
    }
}

/// Follows a command that gives a reply: any but `rows`.
fn replied<S: Shelf, W: Listener>(
    alloc: Global,
    command: Words,
    shelf: &mut S,
    watch: &W,
    limit: Option<u128>,
) -> Result<Reply, NoValue>
    requires teams { HasTeams (command_of command) }
    requires replies { GivesReply (command_of command) }
    ensures answer { Answers (IsAnswer (W.may_stop watch.now) limit (Some (command_of command.entry))
        (store_between S.Shelf shelf.old shelf.new)) result }
    ensures taken { S.taken shelf.new ≤ S.taken shelf.old + most_taken (Some (command_of command.entry)) }
    ensures contents { (n : List ℕ) → S.contents shelf.new n ≡ S.contents shelf.old n }
    ensures untouched { NeedsNoFile (Some (command_of command.entry)) → shelf.new ≡ shelf.old }
{
    match command {
        Words::Solve { instance, budgets } => solve_file(alloc, shelf, instance, budgets, watch),
        Words::SolveFrom {
            instance,
            solution,
            budgets,
        } => solve_from_file(alloc, shelf, instance, solution, budgets, watch),
        Words::Explain {
            instance,
            conflicts,
        } => explain_file(alloc, shelf, instance, conflicts, watch),
        Words::Prove {
            instance,
            solution,
            floor,
            conflicts,
        } => {
            let aim = Aim { floor, conflicts };
            prove_file(alloc, shelf, instance, solution, aim, watch)
        }
        Words::Resume {
            instance,
            solution,
            k,
            conflicts,
        } => {
            let resumption = Resumption { k, conflicts };
            resume_file(alloc, shelf, instance, solution, resumption, watch)
        }
        Words::ResumeNear {
            instance,
            solution,
            k,
            budgets,
        } => {
            let resumption = NearResumption { k, budgets };
            resume_near_file(alloc, shelf, instance, solution, resumption, watch)
        }
        Words::Trial { n, seed, budgets } => trial(alloc, n, seed, budgets, watch),
        _ => unwatched(alloc, command, shelf, limit),
    }
}

/// Follows a command that gives a reply and hears no watch.
fn unwatched<S: Shelf>(
    alloc: Global,
    command: Words,
    shelf: &mut S,
    limit: Option<u128>,
) -> Result<Reply, NoValue>
    requires teams { HasTeams (command_of command) }
    requires unwatched { HearsNoWatch (command_of command) }
    ensures answer { Answers (IsAnswer ⊥ limit (Some (command_of command.entry))
        (store_between S.Shelf shelf.old shelf.new)) result }
    ensures taken { S.taken shelf.new ≤ S.taken shelf.old + most_taken (Some (command_of command.entry)) }
    ensures contents { (n : List ℕ) → S.contents shelf.new n ≡ S.contents shelf.old n }
    ensures untouched { NeedsNoFile (Some (command_of command.entry)) → shelf.new ≡ shelf.old }
{
    match command {
        Words::Validate { instance, solution } => validate(alloc, shelf, instance, solution),
        Words::Show {
            instance,
            solution,
            most,
            width,
        } => show(alloc, shelf, instance, solution, Form::Text { most, width }),
        Words::Demands { instance, list } => demands_of_list(alloc, shelf, instance, list),
        Words::Sheet { instance, solution } => show(alloc, shelf, instance, solution, Form::Csv),
        Words::Check { instance, log } => check(alloc, shelf, instance, log, limit),
        Words::Patterns {
            instance,
            conflicts,
        } => patterns_file(alloc, shelf, instance, conflicts),
        Words::Part { instance, list } => part_of_list(alloc, shelf, instance, list),
        Words::Bound { instance, log } => bound_file(alloc, shelf, instance, log, limit),
        Words::Audit {
            instance,
            solution,
            k,
            log,
        } => {
            let audit = Audit { k, limit };
            audit_file(alloc, shelf, instance, solution, audit, log)
        }
        Words::Values { instance, values } => values_file(alloc, shelf, instance, values),
        Words::Circle { n } => Ok(circle(alloc, n)?),
        Words::Make { n, seed } => Ok(make_league(alloc, n, seed)?),
        Words::Help { topic } => Ok(help(alloc, topic)?),
        Words::Version => Ok(version(alloc)?),
        _ => unreachable!(),
    }
}

/// The answer to the words, or why there is none.
fn answer<S: Shelf, W: Listener>(
    alloc: Global,
    words: &[String],
    shelf: &mut S,
    watch: &W,
) -> Result<Given, NoValue>
    ensures answer { Gives (IsAnswer (W.may_stop watch.now) (step_room (map string_bytes words.now))
        (reading (map string_bytes words.now)) (store_between S.Shelf shelf.old shelf.new)) result }
    ensures taken { S.taken shelf.new ≤ S.taken shelf.old + most_taken (reading (map string_bytes words.now)) }
    ensures contents { (n : List ℕ) → S.contents shelf.new n ≡ S.contents shelf.old n }
    ensures untouched { NeedsNoFile (reading (map string_bytes words.now)) → shelf.new ≡ shelf.old }
{
    match read_words(words) {
        None => Err(NoValue::Refused(refuse_words(alloc, words)?)),
        Some(command) => follow(alloc, command, shelf, watch, in_bytes(room_of(words))),
    }
}

/// Tells a person. Whether that could be written changes nothing.
fn tell<T: Sink>(told: &mut T, text: &[u8]) {
    let _written = put_all(told, text);
}

/// Writes an answer, and tells where it couldn't be written whole.
fn write_told<K: Sink, T: Sink>(out: &mut K, told: &mut T, reply: &Reply) -> Status
    ensures written { IsWritten (answer_of reply.now) result (output_between K.Sink out.old out.new) }
    ensures calls { K.calls out.new ≤ K.calls out.old + length (answer_of reply.now).text }
{
    let status = write_answer(out, reply);
    tell(told, unwritten(status));
    status
}

/// Writes rows, and tells where they couldn't be written whole.
fn write_rows_told<K: Sink, T: Sink>(out: &mut K, told: &mut T, ready: ReadyRows) -> Status
    ensures written { IsWritten (rows_answer ready) result (output_between K.Sink out.old out.new) }
    ensures calls { K.calls out.new ≤ K.calls out.old + length (rows_answer ready).text }
{
    let status = write_rows(out, ready);
    tell(told, unwritten(status));
    status
}

/// What is told where an answer couldn't be written whole.
fn unwritten(status: Status) -> &'static [u8] {
    match status {
        Status::WriteFault => b"robin: the text could not be written whole\n",
        _ => b"",
    }
}

/// Writes the answer that a command gave, tells what a person is told beside it, and says how the run ends.
fn write_given<K: Sink, T: Sink>(out: &mut K, told: &mut T, given: Result<Given, NoValue>) -> Status
    ensures folded { IsFolded given result (output_between K.Sink out.old out.new) }
    ensures calls { K.calls out.new ≤ K.calls out.old + most_puts given }
{
    match given {
        Ok(Given::Answer(reply)) => write_told(out, told, &reply),
        Ok(Given::Rows(ready)) => write_rows_told(out, told, ready),
        Err(NoValue::Refused(refusal)) => {
            tell(told, refusal.advice.text());
            write_told(out, told, &refusal.reply)
        }
        Err(NoValue::Memory) => {
            tell(told, b"robin: memory ran out, and no answer was written\n");
            Status::Memory
        }
        Err(NoValue::Room) => {
            tell(
                told,
                b"robin: the log's steps take more than --room allows, and no answer was written\n",
            );
            Status::Memory
        }
    }
}

/// Runs the command that the words name, over a store of files, writes its text to `out`, and says how the run ends.
///
/// `words` are the words of the command line without the program's name. The whole text is made before its first byte
/// is written, but for that of `rows`, which is made as it is written. What a person is told of a run that went wrong
/// goes to `told`: no clause says anything of it, and its faults change nothing. The watch may end the searches, walks,
/// descents and further tries of `solve` and `trial`, and hears how they go.
///
/// - `answer`: whatever the store, the sink and the files do, an answer to the words is written, and each refusal has
///   its cause. `out` is called at most once for each byte of the answer's text.
/// - `ends`: a run ends in one of the ways that its words have.
/// - `commands`: each command keeps what it promises. `specs/Commands.antt` has a field a command, and the command's own
///   file there has its sentences. Most of them are for a store that tells the bytes of the files. A store in memory
///   tells them, that of the machine doesn't.
/// - `taken`: of each file that the words name, at most a byte more than its limit is taken.
/// - `contents` and `untouched`: no file's contents change, and words that need no file leave the store alone.
/// - `memory` and `no_puts`: memory may run out at any time, and then nothing is written, nor is `out` called. Nothing
///   is said of which files were read.
pub fn run<S: Shelf, K: Sink, T: Sink, W: Listener>(
    alloc: Global,
    words: &[String],
    shelf: &mut S,
    out: &mut K,
    told: &mut T,
    watch: &W,
) -> Status
    ensures answer { Answered (run_of S.Shelf K.Sink words.now (W.may_stop watch.now) shelf.old shelf.new out.old
        out.new result) }
    ensures ends { EndsByWords (run_of S.Shelf K.Sink words.now (W.may_stop watch.now) shelf.old shelf.new out.old
        out.new result) }
    ensures commands { KeepsPromises (run_of S.Shelf K.Sink words.now (W.may_stop watch.now) shelf.old shelf.new out.old
        out.new result) }
    ensures taken { S.taken shelf.new ≤ S.taken shelf.old + most_taken (reading (map string_bytes words.now)) }
    ensures contents { (n : List ℕ) → S.contents shelf.new n ≡ S.contents shelf.old n }
    ensures untouched { NeedsNoFile (reading (map string_bytes words.now)) → shelf.new ≡ shelf.old }
    ensures memory { result ≡ Status.Memory → Keeps (K.written out.old) (K.written out.new) }
    ensures no_puts { result ≡ Status.Memory → K.calls out.new ≤ K.calls out.old }
{
    let given = answer(alloc, words, shelf, watch);
    watch.tell(News::Ready);
    write_given(out, told, given)
}
