//! What the first two files say: a league and the games that were played.
ghost use Rattle.std.specs.Prelude.{◌≡◌, ◌<◌, ◌≤◌, ◌+◌, ℕ, List, IfOk, length};
ghost use Rattle.std.specs.List.{All};
ghost use Rattle.robin_io.specs.Outside.{store_between};
ghost use Rattle.robin_io.specs.Counts.{raised};
ghost use Rattle.league.specs.Counts as counts;
ghost use Rattle.league.specs.Instance.{IsGame};
ghost use Rattle.answers.specs.SeenRefusal.{refused_with};
ghost use Rattle.answers.specs.SeenReply.{answer_of, MatchStage};
ghost use Rattle.resume.specs.Kept as kept;
ghost use Rattle.command_resume.specs.Seasons as seasons;
ghost use Rattle.command_resume.specs.Seasons.{has_size, has_slots, plays};
ghost use Rattle.command_resume.specs.SeenSeason.{IsSaid};
ghost use Rattle.encoding.specs.Limit.{most_terms};

use answers::{
    Advice, NoValue, Refusal, Reply, Status, file, league_in, rows_refused, schedule_in,
};
use encoding::MOST_TERMS;
use league::{League, Schedule, slot_count};
use resume::resume_size;
use robin_io::Shelf;
use robinx::{INSTANCE_LIMIT, SOLUTION_LIMIT};
use std::alloc::{AllocError, Global};

/// A league, the games of a list, how many of its slots are played, and how many bytes both files have.
#[derive(Drop)]
pub(crate) struct Season {
    pub(crate) league: League,
    pub(crate) played: Schedule,
    pub(crate) slots: u16,
    pub(crate) bytes: usize,
}

/// The season doesn't have so many slots.
fn slot_refused(alloc: Global, league: &League, k: u64) -> Result<Refusal, AllocError>
    ensures { IfOk result (refused_with (seasons.slot_refused k)) }
{
    let text = format!(in alloc; "refused slot {k}\n")?;
    let reply = Reply {
        status: Status::File,
        text: text.into_bytes(),
    };
    Ok(Refusal::new(alloc, reply, advice_on_slots(alloc, league, k)))
}

/// What a person is told of a number of slots that the season doesn't have.
fn advice_on_slots(alloc: Global, league: &League, k: u64) -> Result<Advice, AllocError> {
    let mut advice = Advice::new(alloc);
    advice.say("robin: the season has ")?;
    advice.count(u64::from(slot_count(league.n())))?;
    advice.say(" slots, fewer than K, which is ")?;
    advice.count(k)?;
    advice.end_line()?;
    Ok(advice)
}

/// How many slots of the season are played, or that it doesn't have so many.
fn slots_of(alloc: Global, league: &League, k: u64) -> Result<u16, NoValue>
    ensures { MatchStage result
        (λ slots. (slots ≡ k) × (k ≤ counts.slot_count league.now.n))
        (λ answer. (counts.slot_count league.now.n < k) × (answer ≡ seasons.slot_refused k)) }
{
    if k <= u64::from(slot_count(league.n())) {
        return Ok(k as u16);
    }
    Err(NoValue::Refused(slot_refused(alloc, league, k)?))
}

/// How many slots of the season are played, where the season has as many and the resume rows are few enough. The
/// size of these rows depends on the league and on `k`, and not on the games that were played.
fn slots_in(alloc: Global, league: &League, k: u64) -> Result<u16, NoValue>
    ensures { MatchStage result
        (λ slots. (slots ≡ k) × (k ≤ counts.slot_count league.now.n)
        × (kept.resume_size league.now k ≤ most_terms))
        (has_slots league.now k (λ slots. has_size league.now k (λ size answer. ⊥))) }
{
    let slots = slots_of(alloc, league, k)?;
    let terms = resume_size(league, slots);
    if terms > MOST_TERMS {
        return Err(NoValue::Refused(rows_refused(alloc, terms)?));
    }
    Ok(slots)
}

/// What an instance file and a solution file say of a season of which k slots are played, or why they don't.
pub(crate) fn season_in<S: Shelf>(
    alloc: Global,
    shelf: &mut S,
    instance: &str,
    solution: &str,
    k: u64,
) -> Result<Season, NoValue>
    ensures season { MatchStage result
        (IsSaid (S.contents shelf.old) instance.now solution.now k)
        (plays (store_between S.Shelf shelf.old shelf.new)
        instance.now solution.now k (λ season answer. ⊥)) }
    ensures few { IfOk result (λ season. length season.played ≤ 10000) }
    ensures fit { IfOk result (λ season. All (IsGame season.league.n) season.played) }
    ensures count { IfOk result (λ season. S.taken shelf.new ≡ raised (S.taken shelf.old) season.bytes) }
    ensures taken { S.taken shelf.new ≤ S.taken shelf.old + (INSTANCE_LIMIT + 1 + (SOLUTION_LIMIT + 1)) }
    ensures contents { (n : List ℕ) → S.contents shelf.new n ≡ S.contents shelf.old n }
    ensures later { (n : List ℕ) → S.faults shelf.old n ≤ S.faults shelf.new n }
{
    let first = file(alloc, shelf, "instance", instance, INSTANCE_LIMIT)?;
    let league = league_in(alloc, instance, &first)?;
    let slots = slots_in(alloc, &league, k)?;
    let second = file(alloc, shelf, "solution", solution, SOLUTION_LIMIT)?;
    let played = schedule_in(alloc, solution, &second, &league)?;
    let bytes = first.len() + second.len();
    Ok(Season {
        league,
        played,
        slots,
        bytes,
    })
}
