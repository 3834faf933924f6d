//! The hard CA1 of one side and one set of slots, team by team.
ghost use Rattle.std.specs.Prelude.{◌≡◌, ℕ, ◌*◌, ◌/◌, ◌^◌, ◌<◌, ◌≤◌, length, nat_lt, sum, IfOk, if◌then◌else◌};
ghost use Rattle.std.specs.List.{All};
ghost use Rattle.venue_counts.specs.Groups.{AreNoted, AreRaised, IsFresh, IsRaised};

use league::Side;
use std::alloc::{AllocError, Global};

/// What each team needs in some slots, of games at home or away.
#[derive(Drop)]
pub(crate) struct Group<'a> {
    pub(crate) side: Side,
    pub(crate) slots: &'a [u16],
    pub(crate) needs: Vec<u32>,
    /// The place in the league of the constraint by which each team needs that: any place where it needs nothing.
    pub(crate) causes: Vec<usize>,
}

impl<'a> Group<'a> {
    /// A group in which none of n teams needs anything.
    ///
    /// # Errors
    /// Only where memory runs out.
    pub(crate) fn new(
        alloc: Global,
        n: u16,
        side: Side,
        slots: &'a [u16],
    ) -> Result<Group<'a>, AllocError>
        ensures { IfOk result (IsFresh n side slots.now) }
    {
        let needs = vec![in alloc; 0u32; usize::from(n)]?;
        let causes = vec![in alloc; 0usize; usize::from(n)]?;
        Ok(Group {
            side,
            slots,
            needs,
            causes,
        })
    }

    /// Makes each of these teams need at least so much, by the constraint at a place in the league.
    pub(crate) fn raise(&mut self, teams: &[u16], need: u32, cause: usize)
        requires needs { All (λ i. i < length self.old.needs.items) teams.now }
        requires causes { All (λ i. i < length self.old.causes.items) teams.now }
        ensures { IsRaised teams.now need cause self.old self.new }
    {
        note_all(&mut self.causes, &self.needs, teams, need, cause);
        raise_all(&mut self.needs, teams, need);
    }

    /// Whether all n teams together need more than half of the games of the slots.
    pub(crate) fn exceeds(&self, n: u16) -> bool
        requires teams { length self.now.needs.items ≤ 40 }
        requires slots { length self.now.slots.now ≤ 78 }
        ensures value { result ≡ nat_lt (length self.now.slots.now * (n / 2)) (sum self.now.needs.items) }
        ensures fits { sum self.now.needs.items < 2 ^ 64 }
    {
        let games = self.slots.len() as u64 * u64::from(n / 2);
        total(&self.needs) > games
    }
}

/// Notes a cause for those of these teams that need less than so much.
fn note_all(causes: &mut [usize], needs: &[u32], teams: &[u16], need: u32, cause: usize)
    requires causes { All (λ i. i < length causes.old) teams.now }
    requires needs { All (λ i. i < length needs.now) teams.now }
    ensures { AreNoted teams.now needs.now need cause causes.old causes.new }
{
    for team in teams {
        let place = usize::from(*team);
        causes[place] = later_cause(causes[place], needs[place], cause, need);
    }
}

/// The cause of the larger need: of the known one, where they are equal.
fn later_cause(known: usize, known_need: u32, cause: usize, need: u32) -> usize
    ensures { result ≡ (if nat_lt known_need need then cause else known) }
{
    if known_need < need { cause } else { known }
}

/// Raises these numbers to at least so much.
fn raise_all(needs: &mut [u32], teams: &[u16], need: u32)
    requires { All (λ i. i < length needs.old) teams.now }
    ensures { AreRaised teams.now needs.old need needs.new }
{
    for team in teams {
        let place = usize::from(*team);
        let known = needs[place];
        needs[place] = known.max(need);
    }
}

/// The sum of some numbers.
fn total(numbers: &[u32]) -> u64
    requires { length numbers.now ≤ 40 }
    ensures { result ≡ sum numbers.now }
{
    numbers.iter().map(|number| u64::from(*number)).sum()
}
