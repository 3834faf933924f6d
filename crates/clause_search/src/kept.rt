//! Which learnt clauses a trail keeps. From time to time the less useful half of those that no conflict needed lately
//! is forgotten: those whose literals come from the most levels go first, as in Glucose (Audemard and Simon 2009), and
//! of these the ones that were needed longest ago.
ghost use Rattle.std.specs.Prelude.{◌≡◌, ◌⊎◌, ◌<◌, ◌≤◌, ◌++◌, [], ◌∷◌, length, true, OnOk};
ghost use Rattle.clause_search.specs.Kept.{IsPart, few_variables, least_room};

use propagate::Trail;
use std::alloc::{AllocError, Global};

/// A search over so many variables, or fewer, forgets nothing.
const FEW_VARIABLES: u32 = 40;

/// So many clauses are kept before any is forgotten.
const LEAST_ROOM: usize = 2000;

/// So many more are kept each time that some are forgotten.
const MORE_ROOM: usize = 500;

/// A clause whose literals come from so few levels isn't forgotten.
const FEW_LEVELS: u32 = 2;

/// How useful a kept clause is. It only guides which clauses are forgotten: no clause says what it holds.
#[derive(Clone, Copy)]
struct Worth {
    /// From how many levels its literals came when it was learnt.
    levels: u32,
    /// How many steps the log had when a conflict needed it last.
    needed: u64,
}

/// The learnt clauses that stand behind the rows of a trail.
#[derive(Drop)]
pub(crate) struct Kept {
    /// The place of each clause's step in the log, from 0.
    pub(crate) places: Vec<usize>,
    worths: Vec<Worth>,
    /// How many clauses may be kept before some are forgotten.
    pub(crate) room: usize,
    /// How many steps the log had when clauses were forgotten last.
    since: u64,
    ghost roomy: { least_room ≤ room },
}

impl Kept {
    /// No clause. It takes no memory.
    pub(crate) fn new(alloc: Global) -> Kept
        ensures { result.places.items ≡ [] }
    {
        Kept {
            places: Vec::new(alloc),
            worths: Vec::new(alloc),
            room: LEAST_ROOM,
            since: 0,
        }
    }

    /// Adds the clause of the step at a place of the log, whose literals come from so many levels.
    ///
    /// # Errors
    /// Only where memory runs out.
    pub(crate) fn push(&mut self, place: usize, levels: u32) -> Result<(), AllocError>
        ensures places { OnOk result (self.new.places.items ≡ self.old.places.items ++ place ∷ []) }
        ensures room { OnOk result (self.new.room ≡ self.old.room) }
    {
        self.places.push(place)?;
        self.worths.push(Worth {
            levels,
            needed: place as u64,
        })?;
        Ok(())
    }

    /// Whether some clauses are to be forgotten by a search over so many variables.
    pub(crate) fn is_full(&self, vars: u32) -> bool
        ensures many { result ≡ true → few_variables < vars }
        ensures long { result ≡ true → least_room < length self.now.places.items }
        ensures full { result ≡ true → self.now.room < length self.now.places.items }
    {
        FEW_VARIABLES < vars && self.room < self.places.len()
    }

    /// A conflict needed the clauses among these rows, at so many steps: `given` rows stand before the clauses.
    pub(crate) fn need(&mut self, numbers: &[u64], given: u64, steps: u64)
        ensures places { self.new.places.items ≡ self.old.places.items }
        ensures room { self.new.room ≡ self.old.room }
    {
        for number in numbers {
            self.need_row(*number, given, steps);
        }
    }

    /// A conflict needed the row with this number.
    fn need_row(&mut self, number: u64, given: u64, steps: u64)
        ensures places { self.new.places.items ≡ self.old.places.items }
        ensures room { self.new.room ≡ self.old.room }
    {
        if number <= given {
            return;
        }
        let index = (number - given - 1) as usize;
        if index < self.worths.len() {
            self.worths[index].needed = steps;
        }
    }

    /// Forgets the less useful half of the clauses that no conflict needed since the last time, but none that forces a
    /// literal of the trail's level 0. There is more room from then on.
    ///
    /// # Errors
    /// Only where memory runs out.
    pub(crate) fn forget(
        &mut self,
        alloc: Global,
        trail: &Trail,
        given: u64,
        steps: u64,
    ) -> Result<(), AllocError>
        requires { self.old.room < length self.old.places.items }
        ensures part { OnOk result (IsPart self.new.places.items self.old.places.items) }
        ensures room { OnOk result (self.old.room < self.new.room) }
    {
        let _len = self.places.len();
        self.need_reasons(trail, given, steps);
        let bar = self.bar(alloc)?;
        self.leave_out(alloc, bar)?;
        self.room = self.room.saturating_add(MORE_ROOM);
        self.since = steps;
        Ok(())
    }

    /// Needs the clauses that force literals of level 0.
    fn need_reasons(&mut self, trail: &Trail, given: u64, steps: u64)
        ensures places { self.new.places.items ≡ self.old.places.items }
        ensures room { self.new.room ≡ self.old.room }
    {
        for k in 0..trail.len() {
            let entry = trail.entry(k);
            if entry.level > 0 {
                return;
            }
            if let Some(reason) = entry.reason {
                self.need_row(reason, given, steps);
            }
        }
    }

    /// The median of the ranks of those that may be forgotten.
    ///
    /// # Errors
    /// Only where memory runs out.
    fn bar(&self, alloc: Global) -> Result<u64, AllocError> {
        let mut ranks = Vec::with_capacity(alloc, self.worths.len())?;
        for worth in &self.worths {
            if !self.is_safe(*worth) {
                ranks.push(rank(*worth))?;
            }
        }
        ranks.sort()?;
        let middle = ranks.len() / 2;
        if middle < ranks.len() {
            Ok(ranks[middle])
        } else {
            Ok(0)
        }
    }

    /// Whether a clause isn't forgotten whatever its rank is.
    fn is_safe(&self, worth: Worth) -> bool {
        worth.levels <= FEW_LEVELS || worth.needed > self.since
    }

    /// Leaves out the clauses of higher rank than the bar.
    ///
    /// # Errors
    /// Only where memory runs out.
    fn leave_out(&mut self, alloc: Global, bar: u64) -> Result<(), AllocError>
        ensures part { OnOk result (IsPart self.new.places.items self.old.places.items) }
        ensures room { OnOk result (self.new.room ≡ self.old.room) }
    {
        let mut places = Vec::with_capacity(alloc, self.places.len())?;
        let mut worths = Vec::with_capacity(alloc, self.places.len())?;
        for index in 0..self.places.len() {
            let worth = self.worth(index);
            let stays = self.is_safe(worth) || rank(worth) < bar;
            push_if(stays, self.places[index], worth, &mut places, &mut worths)?;
        }
        self.places = places;
        self.worths = worths;
        Ok(())
    }

    /// How useful the clause at an index is.
    fn worth(&self, index: usize) -> Worth {
        if index < self.worths.len() {
            self.worths[index]
        } else {
            Worth {
                levels: 0,
                needed: 0,
            }
        }
    }
}

/// Adds a clause, if it stays.
///
/// # Errors
/// Only where memory runs out.
fn push_if(
    stays: bool,
    place: usize,
    worth: Worth,
    places: &mut Vec<usize>,
    worths: &mut Vec<Worth>,
) -> Result<(), AllocError>
    ensures { OnOk result ((places.new.items ≡ places.old.items)
        ⊎ (places.new.items ≡ places.old.items ++ place ∷ [])) }
{
    if stays {
        places.push(place)?;
        worths.push(worth)?;
    }
    Ok(())
}

/// The rank of a clause: the lower it is the more useful is the clause.
fn rank(worth: Worth) -> u64 {
    let levels = u64::from(worth.levels.min(0xFFFF));
    let needed = worth.needed.min(0xFFFF_FFFF_FFFF);
    (levels << 48) + (0xFFFF_FFFF_FFFF - needed)
}
