//! The rows of a class of constraints, key by key, without those that demand nothing.
ghost use Rattle.std.specs.Prelude.{◌≡◌, ◌≢◌, ◌+◌, ◌*◌, ◌^◌, ◌<◌, ◌≤◌, [], ◌∷◌, ◌++◌, length, IsTrue, OnOk};
ghost use Rattle.std.specs.List.{AllPairs, filter};
ghost use Rattle.league.specs.Instance.{IsTeamCount, class_fits};
ghost use Rattle.league.specs.Meetings.{meetings_of};
ghost use Rattle.rows.specs.Cardinality.{at_least, at_most, between};
ghost use Rattle.encoding.specs.Encoding.{class_rows, demands};
ghost use Rattle.encoding.specs.Keys.{IsListable, IsWithin, held, rows_of_key, rows_of_subject, suits};

use crate::counted::add_counted;
use crate::draft::Draft;
use crate::keys::{Key, key_at};
use crate::season::Season;
use crate::subjects::{Subject, places_of, subject_at, subject_count};
use league::Class;
use std::alloc::{AllocError, Global};

impl Draft {
    /// Adds "at least `degree` of the literals", where that demands anything.
    fn demand_at_least(&mut self, degree: u64) -> Result<(), AllocError>
        requires variables { AllPairs (λ l m. l.var ≢ m.var) self.old.literals.items }
        requires room { length self.old.rows + 1 < 2 ^ 32 }
        ensures rows { OnOk result (self.new.rows
            ≡ self.old.rows ++ filter demands (at_least degree self.old.literals.items ∷ [])) }
        ensures few { OnOk result (length self.new.rows ≤ length self.old.rows + 1) }
        ensures literals { self.new.literals.items ≡ self.old.literals.items }
    {
        if degree > 0 {
            self.rows.push_at_least(&self.literals, degree)?;
        }
        Ok(())
    }

    /// Adds "at most `bound` of the literals", where that demands anything.
    fn demand_at_most(&mut self, bound: u64) -> Result<(), AllocError>
        requires variables { AllPairs (λ l m. l.var ≢ m.var) self.old.literals.items }
        requires room { length self.old.rows + 1 < 2 ^ 32 }
        ensures rows { OnOk result (self.new.rows
            ≡ self.old.rows ++ filter demands (at_most bound self.old.literals.items ∷ [])) }
        ensures few { OnOk result (length self.new.rows ≤ length self.old.rows + 1) }
    {
        if bound < self.literals.len() as u64 {
            self.rows.push_at_most(&self.literals, bound)?;
        }
        Ok(())
    }

    /// Adds both of these, where they demand anything.
    fn demand_between(&mut self, low: u64, high: u64) -> Result<(), AllocError>
        requires variables { AllPairs (λ l m. l.var ≢ m.var) self.old.literals.items }
        requires room { length self.old.rows + 2 < 2 ^ 32 }
        ensures rows { OnOk result (self.new.rows
            ≡ self.old.rows ++ filter demands (between low high self.old.literals.items)) }
        ensures few { OnOk result (length self.new.rows ≤ length self.old.rows + 2) }
    {
        self.demand_at_least(low)?;
        self.demand_at_most(high)?;
        Ok(())
    }

    /// Adds the rows of a key. `all` are all meetings of n teams.
    fn add_key(
        &mut self,
        alloc: Global,
        n: u16,
        all: &[(u16, u16)],
        key: Key<'_>,
    ) -> Result<(), AllocError>
        requires n { n ≤ 40 }
        requires all { all.now ≡ meetings_of n }
        requires listable { IsListable n key.counted }
        requires room { length self.old.rows + 2 < 2 ^ 32 }
        ensures rows { OnOk result (self.new.rows ≡ self.old.rows ++ rows_of_key (held n key.entry)) }
        ensures few { OnOk result (length self.new.rows ≤ length self.old.rows + 2) }
    {
        self.literals.clear();
        add_counted(&mut self.literals, alloc, n, all, key.counted)?;
        self.demand_between(key.low, key.high)?;
        Ok(())
    }

    /// Adds the rows of a class for one of its subjects, place by place.
    fn add_subject(
        &mut self,
        alloc: Global,
        n: u16,
        all: &[(u16, u16)],
        class: &Class,
        subject: Subject,
    ) -> Result<(), AllocError>
        requires n { IsTeamCount n }
        requires all { all.now ≡ meetings_of n }
        requires fits { IsTrue (class_fits n class.now) }
        requires suits { IsTrue (suits class.now subject) }
        requires within { IsWithin n subject }
        requires room { length self.old.rows + 156 < 2 ^ 32 }
        ensures rows { OnOk result (self.new.rows ≡ self.old.rows ++ rows_of_subject n class.now subject) }
        ensures few { OnOk result (length self.new.rows ≤ length self.old.rows + 156) }
    {
        let places = places_of(n, class);
        for place in places {
            let key = key_at(n, class, subject, *place);
            self.add_key(alloc, n, all, key)?;
        }
        Ok(())
    }

    /// Adds the rows of a class, subject by subject.
    fn add_subjects(
        &mut self,
        alloc: Global,
        n: u16,
        all: &[(u16, u16)],
        class: &Class,
    ) -> Result<(), AllocError>
        requires n { IsTeamCount n }
        requires all { all.now ≡ meetings_of n }
        requires fits { IsTrue (class_fits n class.now) }
        requires room { length self.old.rows + 121680 < 2 ^ 32 }
        ensures rows { OnOk result (self.new.rows ≡ self.old.rows ++ class_rows n class.now) }
        ensures few { OnOk result (length self.new.rows ≤ length self.old.rows + 121680) }
    {
        for place in 0..subject_count(n, class) {
            let subject = subject_at(n, class, place);
            self.add_subject(alloc, n, all, class, subject)?;
        }
        Ok(())
    }
}

/// Adds the rows of a class that fits a league of n teams.
///
/// # Errors
/// Only where memory runs out.
pub(crate) fn add_class_rows(
    draft: &mut Draft,
    alloc: Global,
    season: &Season,
    class: &Class,
) -> Result<(), AllocError>
    requires n { IsTeamCount season.now }
    requires fits { IsTrue (class_fits season.now class.now) }
    requires room { length draft.old.rows + 121680 < 2 ^ 32 }
    ensures rows { OnOk result (draft.new.rows ≡ draft.old.rows ++ class_rows season.now class.now) }
    ensures few { OnOk result (length draft.new.rows ≤ length draft.old.rows + 121680) }
{
    draft.add_subjects(alloc, season.n(), season.meetings(), class)
}
