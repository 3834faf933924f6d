//! Weights of constraints' parts. Those of hard constraints grow while a part isn't met. Such weights are those of the
//! breakout method (Morris 1993); here most of them also fall.

use league::{ClassName, Constraint};

/// How constraints are weighed.
#[derive(Clone, Copy)]
pub(crate) enum Weighing {
    /// The hard constraints alone.
    Hard,
    /// The hard constraints alone, each with a weight that grows by this part of it while it isn't met, and falls far
    /// more slowly while it is.
    Slow(u32),
    /// All constraints together: a soft one by its penalty, and each unit of a hard one's penalty by at least so much.
    Together(u32),
}

impl Weighing {
    /// The soft constraints alone: hard ones weigh nothing.
    pub(crate) const SOFT: Weighing = Weighing::Together(0);

    /// All constraints together, where no soft one makes up for a hard one.
    pub(crate) const STRICT: Weighing = Weighing::Together(u32::MAX);

    /// More unmet parts than there are, where the goal of a walk is fewer than before: in one that cools slowly.
    pub(crate) fn fewest(self) -> Option<usize> {
        match self {
            Weighing::Slow(_) => Some(usize::MAX),
            Weighing::Hard | Weighing::Together(_) => None,
        }
    }

    /// Whether soft constraints are weighed, too.
    pub(crate) fn is_of_soft(self) -> bool {
        matches!(self, Weighing::Together(_))
    }

    /// The weight at the start of a constraint's parts, if they are weighed.
    pub(crate) fn weight(self, constraint: &Constraint) -> Option<Weight> {
        if let Weighing::Together(unit) = self {
            return Some(Weight::together(constraint, unit));
        }
        if !constraint.hard {
            return None;
        }
        let weight = Weight::alone(constraint);
        Some(match self {
            Weighing::Slow(growth) => weight.slow(growth),
            Weighing::Hard | Weighing::Together(_) => weight,
        })
    }
}

/// What a unit of the deviation of a constraint's part weighs now, at least and at most, by which part of it the weight
/// grows and by which it falls, and the penalty, which is 0 of a soft constraint.
#[derive(Clone, Copy)]
pub(crate) struct Weight {
    penalty: u32,
    least: u32,
    now: u32,
    most: u32,
    growth: u32,
    fall: u32,
}

/// A weight that grows slowly falls so many times more slowly.
const SLOWER: u32 = 43;

/// How many times its penalty the unit of a weight is, by the class of the constraint: more where few games are left to
/// choose from once it is met.
fn strength(class: ClassName) -> u32 {
    match class {
        ClassName::Ga1 => 3,
        ClassName::Ca1 | ClassName::Ca2 | ClassName::Ca4 | ClassName::Br1 => 2,
        ClassName::Ca3 | ClassName::Br2 | ClassName::Fa2 | ClassName::Se1 => 1,
    }
}

impl Weight {
    /// Ten units, at least 5 and at most 80, where a penalty of 0 counts as 1.
    fn alone(constraint: &Constraint) -> Weight {
        let penalty = constraint.penalty.max(1);
        let unit = penalty.saturating_mul(strength(constraint.class.name()));
        Weight {
            penalty,
            least: unit.saturating_mul(5),
            now: unit.saturating_mul(10),
            most: unit.saturating_mul(80),
            growth: 8,
            fall: 16,
        }
    }

    /// In 256ths, a weight that grows by this part of it, to at most five times as much, and falls by a small part of
    /// that part.
    fn slow(self, growth: u32) -> Weight {
        let now = self.now.saturating_mul(256);
        Weight {
            least: now,
            now,
            most: now.saturating_mul(5),
            growth,
            fall: growth.saturating_mul(SLOWER),
            ..self
        }
    }

    /// The weight of a soft constraint is its penalty. The weight of a hard one is so much for each unit of its
    /// penalty, where a penalty of 0 counts as 1, and more while it isn't met.
    fn together(constraint: &Constraint, unit: u32) -> Weight {
        if !constraint.hard {
            return Weight {
                penalty: 0,
                least: constraint.penalty,
                now: constraint.penalty,
                most: constraint.penalty,
                growth: 1,
                fall: 2,
            };
        }
        let penalty = constraint.penalty.max(1);
        let least = penalty.saturating_mul(unit);
        Weight {
            penalty,
            least,
            now: least,
            most: u32::MAX,
            growth: 3,
            fall: 6,
        }
    }

    /// More where the part isn't met, else less.
    pub(crate) fn adapted(self, met: bool) -> Weight {
        let now = if met {
            let less = self.now / self.fall.max(1);
            self.now.saturating_sub(less).max(self.least)
        } else {
            let more = self.now / self.growth.max(1);
            self.now
                .saturating_add(more)
                .saturating_add(1)
                .min(self.most)
        };
        Weight { now, ..self }
    }

    /// Whether it is a hard constraint's.
    pub(crate) fn is_hard(self) -> bool {
        self.penalty > 0
    }

    /// What a deviation weighs.
    pub(crate) fn weigh(self, deviation: u64) -> u64 {
        deviation.saturating_mul(u64::from(self.now))
    }

    /// What a deviation of a hard constraint costs.
    pub(crate) fn price(self, deviation: u64) -> u128 {
        u128::from(deviation).saturating_mul(u128::from(self.penalty))
    }
}
