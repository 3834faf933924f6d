//! A line that says how a run goes.

use crate::bar::Bar;
use crate::heard::Heard;
use crate::stage::Stage;
use std::fmt;

/// A line that says how a run goes.
#[derive(Clone, Copy)]
pub(crate) struct Line {
    pub(crate) heard: Heard,
    /// How many milliseconds have passed since the run began.
    pub(crate) passed: u128,
    /// After how many seconds the run ends, if seconds were asked for.
    pub(crate) seconds: Option<u64>,
    /// Whether a bar stands behind a budget.
    pub(crate) bars: bool,
}

/// `robin: 12 of 60 s [##        ]: try 3, walk on the objective, best 2211 after 6 s, 344848 of 1000000 moves, 28737/s`
impl fmt::Display for Line {
    fn fmt<W: fmt::Write>(&self, f: &mut fmt::Formatter<W>) -> fmt::Result {
        write!(f, "robin: ")?;
        self.write_time(f)?;
        let aim = self.heard.aim;
        let stage = self.heard.stage;
        write!(f, ": {aim}{stage}")?;
        self.write_found(f)?;
        self.write_turns(f)
    }
}

impl Line {
    /// Writes how many seconds have passed, and how many there are.
    fn write_time<W: fmt::Write>(&self, f: &mut fmt::Formatter<W>) -> fmt::Result {
        let passed = self.passed / 1000;
        let Some(seconds) = self.seconds else {
            return write!(f, "{passed} s");
        };
        write!(f, "{passed} of {seconds} s")?;
        let limit = u128::from(seconds).saturating_mul(1000);
        self.write_bar(Bar::of(self.passed, limit), f)
    }

    /// Writes what the best season costs, and when it came: while a descent goes on, the best one before it. Where none
    /// was heard of, writes what the hard constraints cost in a walk that is to meet them.
    fn write_found<W: fmt::Write>(&self, f: &mut fmt::Formatter<W>) -> fmt::Result {
        let Heard { stage, best, .. } = self.heard;
        let Some(best) = best else {
            return match stage {
                Stage::HardWalk { cost } => write!(f, ", infeasibility {cost}"),
                _ => Ok(()),
            };
        };
        let before = match stage {
            Stage::Descent => "before it ",
            _ => "",
        };
        let objective = best.objective;
        let at = best.at / 1000;
        write!(f, ", {before}best {objective} after {at} s")
    }

    /// Writes how many turns the stage has made and may make, and how many a second. A bar stands there only where no
    /// seconds were asked for: a line has one bar.
    fn write_turns<W: fmt::Write>(&self, f: &mut fmt::Formatter<W>) -> fmt::Result {
        let Some(turns) = self.heard.turns else {
            return Ok(());
        };
        let name = self.heard.stage.turns();
        write!(f, ", {turns} {name}")?;
        if self.seconds.is_none() {
            self.write_bar(turns.bar(), f)?;
        }
        match turns.rate(self.passed) {
            Some(rate) => write!(f, ", {rate}"),
            None => Ok(()),
        }
    }

    /// Writes a bar, where bars are wanted and there is one.
    fn write_bar<W: fmt::Write>(&self, bar: Option<Bar>, f: &mut fmt::Formatter<W>) -> fmt::Result {
        match bar {
            Some(bar) if self.bars => write!(f, " {bar}"),
            _ => Ok(()),
        }
    }
}
