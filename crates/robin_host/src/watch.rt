//! A watch by the machine's clock and by the signals that wait, which tells a person how the run goes.
ghost use Rattle.std.specs.Prelude.{◌≡◌, ◌⊎◌, IsSome, true};
ghost use Rattle.robin_host.specs.Fields.{limit_of, listens};

use crate::clock::passed_since;
use crate::heard::Heard;
use crate::line::Line;
use crate::signals::{is_blocked, is_waiting};
use crate::telling::Telling;
use league::{Game, League};
use robin_watch::{Listener, News, Watch};
use std::cell::Cell;
use std::rt::Files;
use std::time::{Clock, Instant};

/// The clock is looked at once in so many questions whether the run is to end.
const EACH: u64 = 16;

/// At least so many milliseconds lie between two looks at the signals.
const PAUSE: u128 = 100;

/// Ends a run after so many seconds, if seconds were asked for. Ends it too when SIGHUP, SIGINT or SIGTERM waits, if
/// one of them was blocked when the watch began. From then on each answer is that the run is to end. Writes lines of how
/// the run goes to standard error. The seasons that come while members of a conflict are tried are those of a part of
/// the league, and no line speaks of them.
#[derive(Drop)]
pub struct HostWatch<R> {
    rt: R,
    start: Option<Instant>,
    seconds: Option<u64>,
    listens: bool,
    telling: Telling,
    questions: Cell<u64>,
    looked: Cell<u128>,
    over: Cell<bool>,
    told: Cell<u128>,
    heard: Cell<Heard>,
}

impl<R: Clock + Files + Eprint> HostWatch<R> {
    /// A watch whose time begins now.
    pub fn new(rt: R, seconds: Option<u64>, telling: Telling) -> HostWatch<R>
        ensures { limit_of result ≡ seconds }
    {
        let start = Instant::now(&rt).ok();
        let listens = is_blocked(&rt);
        HostWatch {
            rt,
            start,
            seconds,
            listens,
            telling,
            questions: Cell::new(0),
            looked: Cell::new(0),
            over: Cell::new(false),
            told: Cell::new(0),
            heard: Cell::new(Heard::nothing()),
        }
    }

    /// Whether the time is over, or a signal waits.
    fn is_time(&self) -> bool {
        let passed = passed_since(&self.rt, self.start);
        if let Some(seconds) = self.seconds
            && passed >= u128::from(seconds).saturating_mul(1000)
        {
            return true;
        }
        if !self.listens || passed < self.looked.get().saturating_add(PAUSE) {
            return false;
        }
        self.looked.set(passed);
        is_waiting(&self.rt)
    }

    /// Whether anything may end a run.
    fn can_end(&self) -> bool
        ensures { result ≡ true → IsSome (limit_of self.now) ⊎ (listens self.now ≡ true) }
    {
        self.seconds.is_some() || self.listens
    }

    /// Whether a line is due where so many milliseconds have passed. Where the clock can't be read there is none.
    fn is_due(&self, passed: u128) -> bool {
        let Some(pause) = self.telling.pause() else {
            return false;
        };
        if passed == u128::MAX || passed < self.told.get().saturating_add(pause) {
            return false;
        }
        self.told.set(passed);
        true
    }

    /// Keeps what is known of the run where so many milliseconds have passed, and says it where a line is due. A line
    /// that can't be written changes nothing.
    fn say(&self, heard: Heard, passed: u128) {
        self.heard.set(heard);
        if !self.is_due(passed) {
            return;
        }
        let (front, end) = self.telling.frame();
        let line = Line {
            heard,
            passed,
            seconds: self.seconds,
            bars: matches!(self.telling, Telling::Terminal),
        };
        let _ = eprint!(self.rt; "{front}{line}{end}");
    }

    /// Wipes the line of a terminal, before the answer may come there.
    fn wipe(&self) {
        if matches!(self.telling, Telling::Terminal) && self.told.get() > 0 {
            let _ = eprint!(self.rt; "\r\x1b[K");
        }
    }
}

impl<R: Clock + Files + Eprint> Watch for HostWatch<R> {
    ghost may_stop = { λ s. IsSome (limit_of s) ⊎ (listens s ≡ true) };

    fn is_over(&self, turns: u64) -> bool {
        let questions = self.questions.get();
        self.questions.set(questions.wrapping_add(1));
        if questions % EACH == 0 {
            return self.is_over_now(turns);
        }
        self.can_end() && self.over.get()
    }

    fn is_over_now(&self, _turns: u64) -> bool {
        if !self.can_end() {
            return false;
        }
        if self.over.get() {
            return true;
        }
        let over = self.is_time();
        self.over.set(over);
        over
    }

    fn tell(&self, news: News) {
        if matches!(self.telling, Telling::Nobody) {
            return;
        }
        let passed = passed_since(&self.rt, self.start);
        let heard = self.heard.get().with_news(news, passed);
        match news {
            News::Ready => self.wipe(),
            // A phase of the try begins at once.
            News::Try { .. } => self.heard.set(heard),
            _ => self.say(heard, passed),
        }
    }
}

impl<R: Clock + Files + Eprint> Listener for HostWatch<R> {
    fn tell_season(&self, _league: &League, _games: &[Game], objective: u128, tried: u64) {
        if matches!(self.telling, Telling::Nobody) {
            return;
        }
        let passed = passed_since(&self.rt, self.start);
        let heard = self.heard.get().with_season(objective, tried, passed);
        self.say(heard, passed);
    }
}
