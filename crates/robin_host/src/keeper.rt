//! A watch that keeps the best season so far in a file.
ghost use Rattle.std.specs.Prelude.{◌≡◌, true, nat_lt, MatchOption};
ghost use Rattle.robin_host.specs.KeeperFields.{watch_of};

use crate::clock::passed_since;
use crate::draft::Draft;
use crate::season::Season;
use league::{Game, League};
use robin_io::put_all;
use robin_watch::{Listener, News, Watch};
use std::alloc::Global;
use std::cell::Cell;
use std::rt::Files;
use std::time::{Clock, Instant};

/// The keeper looks once in so many questions whether a season waits.
const EACH: u64 = 64;

/// At least so many milliseconds lie between two seasons that are put into the file.
const PAUSE: u128 = 1000;

/// Asks and tells another watch. Beside it puts the best season of which it hears into a file, at most once a second,
/// where a file is given. A season that can't be put there changes nothing: the file is as it was.
#[derive(Drop)]
pub struct SeasonKeeper<'a, W, R> {
    watch: W,
    rt: R,
    alloc: Global,
    file: Option<&'a str>,
    start: Option<Instant>,
    questions: Cell<u64>,
    best: Cell<Option<u128>>,
    last: Cell<Option<u128>>,
    waiting: Cell<Option<Season>>,
}

impl<'a, W, R: Clock + Files> SeasonKeeper<'a, W, R> {
    /// No season is heard of yet.
    pub fn new(watch: W, rt: R, alloc: Global, file: Option<&'a str>) -> SeasonKeeper<'a, W, R>
        ensures { watch_of result ≡ watch }
    {
        let start = Instant::now(&rt).ok();
        SeasonKeeper {
            watch,
            rt,
            alloc,
            file,
            start,
            questions: Cell::new(0),
            best: Cell::new(None),
            last: Cell::new(None),
            waiting: Cell::new(None),
        }
    }

    /// Whether a season may be put into the file again.
    fn is_due(&self) -> bool {
        let passed = passed_since(&self.rt, self.start);
        let due = match self.last.get() {
            Some(last) => passed >= last.saturating_add(PAUSE),
            None => true,
        };
        if due {
            self.last.set(Some(passed));
        }
        due
    }

    /// Puts the season that waits, if any, into the file, once that is due.
    fn put_waiting(&self) {
        let Some(file) = self.file else {
            return;
        };
        let Some(season) = self.waiting.take() else {
            return;
        };
        if self.is_due() {
            self.put(file, &season);
        } else {
            self.waiting.set(Some(season));
        }
    }

    /// Puts a season into a file. Where that can't be done the file is as it was.
    fn put(&self, file: &str, season: &Season) {
        let mut draft = Draft::new(&self.rt, self.alloc, file);
        if put_all(&mut draft, season.text()).is_ok() {
            let _kept = draft.keep();
        } else {
            draft.leave();
        }
    }
}

/// Whether a season that costs so much is better than the best so far, if there is one.
fn is_better(best: Option<u128>, objective: u128) -> bool
    ensures { MatchOption best (result ≡ true) (λ least. result ≡ nat_lt objective least) }
{
    match best {
        Some(best) => objective < best,
        None => true,
    }
}

impl<W: Watch, R: Clock + Files> Watch for SeasonKeeper<'_, W, R> {
    ghost may_stop = { λ s. W.may_stop (watch_of s) };

    ghost stops_at = { λ s turns. W.stops_at (watch_of s) turns };

    fn is_over(&self, turns: u64) -> bool {
        let questions = self.questions.get();
        self.questions.set(questions.wrapping_add(1));
        if questions % EACH == 0 {
            self.put_waiting();
        }
        self.watch.is_over(turns)
    }

    fn is_over_now(&self, turns: u64) -> bool {
        self.put_waiting();
        self.watch.is_over_now(turns)
    }

    fn tell(&self, news: News) {
        self.watch.tell(news);
    }
}

impl<W: Listener, R: Clock + Files> Listener for SeasonKeeper<'_, W, R> {
    fn tell_season(&self, league: &League, games: &[Game], objective: u128, tried: u64) {
        self.watch.tell_season(league, games, objective, tried);
        if self.file.is_some()
            && is_better(self.best.get(), objective)
            && let Ok(season) = Season::new(self.alloc, league, games, objective)
        {
            self.best.set(Some(objective));
            self.waiting.set(Some(season));
        }
        self.put_waiting();
    }
}
