//! A watch that hears of no season.
use league::{Game, League};
use robin_watch::{Listener, News, Watch};

/// Asks and tells another watch, which hears of no season, but that no hard constraint is missed: the seasons of a league
/// with further constraints cost more than they do in the league itself.
#[derive(Drop)]
pub(crate) struct Unheard<'a, W> {
    pub(crate) watch: &'a W,
}

impl<W: Watch> Watch for Unheard<'_, W> {
    ghost may_stop = { λ s. W.may_stop s.watch.now };

    ghost stops_at = { λ s turns. W.stops_at s.watch.now turns };

    fn is_over(&self, turns: u64) -> bool {
        self.watch.is_over(turns)
    }

    fn is_over_now(&self, turns: u64) -> bool {
        self.watch.is_over_now(turns)
    }

    fn tell(&self, news: News) {
        self.watch.tell(news);
    }
}

impl<W: Watch> Listener for Unheard<'_, W> {
    fn tell_season(&self, _league: &League, _games: &[Game], _objective: u128, tried: u64) {
        self.watch.tell(News::Hard { tried, cost: 0 });
    }
}
