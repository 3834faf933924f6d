//! Where each number stands in a list: one look-up in place of a search.
ghost use Rattle.std.specs.Prelude.{◌≡◌, ◌<◌, length};
ghost use Rattle.std.specs.List.{All};
ghost use Rattle.std.specs.Ordering.{nat_cmp};
ghost use Rattle.league.specs.Sets.{IsAscending};
ghost use Rattle.rule_core.specs.KeyPlaces.{ArePlaces, place_of};

use std::marker::Model;

/// For each number below 78, which a team's and a slot's are, its place in a list, counted from 1, or 0 where it isn't
/// there. It takes no memory beside itself.
#[derive(Drop)]
pub(crate) struct Places {
    places: [u8; 78],
}

impl Model for Places {
    ghost use Rattle.std.specs.Prelude.{ℕ, List};

    ghost Value = { List ℕ };

    ghost view = { λ p. p.places };
}

impl Places {
    /// The places in an ascending list of numbers below 78.
    pub(crate) fn of(numbers: &[u16]) -> Places
        requires ascending { IsAscending nat_cmp numbers.now }
        requires below { All (λ x. x < 78) numbers.now }
        ensures { ArePlaces (length numbers.now) numbers.now result }
    {
        let mut places = [0; 78];
        let mut next = 0;
        for number in numbers {
            next += 1;
            places[*number as usize] = next;
        }
        Places { places }
    }

    /// The place of a number, counted from 0, if it stands in the list.
    pub(crate) fn place(&self, number: u16) -> Option<usize>
        ensures { result ≡ place_of self.now number }
    {
        match self.places.get(number as usize) {
            Some(place) if *place > 0 => Some(*place as usize - 1),
            _ => None,
        }
    }
}
