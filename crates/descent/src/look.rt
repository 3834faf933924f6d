//! A look at moves that the watch may end.
ghost use Rattle.std.specs.Prelude.{◌≡◌, ◌%◌, ◌==◌};

/// The watch ended a look at moves before one was found.
#[derive(Clone, Copy)]
pub struct Ended;

/// How many moves are tried between two questions to the watch (own choice).
const TRIES: usize = 16;

/// Whether the watch is asked before the move at this place is tried: before every 16th of all moves.
pub fn is_asked_at(place: usize) -> bool
    ensures { result ≡ (place % 16 == 0) }
{
    place % TRIES == 0
}
