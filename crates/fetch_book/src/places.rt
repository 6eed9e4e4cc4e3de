// Lists of places.
ghost use Rattle.std.specs.Prelude.{◌≡◌, ◌<◌, length};
ghost use Rattle.std.specs.Option.{option_copied, ForSome};
ghost use Rattle.std.specs.List.{position_from};
ghost use Rattle.fetch_book.specs.declared.place.Place.{Place};
ghost use Rattle.fetch_book.specs.Places.{is_place_of, place_at, first_waiting};

use crate::place::Place;
use ep_model::Ticket;

/// The place of a ticket.
pub(crate) fn place_of(places: &[Place], ticket: Ticket) -> Option<&Place>
    ensures { option_copied result ≡ place_at places.now ticket }
{
    places.iter().find(|place| place.is_of(ticket))
}

/// Where the place of a ticket stands.
pub(crate) fn position_of(places: &[Place], ticket: Ticket) -> Option<usize>
    ensures place { result ≡ position_from (is_place_of ticket) 0 places.now }
    ensures within { ForSome result (λ index. index < length places.now) }
{
    places.iter().position(|place| place.is_of(ticket))
}

/// The first place that waits.
pub(crate) fn oldest(places: &[Place]) -> Option<&Place>
    ensures { option_copied result ≡ first_waiting places.now }
{
    places.iter().find(|place| place.is_waiting())
}
