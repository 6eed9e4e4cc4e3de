// The reads that were asked for in a stripe.
ghost use Rattle.std.specs.Prelude.{◌≡◌, ◌<◌, ◌≤◌, ◌==◌, ◌++◌, [], ◌∷◌, length, vec_len, vec_capacity};
ghost use Rattle.std.specs.Option.{option_map, option_copied};
ghost use Rattle.std.specs.List.{find};
ghost use Rattle.flat_parts.specs.declared.place.Place.{Place};
ghost use Rattle.flat_parts.specs.Nodes.{is_waiting_outcome, first_waiting, outcome_at, released, forgotten, settled};
ghost use Rattle.flat_parts.specs.Flat.{place_data, places_data};

use crate::data::Outcome;
use crate::place::Place;
use ep_model::Ticket;

/// The first place whose read still waits.
pub(crate) fn oldest(places: &[Place]) -> Option<&Place>
    ensures { option_copied result ≡ find (λ (p : Place). is_waiting_outcome p.outcome) places.now }
{
    places.iter().find(|place| place.outcome.is_waiting())
}

/// What became of the read with this number, where its place still stands.
pub(crate) fn outcome_of(places: &[Place], number: u64) -> Option<Outcome>
    ensures { result ≡ option_map (λ (p : Place). p.outcome)
        (find (λ (p : Place). p.number == number) places.now) }
{
    places
        .iter()
        .find(|place| place.number == number)
        .map(|place| place.outcome)
}

/// How many places are left without the one of this ticket.
pub(crate) fn count_without(places: &[Place], prior: Option<Ticket>) -> usize
    ensures { result ≡ length (released (places_data places.now) prior) }
{
    match prior {
        None => places.len(),
        Some(ticket) => places
            .iter()
            .filter(|place| place.number != ticket.number)
            .count(),
    }
}

/// Drops the place of this ticket.
pub(crate) fn release(places: &mut Vec<Place>, prior: Option<Ticket>)
    ensures places { places_data places.new.items ≡ released (places_data places.old.items) prior }
    ensures len { vec_len places.new ≤ vec_len places.old }
    ensures capacity { vec_capacity places.new ≡ vec_capacity places.old }
{
    if let Some(ticket) = prior {
        places.retain(|place| place.number != ticket.number);
    }
}

/// Drops the places of this key.
pub(crate) fn forget(places: &mut Vec<Place>, key: &[u8])
    ensures places { places_data places.new.items
        ≡ forgotten (places_data places.old.items) key.now }
    ensures len { vec_len places.new ≤ vec_len places.old }
{
    places.retain(|place| place.key.as_slice() != key);
}

/// Drops the place of a ticket and adds another at the end, for which there is room.
pub(crate) fn replace(places: &mut Vec<Place>, prior: Option<Ticket>, place: Place)
    requires { vec_len places.old < vec_capacity places.old }
    ensures { places_data places.new.items
        ≡ released (places_data places.old.items) prior ++ place_data place ∷ [] }
{
    release(places, prior);
    places.push_reserved(place);
}

/// Notes what became of the read with this number.
pub(crate) fn settle(places: &mut Vec<Place>, number: u64, outcome: Outcome)
    ensures places { places_data places.new.items
        ≡ settled (places_data places.old.items) number outcome }
    ensures len { vec_len places.new ≡ vec_len places.old }
{
    for index in 0..places.len() {
        places[index].settle(number, outcome);
    }
}
