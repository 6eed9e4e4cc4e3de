// The book.
ghost use Rattle.std.specs.Prelude.{◌≡◌, ◌+◌, ◌≤◌, ◌++◌, [], true, length, is_err, is_some, IfOk, OnOk, OnErr, IfSome};
ghost use Rattle.std.specs.List.{All};
ghost use Rattle.ep_model.specs.Limits.{IsKey};

use crate::key::Key;
use crate::place::{Outcome, Place};
use crate::places;
use ep_model::{NoMemory, Out, Ticket};
use std::alloc::Global;
use std::marker::Model;

/// How many places a book has.
const PLACES: usize = 64;

/// No ticket has this number.
const END_OF_NUMBERS: u64 = 1 << 56;

/// All places are in use, or no ticket's number is left.
#[derive(Clone, Copy, Debug, PartialEq, Eq)]
pub struct BookFull;

/// The places of one stripe. Contracts see the stripe, the number of the next ticket and the places in use, in the
/// order in which they were asked for. Each call's cost is linear in the number of places, which are 64 at most.
#[derive(Drop)]
pub struct Book {
    stripe: u16,
    next: u64,
    places: Vec<Place>,
}

impl Model for Book {
    ghost use Rattle.std.specs.Prelude.{◌≤◌, vec_capacity};
    ghost use Rattle.fetch_book.specs.Books.{BookData, IsBook};

    ghost Value = { BookData };

    ghost view = { λ b. record { stripe = b.stripe; next = b.next; places = b.places.items } };

    ghost invariant = { λ b. IsBook
        (record { stripe = b.stripe; next = b.next; places = b.places.items })
        × (64 ≤ vec_capacity b.places) };
}

impl Book {
    ghost use Rattle.std.specs.Prelude.{◌≡◌, ◌+◌, ◌≤◌, ◌++◌, [], true, length, is_err, is_some, IfOk, OnOk, OnErr, IfSome};
    ghost use Rattle.std.specs.List.{All};
    ghost use Rattle.ep_model.specs.Limits.{max_key, IsKey};
    ghost use Rattle.fetch_book.specs.declared.place.Place.{Place};
    ghost use Rattle.fetch_book.specs.Places.{is_waiting, place_at, first_waiting, settled, forgotten, released};
    ghost use Rattle.fetch_book.specs.Books.{BookData, IsBook, is_full, next_ticket, asked, ticket_of, key_of, outcome_of};

    /// A book with no place in use. This call alone takes memory.
    pub fn new(alloc: Global, stripe: u16) -> Result<Book, NoMemory>
        ensures { IfOk result (λ book. book ≡ record { stripe = stripe; next = 1; places = [] }) }
    {
        Ok(Book {
            stripe,
            next: 1,
            places: Vec::with_capacity(alloc, PLACES)?,
        })
    }

    /// Takes a place at which a call waits for this key, under the next ticket.
    pub fn ask(&mut self, key: &[u8]) -> Result<Ticket, BookFull>
        requires { IsKey key.now }
        ensures full { is_err result ≡ is_full self.old }
        ensures ticket { IfOk result (λ ticket. ticket ≡ next_ticket self.old) }
        ensures ok { OnOk result (self.new ≡ asked self.old key.now) }
        ensures err { OnErr result (self.new ≡ self.old) }
    {
        if self.places.len() == PLACES || self.next == END_OF_NUMBERS {
            return Err(BookFull);
        }
        let ticket = Ticket {
            stripe: self.stripe,
            number: self.next,
        };
        self.places.push_reserved(Place {
            ticket,
            key: Key::of(key),
            outcome: Outcome::Waiting,
        });
        self.next += 1;
        Ok(ticket)
    }

    /// What became of the read of a ticket, where its place still stands.
    pub fn outcome(&self, ticket: Ticket) -> Option<Outcome>
        ensures { result ≡ outcome_of (place_at self.now.places ticket) }
    {
        match places::place_of(&self.places, ticket) {
            None => None,
            Some(place) => Some(place.outcome),
        }
    }

    /// The ticket that has waited longest, and so has the least number of those that wait. Appends its key.
    pub fn oldest(&self, out: &mut Out) -> Option<Ticket>
        requires { length (key_of (first_waiting self.now.places)) ≤ out.old.spare }
        ensures ticket { result ≡ ticket_of (first_waiting self.now.places) }
        ensures key { out.new.bytes ≡ out.old.bytes ++ key_of (first_waiting self.now.places) }
        ensures room { out.new.spare + length out.new.bytes ≡ out.old.spare + length out.old.bytes }
        ensures least { IfSome result (λ ticket. All (λ (place : Place). is_waiting place ≡ true →
            ticket.number ≤ place.ticket.number) self.now.places) }
    {
        match places::oldest(&self.places) {
            None => None,
            Some(place) => {
                out.push(place.key.as_slice());
                Some(place.ticket)
            }
        }
    }

    /// Notes what became of the read of a ticket, and answers whether its place still stands.
    pub fn settle(&mut self, ticket: Ticket, outcome: Outcome) -> bool
        ensures settles { result ≡ is_some (place_at self.old.places ticket) }
        ensures after { self.new ≡ record self.old
            { places = settled self.old.places ticket outcome } }
    {
        match places::position_of(&self.places, ticket) {
            None => false,
            Some(index) => {
                let place = &mut self.places[index];
                place.outcome = outcome;
                true
            }
        }
    }

    /// Frees the places of a key.
    pub fn forget(&mut self, key: &[u8])
        ensures { self.new ≡ record self.old { places = forgotten self.old.places key.now } }
    {
        self.places.retain(|place| place.key.as_slice() != key);
    }

    /// Frees the place of a ticket, where it still stands.
    pub fn release(&mut self, ticket: Ticket)
        ensures { self.new ≡ record self.old { places = released self.old.places ticket } }
    {
        self.places.retain(|place| !place.is_of(ticket));
    }

    /// How many places are in use.
    pub fn used(&self) -> u32
        ensures used { result ≡ length self.now.places }
        ensures sound { IsBook self.now }
        ensures fits { length (key_of (first_waiting self.now.places)) ≤ max_key }
    {
        self.places.len() as u32
    }
}
