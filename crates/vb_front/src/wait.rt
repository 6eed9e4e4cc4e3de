// A call that needs what isn't in memory.
ghost use Rattle.std.specs.Prelude.{◌≡◌};
ghost use Rattle.ep_model.specs.Limits.{IsKey};
ghost use Rattle.vb_front.specs.Waits.{waited_at, waited, release, ask_step, ask_book};

use crate::step::Step;
use ep_model::{Cause, Ticket};
use fetch_book::{Book, Outcome};
use hash_stripe::Stripe;

/// What its own place means to a call that needs what isn't in memory.
#[derive(Clone, Copy)]
pub(crate) enum Meaning {
    /// Its place still waits.
    Waits(Ticket),
    /// It has no place that serves it, and asks for one.
    Asks,
    /// The store has no live document.
    Absent,
    Refused(Cause),
}

/// What an outcome of the call's own place means to the call.
fn outcome_means(table: &Stripe, key: &[u8], ticket: Ticket, outcome: Outcome) -> Meaning
    ensures { result ≡ waited_at table.now key.now ticket outcome }
{
    match outcome {
        Outcome::Waiting => Meaning::Waits(ticket),
        Outcome::Merged => Meaning::Asks,
        Outcome::Absent => Meaning::Absent,
        Outcome::Failed(_) => Meaning::Refused(Cause::Store(ticket)),
        Outcome::NoMemory => Meaning::Refused(Cause::Memory(ticket)),
        Outcome::NoRoom { blocks } => {
            if u64::from(table.blocks()) < u64::from(table.pinned(key)) + u64::from(blocks) {
                Meaning::Refused(Cause::Quota)
            } else {
                Meaning::Asks
            }
        }
    }
}

/// What became of the read that the call asked for before, if it did.
pub(crate) fn prior_means(table: &Stripe, book: &Book, key: &[u8], prior: Option<Ticket>) -> Meaning
    ensures { result ≡ waited table.now book.now key.now prior }
{
    let Some(ticket) = prior else {
        return Meaning::Asks;
    };
    match book.outcome(ticket) {
        None => Meaning::Asks,
        Some(outcome) => outcome_means(table, key, ticket, outcome),
    }
}

/// Frees the place of the call, where it has one.
pub(crate) fn release(book: &mut Book, prior: Option<Ticket>)
    ensures { book.new ≡ release book.old prior }
{
    if let Some(ticket) = prior {
        book.release(ticket);
    }
}

/// Asks for a document at a new place, once the call's old one is free.
pub(crate) fn ask(book: &mut Book, key: &[u8], prior: Option<Ticket>) -> Step
    requires { IsKey key.now }
    ensures step { result ≡ ask_step (release book.old prior) }
    ensures book { book.new ≡ ask_book (release book.old prior) key.now }
{
    release(book, prior);
    match book.ask(key) {
        Ok(ticket) => Step::Fetch(ticket),
        Err(_) => Step::FetchFull,
    }
}
