// A place at which a call waits.
ghost use Rattle.std.specs.Prelude.{◌≡◌};
ghost use Rattle.fetch_book.specs.Places.{is_place_of, is_waiting};

use crate::key::Key;
use ep_model::Ticket;

/// What became of a read of the store.
#[derive(Clone, Copy, Debug, PartialEq, Eq)]
pub enum Outcome {
    /// Nothing yet.
    Waiting,
    /// The value is in memory again.
    Merged,
    /// The store had no live document.
    Absent,
    /// The store failed, its count of faults then being this one.
    Failed(u64),
    /// Memory was wanting.
    NoMemory,
    /// The document, of so many blocks, found no room in the stripe.
    NoRoom { blocks: u32 },
}

/// A place at which a call waits: the ticket that the call holds, the key that the store is read at, and what became of
/// the read.
#[derive(Drop)]
pub struct Place {
    pub ticket: Ticket,
    pub key: Key,
    pub outcome: Outcome,
}

impl Place {
    /// Whether the place is this ticket's.
    pub fn is_of(&self, ticket: Ticket) -> bool
        ensures { result ≡ is_place_of ticket self.now }
    {
        self.ticket.number == ticket.number && self.ticket.stripe == ticket.stripe
    }

    /// Whether the read has no outcome yet.
    pub fn is_waiting(&self) -> bool
        ensures { result ≡ is_waiting self.now }
    {
        match self.outcome {
            Outcome::Waiting => true,
            Outcome::Merged
            | Outcome::Absent
            | Outcome::Failed(_)
            | Outcome::NoMemory
            | Outcome::NoRoom { .. } => false,
        }
    }
}
