// A read that was asked for.
ghost use Rattle.std.specs.Prelude.{◌≡◌};
ghost use Rattle.ep_model.specs.Limits.{IsKey};

use crate::data::Outcome;

/// A read that was asked for, by the number of its ticket.
#[derive(Drop)]
pub struct Place {
    pub number: u64,
    pub key: Vec<u8>,
    pub outcome: Outcome,
    ghost keyed: { IsKey key.items },
}

impl Place {
    ghost use Rattle.std.specs.Prelude.{◌≡◌};
    ghost use Rattle.flat_parts.specs.Nodes.{settle_place};
    ghost use Rattle.flat_parts.specs.Flat.{place_data};

    /// Notes what became of the read with this number, if it is this one.
    pub(crate) fn settle(&mut self, number: u64, outcome: Outcome)
        ensures { place_data self.new ≡ settle_place number outcome (place_data self.old) }
    {
        if self.number == number {
            self.outcome = outcome;
        }
    }
}

impl Outcome {
    ghost use Rattle.flat_parts.specs.Nodes.{is_waiting_outcome};

    /// Whether the read still waits.
    pub fn is_waiting(self) -> bool
        ensures { result ≡ is_waiting_outcome self }
    {
        match self {
            Outcome::Waiting => true,
            Outcome::Merged | Outcome::Absent | Outcome::Failed(_) | Outcome::NoMemory => false,
        }
    }
}
