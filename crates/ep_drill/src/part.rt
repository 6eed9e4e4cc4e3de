// The parts of a vBucket.
ghost use Rattle.std.specs.Prelude.{◌≡◌};
ghost use Rattle.ep_drill.specs.Parts.{part_stands, part_keeps};

use flat_parts::{FlatQueue, FlatStripe};
use hold_stage::Stands;

/// What whoever writes to the store takes along: the number up to which that is told to have happened.
#[derive(Drop)]
pub struct DeskPart {
    pub persisted: u64,
}

/// A part of a vBucket.
#[derive(Drop)]
pub enum Part {
    Stripe(FlatStripe),
    Queue(FlatQueue),
    Desk(DeskPart),
}

impl Stands for Part {
    ghost stands = { part_stands };

    ghost keeps = { part_keeps };
}
