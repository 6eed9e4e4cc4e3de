// The parts of a vBucket.
ghost use Rattle.vb_front.specs.Parts.{part_stands, part_keeps};

use ckpt_manager::Queue;
use fetch_book::Book;
use hash_stripe::Stripe;
use hold_stage::Stands;

/// The documents of some keys in memory, and the places at which calls on them wait for the store.
#[derive(Drop)]
pub struct StripePart {
    pub table: Stripe,
    pub book: Book,
}

/// What whoever writes to the store takes along: the number up to which that is told to have happened.
#[derive(Drop)]
pub struct DeskPart {
    pub persisted: u64,
}

/// A part of a vBucket.
#[derive(Drop)]
pub enum Part {
    Stripe(StripePart),
    Queue(Queue),
    Desk(DeskPart),
}

impl Stands for Part {
    ghost stands = { part_stands };

    ghost keeps = { part_keeps };
}
