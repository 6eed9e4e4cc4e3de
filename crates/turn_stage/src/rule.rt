// The rule of the table, and the names of its steps.
ghost use Rattle.turn_stage.specs.Rule.{Turned};
ghost use Rattle.turn_stage.specs.Parts.{first_view};
ghost use Rattle.turn_stage.specs.Plays.{part_of, Looked, Tried, Notes, PutDown, PickedUp, Gave, Begins, Told, without_number, with_number, joined_view, spent_view};
ghost use Rattle.ep_model.specs.declared.data.EventData.{EventData};
ghost use Rattle.turn_stage.specs.Events.{any_event};

use crate::data::View;
use atomic_table::{Join, Play, Shared, Split, TableRule};
use ep_model::Config;
use hold_stage::{Beginning, Stands};
use std::marker::{Brand, PhantomData};

/// Which vBucket a table is of.
#[derive(Clone, Copy)]
pub struct TableKey {
    pub config: Config,
    pub vb: u16,
}

/// Names the rule of the turns.
pub struct Rule;

/// The words and slots of a vBucket, as threads share them.
pub type Board<P> = Shared<Option<P>, View, TableKey, Rule>;

pub type Seat<P> = atomic_table::Seat<Option<P>, View>;

impl<P: Stands> TableRule<Option<P>, View, TableKey> for Rule {
    ghost holds = { λ _. Turned P.stands };

    ghost first = { λ place. first_view place.config place.vb };
}

/// Names an event, for proofs alone.
pub trait Noting {
    ghost event: { EventData };
}

impl Noting for Brand {
    ghost event = { any_event };
}

/// Lets the front grow by what others noted.
pub struct Looks;

impl<P: Stands> Play<Option<P>, View> for Looks {
    ghost then = { λ _ m _ n. Looked P.stands m n };
}

/// Wins a turn, or loses.
pub struct Tries;

impl<P: Stands> Play<Option<P>, View> for Tries {
    ghost then = { λ st m found n. Tried P.stands st m found n };
}

/// Puts the emptied slot back.
pub struct PutsDown;

impl<P: Stands> Play<Option<P>, View> for PutsDown {
    ghost then = { λ _ m _ n. PutDown m n };
}

/// Takes the emptied slot.
pub struct PicksUp;

impl<P: Stands> Play<Option<P>, View> for PicksUp {
    ghost then = { λ st m _ n. PickedUp (part_of st m.0) m n };
}

/// Puts the filled slot back and gives its turn.
pub struct GivesBack;

impl<P: Stands> Play<Option<P>, View> for GivesBack {
    ghost then = { λ st m _ n. Gave (part_of st m.0) m n };
}

/// Notes the event that `E` names.
pub struct NotesOf<E: Noting> {
    marker: PhantomData<E>,
}

impl<P: Stands, E: Noting> Play<Option<P>, View> for NotesOf<E> {
    ghost then = { λ _ m _ n. Notes P.stands E.event m n };
}

/// Puts the start that `B` names.
pub struct BeginsAt<B: Beginning> {
    marker: PhantomData<B>,
}

impl<P: Stands, B: Beginning> Play<Option<P>, View> for BeginsAt<B> {
    ghost then = { λ _ m _ n. Begins B.start m n };
}

/// Tells what the last join did.
pub struct Tells;

impl<P: Stands> Play<Option<P>, View> for Tells {
    ghost then = { λ _ m _ n. Told m n };
}

/// Cuts off the next caller number.
pub struct Numbers;

impl Split<View> for Numbers {
    ghost left = { without_number };

    ghost right = { with_number };
}

/// Joins two passes.
pub struct Fronts;

impl Join<View> for Fronts {
    ghost both = { joined_view };

    ghost spent = { spent_view };
}
