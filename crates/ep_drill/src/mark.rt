// How a stripe is told what is stored.
ghost use Rattle.std.specs.Prelude.{◌≡◌, ◌+◌, ℕ, true, false, Some, None};
ghost use Rattle.ep_model.specs.declared.data.EventData.TheVariants.{Marked as MarkedData};
ghost use Rattle.ep_model.specs.declared.event.PartName.{PartName};
ghost use Rattle.ep_model.specs.declared.event.PartName.TheVariants.{Stripe};
ghost use Rattle.ep_model.specs.Front.{world_of, with_event};
ghost use Rattle.ep_model.specs.Legal.{May, IsLegal};
ghost use Rattle.hold_stage.specs.Touches.{there, is_stripe};
ghost use Rattle.hold_stage.specs.Stays.{Stays, KeptBut};
ghost use Rattle.hold_stage.specs.Grows.{Same};
ghost use Rattle.hold_stage.specs.Went.{with_noted, Went, LeavesRoom};
ghost use Rattle.ep_drill.specs.Marks.{marked_by, HasMarked, IfElsewhere, MarksPart};

use crate::hold::try_take_stripe;
use crate::part::Part;
use ep_model::{Busy, Event, PartName};
use hold_stage::Stage;
use kv_keeper::{Desk, Keeper};

/// How a stripe was marked.
#[derive(Clone, Copy, Debug, PartialEq, Eq)]
pub enum Marking {
    /// It knows already what is stored.
    Idle,
    /// It knows now that mutations up to this number are stored.
    Raised(u64),
    /// Somebody else has it. Nothing was noted.
    Busy(Busy),
}

/// Tells a stripe what is stored, where it doesn't know. It takes no memory.
pub(crate) fn mark_once<S: Stage<Part = Part>, K: Keeper>(
    desk: &Desk<K>,
    stage: &mut S,
    stripe: u16,
) -> Marking
    requires there { there (S.front stage.old).config (Stripe stripe) ≡ true }
    requires free { S.holds stage.old (Stripe stripe) ≡ false }
    requires is_desk { S.is_desk stage.old ≡ true }
    requires noted { desk.now.noted ≡ (world_of (S.front stage.old)).persisted }
    requires room { S.covers stage.old 1 0 }
    ensures stays { Stays S.lent S.fixed S.number S.is_desk S.is_telling stage.old stage.new }
    ensures went { Went (S.front stage.old) (S.front stage.new) (S.holds stage.old)
        (S.number stage.old) (S.is_desk stage.old) (marked_by stripe desk.now.noted result) }
    ensures room { LeavesRoom (S.covers stage.old) (S.covers stage.new)
        (marked_by stripe desk.now.noted result) }
    ensures marked { HasMarked (S.front stage.new) stripe desk.now.noted (S.losses stage.old)
        (S.losses stage.new) result }
    ensures elsewhere { IfElsewhere result (S.elsewhere stage.old (Stripe stripe)) }
    ensures held { Same (S.holds stage.new) (S.holds stage.old) }
    ensures alone { S.is_telling stage.old ≡ true → S.front stage.new
        ≡ with_noted (S.front stage.old) (marked_by stripe desk.now.noted result) }
    ensures becomes { S.is_telling stage.old ≡ true
        → MarksPart (S.tells stage.old (Stripe stripe)) (S.tells stage.new (Stripe stripe))
        desk.now.noted result }
    ensures kept { S.is_telling stage.old ≡ true
        → KeptBut (S.front stage.old).config (is_stripe stripe) (S.tells stage.old)
        (S.tells stage.new) }
{
    let number = desk.noted();
    let mut part = match try_take_stripe(stage, stripe) {
        Ok(part) => part,
        Err(busy) => return Marking::Busy(busy),
    };
    if part.marked() == number {
        stage.give(PartName::Stripe(stripe), Part::Stripe(part));
        return Marking::Idle;
    }
    stage.note(&Event::Marked { stripe, number });
    part.raise(number);
    stage.give(PartName::Stripe(stripe), Part::Stripe(part));
    Marking::Raised(number)
}
