// Parts that are at home are taken by their kinds.
ghost use Rattle.std.specs.Prelude.{◌≡◌, ℕ, true, false, if◌then◌else◌, Some, None, IsSome, IfErr, MatchResult};
ghost use Rattle.ep_model.specs.declared.event.PartName.{PartName};
ghost use Rattle.ep_model.specs.declared.event.PartName.TheVariants.{Stripe, Queue, Desk};
ghost use Rattle.ep_model.specs.Front.{world_of};
ghost use Rattle.ep_model.specs.Legal.{IsLegal};
ghost use Rattle.hold_stage.specs.Touches.{there, same_part};
ghost use Rattle.hold_stage.specs.Stays.{Stays};
ghost use Rattle.ep_model.specs.Counts.{Rose};
ghost use Rattle.hold_stage.specs.Grows.{Same, and_this, Grown, Keeps};
ghost use Rattle.ep_drill.specs.Parts.{part_stands};
ghost use Rattle.ep_drill.specs.Stands.{StripeStands, QueueStands};

use crate::part::{DeskPart, Part};
use ep_model::{Busy, PartName};
use flat_parts::{FlatQueue, FlatStripe};
use hold_stage::Stage;

/// Takes a stripe.
pub(crate) fn take_stripe<S: Stage<Part = Part>>(stage: &mut S, stripe: u16) -> FlatStripe
    requires there { there (S.front stage.old).config (Stripe stripe) ≡ true }
    requires telling { S.is_telling stage.old ≡ true }
    requires home { IsSome (S.tells stage.old (Stripe stripe)) }
    requires free { S.holds stage.old (Stripe stripe) ≡ false }
    ensures stays { Stays S.lent S.fixed S.number S.is_desk S.is_telling stage.old stage.new }
    ensures room { (n b : ℕ) → S.covers stage.old n b → S.covers stage.new n b }
    ensures front { S.front stage.new ≡ S.front stage.old }
    ensures legal { IsLegal (S.front stage.new) }
    ensures was_there { S.tells stage.old (Stripe stripe) ≡ Some (Part.Stripe result) }
    ensures stands { StripeStands (S.front stage.new) stripe result }
    ensures held { Same (S.holds stage.new) (and_this (Stripe stripe) (S.holds stage.old)) }
    ensures tells { (p : PartName) → there (S.front stage.old).config p ≡ true → S.tells stage.new p
        ≡ (if same_part (Stripe stripe) p then None else S.tells stage.old p) }
{
    match stage.take(PartName::Stripe(stripe)) {
        Ok(Part::Stripe(part)) => part,
        Ok(Part::Queue(_)) => unreachable!(),
        Ok(Part::Desk(_)) => unreachable!(),
        Err(_) => unreachable!(),
    }
}

/// Takes a stripe, unless somebody else has it.
pub(crate) fn try_take_stripe<S: Stage<Part = Part>>(
    stage: &mut S,
    stripe: u16,
) -> Result<FlatStripe, Busy>
    requires there { there (S.front stage.old).config (Stripe stripe) ≡ true }
    requires free { S.holds stage.old (Stripe stripe) ≡ false }
    ensures stays { Stays S.lent S.fixed S.number S.is_desk S.is_telling stage.old stage.new }
    ensures room { (n b : ℕ) → S.covers stage.old n b → S.covers stage.new n b }
    ensures grown { Grown (S.front stage.old) (S.front stage.new) (S.holds stage.old)
        (S.number stage.old) (S.is_desk stage.old) }
    ensures legal { IsLegal (S.front stage.new) }
    ensures kept { Keeps part_stands (S.holds stage.old) (S.front stage.old) (S.front stage.new) }
    ensures taken { MatchResult result (λ x. StripeStands (S.front stage.new) stripe x
        × (S.losses stage.new ≡ S.losses stage.old))
        (λ b. (b.part ≡ Stripe stripe) × Rose (S.losses stage.old) (S.losses stage.new)) }
    ensures elsewhere { IfErr result (λ _. S.elsewhere stage.old (Stripe stripe)) }
    ensures held { MatchResult result (λ _. Same (S.holds stage.new)
        (and_this (Stripe stripe) (S.holds stage.old)))
        (λ _. Same (S.holds stage.new) (S.holds stage.old)) }
    ensures alone { S.is_telling stage.old ≡ true → S.front stage.new ≡ S.front stage.old }
    ensures was_there { S.is_telling stage.old ≡ true → MatchResult result
        (λ x. S.tells stage.old (Stripe stripe) ≡ Some (Part.Stripe x))
        (λ _. S.tells stage.old (Stripe stripe) ≡ None) }
    ensures tells { S.is_telling stage.old ≡ true → (p : PartName)
        → there (S.front stage.old).config p ≡ true → S.tells stage.new p
        ≡ (if same_part (Stripe stripe) p then None else S.tells stage.old p) }
{
    match stage.take(PartName::Stripe(stripe)) {
        Ok(Part::Stripe(part)) => Ok(part),
        Ok(Part::Queue(_)) => unreachable!(),
        Ok(Part::Desk(_)) => unreachable!(),
        Err(busy) => Err(busy),
    }
}

/// Takes the queue.
pub(crate) fn take_queue<S: Stage<Part = Part>>(stage: &mut S) -> FlatQueue
    requires telling { S.is_telling stage.old ≡ true }
    requires home { IsSome (S.tells stage.old Queue) }
    requires free { S.holds stage.old Queue ≡ false }
    ensures stays { Stays S.lent S.fixed S.number S.is_desk S.is_telling stage.old stage.new }
    ensures room { (n b : ℕ) → S.covers stage.old n b → S.covers stage.new n b }
    ensures front { S.front stage.new ≡ S.front stage.old }
    ensures legal { IsLegal (S.front stage.new) }
    ensures was_there { S.tells stage.old Queue ≡ Some (Part.Queue result) }
    ensures stands { QueueStands (S.front stage.new) result }
    ensures held { Same (S.holds stage.new) (and_this Queue (S.holds stage.old)) }
    ensures tells { (p : PartName) → there (S.front stage.old).config p ≡ true → S.tells stage.new p
        ≡ (if same_part Queue p then None else S.tells stage.old p) }
{
    match stage.take(PartName::Queue) {
        Ok(Part::Queue(part)) => part,
        Ok(Part::Stripe(_)) => unreachable!(),
        Ok(Part::Desk(_)) => unreachable!(),
        Err(_) => unreachable!(),
    }
}

/// Takes the desk.
pub(crate) fn take_desk<S: Stage<Part = Part>>(stage: &mut S) -> DeskPart
    requires telling { S.is_telling stage.old ≡ true }
    requires home { IsSome (S.tells stage.old Desk) }
    requires free { S.holds stage.old Desk ≡ false }
    ensures stays { Stays S.lent S.fixed S.number S.is_desk S.is_telling stage.old stage.new }
    ensures room { (n b : ℕ) → S.covers stage.old n b → S.covers stage.new n b }
    ensures front { S.front stage.new ≡ S.front stage.old }
    ensures legal { IsLegal (S.front stage.new) }
    ensures was_there { S.tells stage.old Desk ≡ Some (Part.Desk result) }
    ensures stands { result.persisted ≡ (world_of (S.front stage.new)).persisted }
    ensures held { Same (S.holds stage.new) (and_this Desk (S.holds stage.old)) }
    ensures tells { (p : PartName) → there (S.front stage.old).config p ≡ true → S.tells stage.new p
        ≡ (if same_part Desk p then None else S.tells stage.old p) }
{
    match stage.take(PartName::Desk) {
        Ok(Part::Desk(part)) => part,
        Ok(Part::Stripe(_)) => unreachable!(),
        Ok(Part::Queue(_)) => unreachable!(),
        Err(_) => unreachable!(),
    }
}
