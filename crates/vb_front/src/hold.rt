// Parts are taken by their kinds, unless somebody else has them.
ghost use Rattle.std.specs.Prelude.{◌≡◌, ℕ, true, false, if◌then◌else◌, Some, None, IfErr, MatchResult};
ghost use Rattle.ep_model.specs.declared.event.PartName.{PartName};
ghost use Rattle.ep_model.specs.declared.event.PartName.TheVariants.{Stripe, Queue as TheQueue};
ghost use Rattle.ep_model.specs.Counts.{Rose};
ghost use Rattle.ep_model.specs.Legal.{IsLegal};
ghost use Rattle.hold_stage.specs.Touches.{there, same_part};
ghost use Rattle.hold_stage.specs.Stays.{Stays};
ghost use Rattle.hold_stage.specs.Grows.{Same, and_this, Grown, Keeps};
ghost use Rattle.vb_front.specs.Parts.{part_stands};
ghost use Rattle.vb_front.specs.Stands.{StripeStands, QueueStands};

use crate::part::{Part, StripePart};
use ckpt_manager::Queue;
use ep_model::{Busy, PartName};
use hold_stage::Stage;

/// Takes a stripe, unless somebody else has it.
pub(crate) fn take_stripe<S: Stage<Part = Part>>(
    stage: &mut S,
    stripe: u16,
) -> Result<StripePart, Busy>
    requires there { there (S.front stage.old).config (Stripe stripe) ≡ true }
    requires free { S.holds stage.old (Stripe stripe) ≡ false }
    ensures stays { Stays S.lent S.fixed S.number S.is_desk S.is_telling stage.old stage.new }
    ensures room { (n b : ℕ) → S.covers stage.old n b → S.covers stage.new n b }
    ensures grown { Grown (S.front stage.old) (S.front stage.new) (S.holds stage.old)
        (S.number stage.old) (S.is_desk stage.old) }
    ensures legal { IsLegal (S.front stage.new) }
    ensures kept { Keeps part_stands (S.holds stage.old) (S.front stage.old) (S.front stage.new) }
    ensures taken { MatchResult result (λ x. StripeStands (S.front stage.new) stripe x
        × (S.losses stage.new ≡ S.losses stage.old))
        (λ b. (b.part ≡ Stripe stripe) × Rose (S.losses stage.old) (S.losses stage.new)) }
    ensures held { MatchResult result (λ _. Same (S.holds stage.new)
        (and_this (Stripe stripe) (S.holds stage.old)))
        (λ _. Same (S.holds stage.new) (S.holds stage.old)) }
    ensures elsewhere { IfErr result (λ _. S.elsewhere stage.old (Stripe stripe)) }
    ensures alone { S.is_telling stage.old ≡ true → S.front stage.new ≡ S.front stage.old }
    ensures was_there { S.is_telling stage.old ≡ true → MatchResult result
        (λ x. S.tells stage.old (Stripe stripe) ≡ Some (Part.Stripe x))
        (λ _. S.tells stage.old (Stripe stripe) ≡ None) }
    ensures tells { S.is_telling stage.old ≡ true → (p : PartName)
        → there (S.front stage.old).config p ≡ true → S.tells stage.new p
        ≡ (if same_part (Stripe stripe) p then None else S.tells stage.old p) }
{
    match stage.take(PartName::Stripe(stripe)) {
        Ok(Part::Stripe(part)) => Ok(part),
        Ok(Part::Queue(_)) => unreachable!(),
        Ok(Part::Desk(_)) => unreachable!(),
        Err(busy) => Err(busy),
    }
}

/// Takes the queue, unless somebody else has it.
pub(crate) fn take_queue<S: Stage<Part = Part>>(stage: &mut S) -> Result<Queue, Busy>
    requires free { S.holds stage.old TheQueue ≡ false }
    ensures stays { Stays S.lent S.fixed S.number S.is_desk S.is_telling stage.old stage.new }
    ensures room { (n b : ℕ) → S.covers stage.old n b → S.covers stage.new n b }
    ensures grown { Grown (S.front stage.old) (S.front stage.new) (S.holds stage.old)
        (S.number stage.old) (S.is_desk stage.old) }
    ensures legal { IsLegal (S.front stage.new) }
    ensures kept { Keeps part_stands (S.holds stage.old) (S.front stage.old) (S.front stage.new) }
    ensures taken { MatchResult result (λ x. QueueStands (S.front stage.new) x
        × (S.losses stage.new ≡ S.losses stage.old))
        (λ b. (b.part ≡ TheQueue) × Rose (S.losses stage.old) (S.losses stage.new)) }
    ensures held { MatchResult result (λ _. Same (S.holds stage.new)
        (and_this TheQueue (S.holds stage.old)))
        (λ _. Same (S.holds stage.new) (S.holds stage.old)) }
    ensures elsewhere { IfErr result (λ _. S.elsewhere stage.old TheQueue) }
    ensures alone { S.is_telling stage.old ≡ true → S.front stage.new ≡ S.front stage.old }
    ensures was_there { S.is_telling stage.old ≡ true → MatchResult result
        (λ x. S.tells stage.old TheQueue ≡ Some (Part.Queue x))
        (λ _. S.tells stage.old TheQueue ≡ None) }
    ensures tells { S.is_telling stage.old ≡ true → (p : PartName)
        → there (S.front stage.old).config p ≡ true → S.tells stage.new p
        ≡ (if same_part TheQueue p then None else S.tells stage.old p) }
{
    match stage.take(PartName::Queue) {
        Ok(Part::Queue(queue)) => Ok(queue),
        Ok(Part::Stripe(_)) => unreachable!(),
        Ok(Part::Desk(_)) => unreachable!(),
        Err(busy) => Err(busy),
    }
}
