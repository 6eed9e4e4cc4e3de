// The stage of a pass.
ghost use Rattle.std.specs.Prelude.{◌≡◌, false, None};
ghost use Rattle.turn_stage.specs.Rule.{WasTaken};
ghost use Rattle.turn_stage.specs.Slots.{has};
ghost use Rattle.turn_stage.specs.Passes.{view_of, pass_data, IsPassOf};

use crate::data::PassData;
use crate::pass::TurnPass;
use crate::table::Turns;
use ep_model::{Busy, Event, PartName};
use hold_stage::{Beginning, Stage, Stands};

/// The stage of a pass: what its calls do lasts in the pass. `take` is two atomic steps, or one where somebody else
/// has the part, `note`, `look` and `begin` are one each, and `give` is two; a part is moved in and out of its slot as
/// plain memory. None takes memory, locks or waits.
#[derive(Drop)]
pub struct TurnStage<'a, P: Stands + Drop> {
    pub turns: &'a Turns<P>,
    pub pass: &'a mut TurnPass<P>,
    pub ghost of: { IsPassOf turns.now pass.now },
}

impl<'a, P: Stands + Drop> Stage for TurnStage<'a, P> {
    type Part = P;

    type Fixed = (&'a Turns<P>, PassData);

    ghost front = { λ s. (view_of s.pass.now).front };

    ghost holds = { λ s part. has (view_of s.pass.now).held part };

    ghost is_desk = { λ s. (view_of s.pass.now).desk };

    ghost number = { λ s. (view_of s.pass.now).caller };

    ghost covers = { λ _ _ _. Unit {0} };

    ghost losses = { λ s. (view_of s.pass.now).losses };

    ghost elsewhere = { λ s part. WasTaken P.stands part (view_of s.pass.now) };

    ghost is_telling = { λ _. false };

    ghost tells = { λ _ _. None };

    ghost lent = { λ s. s.pass.ghost_name };

    ghost fixed = { λ s. (s.turns, pass_data (view_of s.pass.now)) };

    fn caller(&self) -> u64 {
        self.pass.caller
    }

    fn take(&mut self, part: PartName) -> Result<P, Busy> {
        self.turns.take(self.pass, part)
    }

    fn note(&mut self, event: &Event) {
        self.turns.note(self.pass, event);
    }

    fn look(&mut self) {
        self.turns.look(self.pass);
    }

    fn begin<B: Beginning>(&mut self) {
        self.turns.begin::<B>(self.pass);
    }

    fn give(&mut self, part: PartName, value: P) {
        self.turns.give(self.pass, part, value);
    }
}
