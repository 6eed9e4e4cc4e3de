//! The laws of what events touch and of how fronts grow. Each function does nothing: its contract is the law, over all
//! histories.
ghost use Rattle.hold_stage.specs.Laws.{LegalLater, TouchesLater, TouchesSome, LegalBegun, OfOne, OfCall, GrownSame, GrownThen, GrownFewer, GrownOwn, KeepsAlong, WentBehind, WentBefore, WentOwn, WentKeeps};

use crate::stage::Stands;

/// An event that is legal behind what somebody knows of a history is legal behind all of it, while nobody else
/// touched the parts that it touches.
pub fn untouched_events_stay_legal()
    ensures legal { LegalLater }
    ensures touches { TouchesLater }
    ensures some { TouchesSome }
{}

/// A start may be put into a history that had none.
pub fn a_start_keeps_legal()
    ensures { LegalBegun }
{}

/// An event is of one caller at most, and then it is a call's.
pub fn events_have_one_caller()
    ensures one { OfOne }
    ensures call { OfCall }
{}

/// What is known of a history grows step by step, without an event of whoever knows it.
pub fn growths_compose()
    ensures same { GrownSame }
    ensures then_more { GrownThen }
    ensures fewer { GrownFewer }
    ensures own { GrownOwn }
{}

/// A call on a stage is one call with what others noted before it, and after it where it noted nothing. Of its caller it
/// adds its event alone.
pub fn calls_compose()
    ensures behind { WentBehind }
    ensures before { WentBefore }
    ensures own { WentOwn }
{}

/// A part that is held stands on while others note events, and while a call notes one that doesn't touch it.
pub fn held_parts_stand_on<P: Stands>()
    ensures along { KeepsAlong P.stands }
    ensures went { WentKeeps P.stands }
{}
