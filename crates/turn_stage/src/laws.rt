//! What follows from the rule of the turns. The function does nothing: its contract is the law.
ghost use Rattle.turn_stage.specs.Rule.{SoleTakes};

use hold_stage::Stands;

/// A pass that has all shares, since no other was split off or all were joined, never finds a part with somebody else.
pub fn a_sole_pass_is_never_busy<P: Stands>()
    ensures { SoleTakes P.stands }
{}
