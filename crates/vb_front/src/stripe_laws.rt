//! What is true of all stripes that stand for a history: which events they stand behind once they have taken part in them.
//! Each function does nothing: its contract is the law.
ghost use Rattle.vb_front.specs.StripeLaws.{StripesTakeMutations, StripesTakeCalls, StripesEject, StripesAreUsed};
ghost use Rattle.vb_front.specs.StripeLaws.{StripesRelease, StripesStandBehindAnswers, StripesStandBehindRefusals, StripesAsk};

/// A stripe that took the document which a call or another event puts stands behind that event.
pub fn stripes_take_mutations()
    ensures events { StripesTakeMutations }
    ensures calls { StripesTakeCalls }
{}

/// A stripe stands on when documents are ejected, one is noted as used, and a call's place is freed.
pub fn stripes_make_room()
    ensures ejects { StripesEject }
    ensures used { StripesAreUsed }
    ensures releases { StripesRelease }
{}

/// A stripe stands behind a call that puts nothing, one that is refused and one that asks.
pub fn stripes_stand_behind_calls()
    ensures answers { StripesStandBehindAnswers }
    ensures refusals { StripesStandBehindRefusals }
    ensures asks { StripesAsk }
{}
