//! What is true of all parts, desks and batches that stand for a history, and of all steps of calls. Each function does
//! nothing: its contract is the law.
ghost use Rattle.vb_front.specs.Laws.{EmptyStripesStand, EmptyQueuesStand, DesksStandOn, BatchesStandOn, PriorsStandOn};
ghost use Rattle.vb_front.specs.Laws.{NewDesksStand, BatchesStandAbove, DesksStore, DesksFail};
ghost use Rattle.vb_front.specs.Ways.{ReadStepsAreApart, ReadFollowsItsCondition, WaitingReadsAskNothing};
ghost use Rattle.vb_front.specs.Ways.{WriteStepsAreApart, WriteFollowsItsCondition, WaitingWritesAskNothing};
ghost use Rattle.vb_front.specs.Ways.{RoomLacksForOne, QuotaIsWantOfRoom, TriedQuotaIsWantOfRoom};

/// Parts that have nothing stand for a history in which nothing happened, before a start is put and behind any start. Before
/// one is put so does a desk that was just made over a store of which no commit failed.
pub fn empty_parts_stand()
    ensures stripes { EmptyStripesStand }
    ensures queues { EmptyQueuesStand }
    ensures desks { NewDesksStand }
{}

/// A desk, a batch between its taking and its commit, and a call that asked stand on while others note events.
pub fn others_leave_desks_and_callers()
    ensures desks { DesksStandOn }
    ensures batches { BatchesStandOn }
    ensures priors { PriorsStandOn }
{}

/// A desk stands behind the events that it notes itself, and so does a batch of which not all is told to be stored.
pub fn desks_stand_behind_their_events()
    ensures stores { DesksStore }
    ensures fails { DesksFail }
    ensures batches { BatchesStandAbove }
{}

/// No two of the conditions meet under which a Get comes to a step. So it comes to the step whose condition holds.
pub fn reads_come_to_one_step()
    ensures apart { ReadStepsAreApart }
    ensures follows { ReadFollowsItsCondition }
    ensures waits { WaitingReadsAskNothing }
{}

/// Nor do two meet of a call that may put a document, and it lacks room for one reason. Where documents are
/// known and the vBucket serves, one that lacks nothing else is refused for want of room exactly where the history has none.
pub fn writes_come_to_one_step()
    ensures apart { WriteStepsAreApart }
    ensures follows { WriteFollowsItsCondition }
    ensures waits { WaitingWritesAskNothing }
    ensures room { RoomLacksForOne }
    ensures quota { QuotaIsWantOfRoom }
{}

/// What is so of a call at a stage that may put a document, over the history right before its event, where documents are known
/// and the vBucket serves: one that is answered had room, and it is refused for want of room only where there is none, exactly
/// there where it lacks nothing else.
pub fn tried_writes_are_refused_where_there_is_no_room()
    ensures { TriedQuotaIsWantOfRoom }
{}
