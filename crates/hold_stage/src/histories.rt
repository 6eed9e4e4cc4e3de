//! What is true of every legal history, whether its documents are known or not. Each function does nothing: its contract
//! is the law.
ghost use Rattle.hold_stage.specs.Histories.{TicketsDiffer, LegalIsBounded, NumbersRise, UnopenedIsStart, MutationsAreNumbered, UptoStays, DocsStay, NoDocsStay, BatchLaw, NumbersStayWithin, OthersLeaveDesk, OpenIsUnstored, KeptAreLast};

/// Each ask has a ticket of its own.
pub fn tickets_differ()
    ensures { TicketsDiffer }
{}

/// What is marked is stored, what is stored was put, and none of these numbers falls, nor do they rise before the
/// vBucket opens. Mutations are numbered without
/// gaps, and where the start's documents are within its greatest numbers all documents are.
pub fn numbers_are_bounded()
    ensures bounded { LegalIsBounded }
    ensures rise { NumbersRise }
    ensures unopened { UnopenedIsStart }
    ensures numbered { MutationsAreNumbered }
    ensures within { NumbersStayWithin }
{}

/// What there was at a number stays what it was, and what wasn't changed since is still there.
pub fn numbers_keep_their_worlds()
    ensures stays { UptoStays }
    ensures docs { DocsStay }
    ensures none { NoDocsStay }
{}

/// The last mutations above a number, laid over the world at that number or at a later one, give the last world. So a
/// store that holds more than a batch begins with loses nothing by it.
pub fn batches_give_the_world()
    ensures { BatchLaw }
{}

/// What only who has the desk notes is left by all others.
pub fn others_leave_the_desk()
    ensures { OthersLeaveDesk }
{}

/// The open checkpoint holds nothing that is stored, and what is kept has the last mutation of each key that isn't.
pub fn checkpoints_keep_what_is_not_stored()
    ensures unstored { OpenIsUnstored }
    ensures last { KeptAreLast }
{}
