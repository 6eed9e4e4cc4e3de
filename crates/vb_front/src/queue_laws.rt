//! What is true of all queues that stand for a history: which events they stand behind once they have taken part in them.
//! Each function does nothing: its contract is the law.
ghost use Rattle.vb_front.specs.Queues.{QueuesTakeMutations, QueuesTakeCalls, QueuesStandBehindAnswers};
ghost use Rattle.vb_front.specs.Queues.{QueuesStandBehindRefusals, QueuesSetStates, QueuesOpen, QueuesExpel};
ghost use Rattle.vb_front.specs.Queues.{QueuesStore, QueuesAreRead, QueuesAreReadAgain, KeptIsMeasured, ShortIsOverfull};
ghost use Rattle.vb_front.specs.Queues.{ShortIsQuota};
ghost use Rattle.vb_front.specs.Batches.{QueuesHoldBatches, QueuesHoldNumbers};

/// A queue that took what a call or another event put stands behind that event.
pub fn queues_take_mutations()
    ensures events { QueuesTakeMutations }
    ensures calls { QueuesTakeCalls }
{}

/// A queue stands on behind a call that puts nothing, and behind one that is refused.
pub fn queues_stand_behind_calls()
    ensures answers { QueuesStandBehindAnswers }
    ensures refusals { QueuesStandBehindRefusals }
{}

/// A queue that opened, or that set the state which a call sets, stands behind that.
pub fn queues_open_and_set_states()
    ensures opens { QueuesOpen }
    ensures states { QueuesSetStates }
{}

/// A queue stands on when items go that every cursor has passed, and when the flusher reads on, stores and falls back.
pub fn queues_are_flushed()
    ensures expels { QueuesExpel }
    ensures stores { QueuesStore }
    ensures reads { QueuesAreRead }
    ensures again { QueuesAreReadAgain }
{}

/// Where documents are known, a queue has no room for the next mutation's document exactly where the checkpoints have none. A
/// call on a key of a vBucket that serves may be refused where the queue has no room for its document.
pub fn queues_measure_what_is_kept()
    ensures kept { KeptIsMeasured }
    ensures short { ShortIsOverfull }
    ensures quota { ShortIsQuota }
{}

/// Whoever reads a queue on from a number that isn't below what is stored meets the last mutation of each key behind it.
pub fn queues_hold_batches()
    ensures batches { QueuesHoldBatches }
    ensures numbers { QueuesHoldNumbers }
{}
