//! How a batch is read. The function does nothing: its contract is the law.
ghost use Rattle.ckpt_manager.specs.Walk.{ReadsGoOn, ReadsMeetAll};

/// Where [`Queue::take_from`](crate::Queue::take_from) reads on from a number, each time behind the number that it gave, the
/// items above that number are met one after the other, each within its limits. Once it gives none, all were met. So the
/// last item met of each key is the last one of that key above the number.
pub fn reads_meet_the_last_items()
    ensures goes_on { ReadsGoOn }
    ensures all { ReadsMeetAll }
{}
