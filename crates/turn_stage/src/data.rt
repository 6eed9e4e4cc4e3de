// What clauses see of a pass: plain data. No value of these types is made.
use ep_model::{FrontData, PartName};
use std::collections::LinkedList;

/// What a pass knows. `front` is what it knows of the history, `caller` its number, `held` the parts that it holds, and
/// `hand` the part that is just then on the way between it and its slot. `live` is false once the pass was joined to
/// another: what is left of it counts for nothing. `desk` is whether it is the desk's. From `next` up to `end` are the
/// caller numbers that it can still give. `share` is its share of all 2^64 numbers, and at the only pass that is left it
/// is all of them. `losses` is how often it found a part with somebody else; it has no bound, since no byte holds it.
/// `ended` has the callers whose passes were joined into this one, each with the last front of its pass. `last` is the
/// join that was just then made, if any.
pub struct View {
    pub front: FrontData,
    pub caller: u64,
    pub live: bool,
    pub held: LinkedList<PartName>,
    pub hand: Option<PartName>,
    pub desk: bool,
    pub next: u64,
    pub end: u64,
    pub share: u64,
    pub losses: u64,
    pub ended: LinkedList<(u64, FrontData)>,
    pub last: LinkedList<JoinData>,
}

/// The fronts of two passes that were joined, with their callers and whether they were the desk's, and the front that
/// came of it.
pub struct JoinData {
    pub first: FrontData,
    pub caller: u64,
    pub desk: bool,
    pub second: FrontData,
    pub other: u64,
    pub other_desk: bool,
    pub longer: FrontData,
}

/// What no call on a stage changes of its pass: the numbers that it can give, its share, and the callers of passes that
/// were joined to it, with their last fronts.
pub struct PassData {
    pub next: u64,
    pub end: u64,
    pub share: u64,
    pub ended: LinkedList<(u64, FrontData)>,
}
