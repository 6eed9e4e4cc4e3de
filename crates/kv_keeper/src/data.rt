// What clauses see of a batch, a keeper and a desk: plain data. No value of these types is made.
use ep_model::DocData;
use std::collections::LinkedList;
use std::marker::Model;

/// A `Batch` as clauses see it: its documents under their keys, of which no two are equal.
pub struct BatchData {
    pub rows: LinkedList<(LinkedList<u8>, DocData)>,
    pub to: u64,
    pub maxcas: u64,
}

/// Any `Keeper` as clauses see it: what it holds if it tells that, whether this is in doubt, and how often it has
/// failed.
pub struct AnyKeeper {}

impl Model for AnyKeeper {
    ghost use Rattle.kv_keeper.specs.Content.{KeeperData, coded_keeper, silent_keeper};

    ghost Value = { KeeperData };

    ghost coded = { coded_keeper };

    ghost view = { λ _. silent_keeper };
}

/// A `Desk` as clauses see it, whatever its keeper is. `doubt` is the number up to which the keeper may hold the
/// history, where that isn't known.
pub struct DeskData {
    pub keeper: AnyKeeper,
    pub stored: u64,
    pub noted: u64,
    pub doubt: Option<u64>,
    pub read_faults: u64,
}
