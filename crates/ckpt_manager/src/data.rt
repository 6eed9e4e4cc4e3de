// What clauses see of a queue: plain data, in which bytes are lists. No value of this type is made.
use ckpt_items::ItemData;
use ep_model::VbState;
use std::collections::LinkedList;

/// A queue as clauses see it. `closed` are the items of the closed checkpoints and `last` those of the open one, whose
/// id is `id`, all in the order of their numbers. They share `blocks` blocks, and a checkpoint holds at most `ckpt_max`
/// keys. `cursor` is the persistence cursor's position; its backup stands at `persisted`. `named` are the other cursors.
/// `high` and `maxcas` are the greatest sequence number and CAS. `table` is the failover table, newest first.
pub struct QueueData {
    pub closed: LinkedList<ItemData>,
    pub last: LinkedList<ItemData>,
    pub id: u64,
    pub blocks: u32,
    pub ckpt_max: u32,
    pub cursor: u64,
    pub persisted: u64,
    pub named: LinkedList<(u32, u64)>,
    pub high: u64,
    pub maxcas: u64,
    pub table: LinkedList<(u64, u64)>,
    pub state: VbState,
    pub opened: bool,
}
