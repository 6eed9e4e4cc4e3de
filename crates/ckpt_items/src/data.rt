// What clauses see of items: plain data. No value of these types is made.
use ep_model::Meta;
use std::collections::LinkedList;

/// An item as clauses see it: a mutation under its key. Its number is that of its metadata.
pub struct ItemData {
    pub key: LinkedList<u8>,
    pub meta: Meta,
    pub value: LinkedList<u8>,
}

/// Items as clauses see them: those of the closed checkpoints, and those of the last one, which is open. They lie in
/// so many blocks.
pub struct ItemsData {
    pub closed: LinkedList<ItemData>,
    pub last: LinkedList<ItemData>,
    pub blocks: u32,
}
