// Nodes in slots, with their bytes in a pool.
ghost use Rattle.std.specs.Prelude.{◌≡◌, ◌+◌, ◌≤◌, ◌++◌, length, take, drop, MatchOption};
ghost use Rattle.ep_model.specs.Limits.{max_key, IsValue};
ghost use Rattle.value_pool.specs.Pools.{blocks_of, bytes_at, Puts, TakesBack};
ghost use Rattle.stored_value.specs.Ages.{older};

use crate::found::Look;
use ep_model::limits::MAX_KEY;
use ep_model::{Meta, NoMemory, Out, rules};
use std::alloc::Global;
use std::marker::Model;
use stored_value::{Node, Slots};
use value_pool::{Chain, Pool};

/// As many slots as blocks, each empty or with a node. Clauses see a list. All room is taken by `new`.
#[derive(Drop)]
pub(crate) struct Table {
    pool: Pool,
    slots: Slots<Chain>,
}

impl Model for Table {
    ghost use Rattle.std.specs.Prelude.{List, []};
    ghost use Rattle.hash_stripe.specs.Nodes.{Slot};
    ghost use Rattle.hash_stripe.specs.Chains.{slots_of, IsKept};

    ghost Value = { List Slot };

    ghost view = { λ t. slots_of t.pool.texts t.slots };

    ghost invariant = { λ t. IsKept t.pool t.slots [] };
}

impl Table {
    ghost use Rattle.std.specs.Prelude.{◌≡◌, ◌+◌, ◌<◌, ◌≤◌, ◌++◌, length, drop, None, Some, IfOk, slice_set, replicate};
    ghost use Rattle.std.specs.Option.{ForSome};
    ghost use Rattle.ep_model.specs.Config.{max_blocks};
    ghost use Rattle.ep_model.specs.Limits.{max_key, IsKey, IsValue};
    ghost use Rattle.hash_stripe.specs.Nodes.{used, at, slot_blocks, is_keyed, first_empty, heated, cooled};
    ghost use Rattle.value_pool.specs.Pools.{all_free};
    ghost use Rattle.hash_stripe.specs.Looks.{look_of, without_value};
    ghost use Rattle.hash_stripe.specs.Stripes.{key_of, key_len_of, resident_value, text_of};

    /// So many empty slots, and as many free blocks. Its cost is linear in their number.
    pub(crate) fn new(alloc: Global, blocks: u32) -> Result<Table, NoMemory>
        requires { blocks ≤ max_blocks }
        ensures { IfOk result (λ table. table ≡ replicate blocks None) }
    {
        let Ok(pool) = Pool::new(alloc, blocks) else {
            return Err(NoMemory);
        };
        let slots = Slots::new(alloc, blocks)?;
        Ok(Table::over(pool, slots, blocks))
    }

    /// The table of a pool and of slots, so many each, that nothing is in.
    fn over(pool: Pool, slots: Slots<Chain>, blocks: u32) -> Table
        requires few { blocks ≤ max_blocks }
        requires pool { pool ≡ all_free blocks }
        requires slots { slots ≡ replicate blocks None }
        ensures { result ≡ replicate blocks None }
    {
        Table { pool, slots }
    }

    /// How many slots there are.
    pub(crate) fn count(&self) -> u32
        ensures { result ≡ length self.now }
    {
        self.slots.count()
    }

    /// How many blocks no node takes.
    pub(crate) fn free(&self) -> u32
        ensures free { result + used self.now ≡ length self.now }
        ensures few { length self.now ≤ max_blocks }
    {
        self.pool.free()
    }

    /// The first empty slot. Its cost is linear in the number of slots.
    pub(crate) fn first_empty(&self) -> Option<u32>
        ensures slot { result ≡ first_empty self.now }
        ensures within { ForSome result (λ slot. slot < length self.now) }
    {
        self.slots.first_empty()
    }

    /// What a slot shows of its node.
    pub(crate) fn look(&self, slot: u32) -> Option<Look>
        requires { slot < length self.now }
        ensures { result ≡ look_of (at self.now slot) }
    {
        match self.slots.node(slot) {
            None => None,
            Some(node) => Some(Look {
                meta: node.meta,
                is_resident: node.value.is_some(),
                age: node.age,
            }),
        }
    }

    /// Whether a slot has the node of this key. Its cost is linear in the key.
    pub(crate) fn has_key(&self, slot: u32, key: &[u8]) -> bool
        requires { slot < length self.now }
        ensures { result ≡ is_keyed key.now (at self.now slot) }
    {
        match self.slots.node(slot) {
            None => false,
            Some(node) => self.pool.equals(&node.key, key),
        }
    }

    /// How many blocks a slot's node takes.
    pub(crate) fn blocks(&self, slot: u32) -> u32
        requires { slot < length self.now }
        ensures blocks { result ≡ slot_blocks (at self.now slot) }
    {
        match self.slots.node(slot) {
            None => 0,
            Some(node) => chain_blocks(&self.pool, &node.key) + value_blocks(&self.pool, node),
        }
    }

    /// How many blocks the key of a slot's node takes.
    pub(crate) fn key_blocks(&self, slot: u32) -> u32
        requires { slot < length self.now }
        ensures { result ≡ blocks_of (length (key_of (at self.now slot))) }
    {
        match self.slots.node(slot) {
            None => 0,
            Some(node) => chain_blocks(&self.pool, &node.key),
        }
    }

    /// Appends the key of a slot's node.
    pub(crate) fn key_to(&self, slot: u32, out: &mut Out)
        requires slot { slot < length self.now }
        requires room { length (key_of (at self.now slot)) ≤ out.old.spare }
        ensures bytes { out.new.bytes ≡ out.old.bytes ++ key_of (at self.now slot) }
        ensures room { out.new.spare + length out.new.bytes ≡ out.old.spare + length out.old.bytes }
    {
        if let Some(node) = self.slots.node(slot) {
            append(&self.pool, &node.key, out);
        }
    }

    /// Writes the key of a slot's node to the front of `into`, and answers its length.
    pub(crate) fn key_into(&self, slot: u32, into: &mut [u8; MAX_KEY]) -> Option<u8>
        requires slot { slot < length self.now }
        requires room { length (key_of (at self.now slot)) ≤ max_key }
        ensures len { result ≡ key_len_of (at self.now slot) }
        ensures key { into.new ≡ key_of (at self.now slot)
            ++ drop (length (key_of (at self.now slot))) into.old }
    {
        match self.slots.node(slot) {
            None => None,
            Some(node) => Some(copy(&self.pool, &node.key, into)),
        }
    }

    /// Appends the value of a slot's node where it is resident.
    pub(crate) fn value_to(&self, slot: u32, out: &mut Out)
        requires slot { slot < length self.now }
        requires room { length (text_of (resident_value (at self.now slot))) ≤ out.old.spare }
        ensures bytes { out.new.bytes ≡ out.old.bytes
            ++ text_of (resident_value (at self.now slot)) }
        ensures room { out.new.spare + length out.new.bytes ≡ out.old.spare + length out.old.bytes }
    {
        if let Some(node) = self.slots.node(slot) {
            if let Some(value) = &node.value {
                append(&self.pool, value, out);
            }
        }
    }

    /// Notes that a slot's document is used.
    pub(crate) fn heat(&mut self, slot: u32)
        requires { slot < length self.old }
        ensures { self.new ≡ slice_set self.old slot (heated (at self.old slot)) }
    {
        match self.slots.swap(slot, None) {
            Some(node) => {
                let _ = self.slots.swap(slot, Some(heated(node)));
            }
            None => {}
        }
    }

    /// Makes a slot's node one older.
    pub(crate) fn cool(&mut self, slot: u32)
        requires { slot < length self.old }
        ensures { self.new ≡ slice_set self.old slot (cooled (at self.old slot)) }
    {
        match self.slots.swap(slot, None) {
            Some(node) => {
                let _ = self.slots.swap(slot, Some(cooled(node)));
            }
            None => {}
        }
    }

    /// Empties a slot.
    pub(crate) fn clear(&mut self, slot: u32)
        requires { slot < length self.old }
        ensures { self.new ≡ slice_set self.old slot None }
    {
        match self.slots.swap(slot, None) {
            Some(node) => {
                let key = take_value(&mut self.pool, node).key;
                self.pool.take_back(key);
            }
            None => {}
        }
    }

    /// Drops the value of a slot's node where it is resident.
    pub(crate) fn drop_value(&mut self, slot: u32)
        requires { slot < length self.old }
        ensures { self.new ≡ slice_set self.old slot (without_value (at self.old slot)) }
    {
        match self.slots.swap(slot, None) {
            Some(node) => {
                let node = take_value(&mut self.pool, node);
                let _ = self.slots.swap(slot, Some(node));
            }
            None => {}
        }
    }

    /// Puts a node with its value into an empty slot. Its cost is linear in the bytes, which it copies.
    pub(crate) fn fill(&mut self, slot: u32, key: &[u8], meta: Meta, value: &[u8])
        requires slot { slot < length self.old }
        requires empty { at self.old slot ≡ None }
        requires key { IsKey key.now }
        requires value { IsValue value.now }
        requires room { used self.old + (blocks_of (length key.now) + blocks_of (length value.now))
            ≤ length self.old }
        ensures { self.new ≡ slice_set self.old slot
            (Some (record { key = key.now; meta = meta; value = Some value.now; age = 0 })) }
    {
        let key = put(&mut self.pool, key);
        let value = put(&mut self.pool, value);
        let node = Node {
            key,
            value: Some(value),
            meta,
            age: 0,
        };
        let _ = self.slots.swap(slot, Some(node));
    }

    /// Puts a node without a value into an empty slot.
    pub(crate) fn fill_ejected(&mut self, slot: u32, key: &[u8], meta: Meta)
        requires slot { slot < length self.old }
        requires empty { at self.old slot ≡ None }
        requires key { IsKey key.now }
        requires room { used self.old + blocks_of (length key.now) ≤ length self.old }
        ensures { self.new ≡ slice_set self.old slot
            (Some (record { key = key.now; meta = meta; value = None; age = 0 })) }
    {
        let node = Node {
            key: put(&mut self.pool, key),
            value: None,
            meta,
            age: 0,
        };
        let _ = self.slots.swap(slot, Some(node));
    }
}

/// The node as it is when its document is used.
fn heated(node: Node<Chain>) -> Node<Chain>
    ensures { result ≡ record node { age = 0 } }
{
    let mut node = node;
    node.heat();
    node
}

/// The node one older.
fn cooled(node: Node<Chain>) -> Node<Chain>
    ensures { result ≡ record node { age = older node.age } }
{
    let mut node = node;
    node.cool();
    node
}

/// How many blocks a chain takes.
fn chain_blocks(pool: &Pool, chain: &Chain) -> u32
    ensures { result ≡ blocks_of (length (bytes_at pool.now chain.now)) }
{
    rules::blocks(pool.len(chain) as usize) as u32
}

/// How many blocks a node's value takes.
fn value_blocks(pool: &Pool, node: &Node<Chain>) -> u32
    ensures { MatchOption node.now.value (result ≡ 0)
        (λ c. result ≡ blocks_of (length (bytes_at pool.now c))) }
{
    match &node.value {
        None => 0,
        Some(value) => chain_blocks(pool, value),
    }
}

/// Puts bytes for which there is room.
fn put(pool: &mut Pool, bytes: &[u8]) -> Chain
    requires len { IsValue bytes.now }
    requires room { blocks_of (length bytes.now) ≤ pool.old.free }
    ensures { Puts pool.old pool.new result bytes.now }
{
    match pool.put(bytes) {
        Ok(chain) => chain,
        Err(_) => unreachable!(),
    }
}

/// Gives a node's value back to the pool.
fn take_value(pool: &mut Pool, node: Node<Chain>) -> Node<Chain>
    ensures node { result ≡ record node { value = None } }
    ensures pool { MatchOption node.value (pool.new ≡ pool.old)
        (λ c. TakesBack pool.old pool.new c) }
{
    let Node {
        key,
        value,
        meta,
        age,
    } = node;
    if let Some(value) = value {
        pool.take_back(value);
    }
    Node {
        key,
        value: None,
        meta,
        age,
    }
}

/// Appends the bytes of a chain, for which there is room. Its cost is linear in their number.
fn append(pool: &Pool, chain: &Chain, out: &mut Out)
    requires { length (bytes_at pool.now chain.now) ≤ out.old.spare }
    ensures bytes { out.new.bytes ≡ out.old.bytes ++ bytes_at pool.now chain.now }
    ensures room { out.new.spare + length out.new.bytes ≡ out.old.spare + length out.old.bytes }
{
    let mut pieces = pool.pieces(chain);
    while let Some(piece) = pieces.next_piece() {
        out.push(piece);
    }
}

/// Writes bytes from `at` on.
fn write_at(into: &mut [u8; MAX_KEY], at: usize, bytes: &[u8])
    requires { at + length bytes.now ≤ max_key }
    ensures { into.new ≡ take at into.old ++ bytes.now ++ drop (at + length bytes.now) into.old }
{
    into[at..at + bytes.len()].copy_from_slice(bytes);
}

/// Writes the bytes of a chain to the front of `into`, and answers how many they are. Its cost is linear in their number.
fn copy(pool: &Pool, chain: &Chain, into: &mut [u8; MAX_KEY]) -> u8
    requires { length (bytes_at pool.now chain.now) ≤ max_key }
    ensures len { result ≡ length (bytes_at pool.now chain.now) }
    ensures bytes { into.new ≡ bytes_at pool.now chain.now
        ++ drop (length (bytes_at pool.now chain.now)) into.old }
{
    let mut at = 0;
    let mut pieces = pool.pieces(chain);
    while let Some(piece) = pieces.next_piece() {
        write_at(into, at, piece);
        at += piece.len();
    }
    at as u8
}
