// Room for a document, made by ejecting others.
ghost use Rattle.std.specs.Prelude.{◌≡◌, ◌+◌, ◌<◌, ◌≤◌, ◌||◌, false, cond, length, map, count_by, None, nat_le};
ghost use Rattle.ep_model.specs.Limits.{max_value, IsKey, IsValue};
ghost use Rattle.value_pool.specs.Pools.{blocks_of};
ghost use Rattle.hash_stripe.specs.Nodes.{is_full_eviction, is_keyed, slot_pinned, others_pinned, at, used, others_blocks, victim, eject_at, EjectsOthers, slot_of, placed, cooled, is_resident, is_ejected};
ghost use Rattle.hash_stripe.specs.Stripes.{Fits, AreApart, AreKeyed};

use crate::found::Counts;
use crate::search;
use crate::table::Table;
use ep_model::{Eviction, Meta, rules};

/// Whether no node is left of a document that is ejected.
fn is_dropped(eviction: Eviction, deleted: bool) -> bool
    ensures { result ≡ is_full_eviction eviction || deleted }
{
    match eviction {
        Eviction::Value => deleted,
        Eviction::Full => true,
    }
}

/// Ejects a slot's document: under full eviction, and a tombstone under both, its node goes, else its value.
pub(crate) fn eject(table: &mut Table, eviction: Eviction, slot: u32)
    requires { slot < length table.old }
    ensures { table.new ≡ eject_at eviction table.old slot }
{
    match table.look(slot) {
        None => {}
        Some(look) => {
            if is_dropped(eviction, look.meta.deleted) {
                table.clear(slot);
            } else {
                table.drop_value(slot);
            }
        }
    }
}

/// How many blocks a document takes with this key and a value of this length.
pub(crate) fn document_blocks(key: &[u8], len: u32) -> u32
    requires key { IsKey key.now }
    requires len { len ≤ max_value }
    ensures { result ≡ blocks_of (length key.now) + blocks_of len }
{
    (rules::blocks(key.len()) + rules::blocks(len as usize)) as u32
}

/// How many blocks the node of a key takes.
pub(crate) fn own_blocks(table: &Table, key: &[u8]) -> u32
    requires { AreApart table.now }
    ensures { used table.now ≡ others_blocks key.now table.now + result }
{
    match search::slot_of(table, key) {
        None => 0,
        Some(slot) => table.blocks(slot),
    }
}

/// Ejects documents of other keys, one after the other, until `need` blocks fit beside what the others take, and answers
/// whether they do. The key's own node takes `own` blocks. Its cost is linear in the number of slots, for each document
/// that it ejects.
pub(crate) fn make_room(
    table: &mut Table,
    eviction: Eviction,
    mark: u64,
    key: &[u8],
    own: u32,
    need: u32,
) -> bool
    requires { used table.old ≡ others_blocks key.now table.old + own }
    ensures ejects { EjectsOthers eviction mark key.now need table.old table.new }
    ensures fits { result ≡ nat_le (others_blocks key.now table.new + need) (length table.new) }
    ensures own { used table.new ≡ others_blocks key.now table.new + own }
    ensures last { result ≡ false → victim mark key.now table.new ≡ None }
{
    while table.free() + own < need {
        match search::victim(table, mark, key) {
            Some(slot) => eject(table, eviction, slot),
            None => return false,
        }
    }
    true
}

/// The blocks of a slot's node that no ejecting frees.
fn slot_pinned(table: &Table, eviction: Eviction, mark: u64, slot: u32) -> u32
    requires { slot < length table.now }
    ensures { result ≡ slot_pinned eviction mark (at table.now slot) }
{
    match table.look(slot) {
        None => 0,
        Some(look) => {
            if mark < look.meta.seqno {
                table.blocks(slot)
            } else if is_dropped(eviction, look.meta.deleted) {
                0
            } else {
                table.key_blocks(slot)
            }
        }
    }
}

/// The same, but of the node of one key nothing.
fn pinned_beside(table: &Table, eviction: Eviction, mark: u64, slot: u32, key: &[u8]) -> u32
    requires { slot < length table.now }
    ensures { result ≡ cond (is_keyed key.now (at table.now slot)) 0
        (slot_pinned eviction mark (at table.now slot)) }
{
    if table.has_key(slot, key) {
        0
    } else {
        slot_pinned(table, eviction, mark, slot)
    }
}

/// The blocks of the nodes of other keys that no ejecting frees. Its cost is linear in the number of slots.
pub(crate) fn others_pinned(table: &Table, eviction: Eviction, mark: u64, key: &[u8]) -> u32
    ensures { result ≡ others_pinned eviction mark key.now table.now }
{
    // tells that the slots are few, so that the sum is within its type
    let _free = table.free();
    let mut pinned = 0;
    for slot in 0..table.count() {
        pinned += pinned_beside(table, eviction, mark, slot, key);
    }
    pinned
}

/// Puts a document in place of its key's node, or into the first empty slot, where its blocks fit.
pub(crate) fn put(table: &mut Table, key: &[u8], meta: Meta, value: &[u8])
    requires key { IsKey key.now }
    requires value { IsValue value.now }
    requires apart { AreApart table.old }
    requires keyed { AreKeyed table.old }
    requires fits { Fits key.now (blocks_of (length key.now) + blocks_of (length value.now))
        table.old }
    ensures { table.new ≡ placed table.old (record {
      key = key.now;
      meta = meta;
      value = Some value.now;
      age = 0;
    }) }
{
    match search::slot_of(table, key) {
        Some(slot) => {
            table.clear(slot);
            table.fill(slot, key, meta, value);
        }
        None => match table.first_empty() {
            Some(slot) => table.fill(slot, key, meta, value),
            None => unreachable!(),
        },
    }
}

/// Puts a node without a value into the first empty slot, where its key has none and its blocks fit.
pub(crate) fn put_ejected(table: &mut Table, key: &[u8], meta: Meta)
    requires key { IsKey key.now }
    requires absent { slot_of table.old key.now ≡ None }
    requires keyed { AreKeyed table.old }
    requires fits { used table.old + blocks_of (length key.now) ≤ length table.old }
    ensures { table.new
        ≡ placed table.old (record { key = key.now; meta = meta; value = None; age = 0 }) }
{
    match table.first_empty() {
        Some(slot) => table.fill_ejected(slot, key, meta),
        None => unreachable!(),
    }
}

/// Makes every node one older, at most 3.
pub(crate) fn cool(table: &mut Table)
    ensures { table.new ≡ map cooled table.old }
{
    for slot in 0..table.count() {
        table.cool(slot);
    }
}

/// Whether a slot's node has a value.
fn is_resident(table: &Table, slot: u32) -> bool
    requires { slot < length table.now }
    ensures { result ≡ is_resident (at table.now slot) }
{
    match table.look(slot) {
        None => false,
        Some(look) => look.is_resident,
    }
}

/// Whether a slot has a node without a value.
fn is_ejected(table: &Table, slot: u32) -> bool
    requires { slot < length table.now }
    ensures { result ≡ is_ejected (at table.now slot) }
{
    match table.look(slot) {
        None => false,
        Some(look) => !look.is_resident,
    }
}

/// How many nodes have a value, and how many don't.
pub(crate) fn counts(table: &Table) -> Counts
    ensures resident { result.resident ≡ count_by is_resident table.now }
    ensures ejected { result.ejected ≡ count_by is_ejected table.now }
{
    let mut resident = 0;
    let mut ejected = 0;
    for slot in 0..table.count() {
        resident += u32::from(is_resident(table, slot));
        ejected += u32::from(is_ejected(table, slot));
    }
    Counts { resident, ejected }
}
