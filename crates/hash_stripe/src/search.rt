// Searches among the slots.
ghost use Rattle.std.specs.Prelude.{◌≡◌, ◌<◌, ◌≤◌, length};
ghost use Rattle.std.specs.Option.{ForSome};
ghost use Rattle.hash_stripe.specs.Nodes.{at, slot_of, is_victim, first_of_age, victim};

use crate::table::Table;

/// Where the node of a key stands. Its cost is linear in the number of slots.
pub(crate) fn slot_of(table: &Table, key: &[u8]) -> Option<u32>
    ensures slot { result ≡ slot_of table.now key.now }
    ensures within { ForSome result (λ slot. slot < length table.now) }
{
    for slot in 0..table.count() {
        if table.has_key(slot, key) {
            return Some(slot);
        }
    }
    None
}

/// Whether a slot has a document of another key and of this age that may be ejected.
fn is_victim(table: &Table, slot: u32, mark: u64, key: &[u8], age: u8) -> bool
    requires { slot < length table.now }
    ensures { result ≡ is_victim mark key.now age (at table.now slot) }
{
    match table.look(slot) {
        None => false,
        Some(look) => {
            look.meta.seqno <= mark
                && (look.is_resident || look.meta.deleted)
                && !table.has_key(slot, key)
                && look.age == age
        }
    }
}

/// The first slot with such a document.
fn first_of_age(table: &Table, mark: u64, key: &[u8], age: u8) -> Option<u32>
    ensures slot { result ≡ first_of_age mark key.now age table.now }
    ensures within { ForSome result (λ slot. slot < length table.now) }
{
    for slot in 0..table.count() {
        if is_victim(table, slot, mark, key, age) {
            return Some(slot);
        }
    }
    None
}

/// Which document of another key is ejected next. Its cost is linear in the number of slots.
pub(crate) fn victim(table: &Table, mark: u64, key: &[u8]) -> Option<u32>
    ensures slot { result ≡ victim mark key.now table.now }
    ensures within { ForSome result (λ slot. slot < length table.now) }
{
    if let Some(slot) = first_of_age(table, mark, key, 3) {
        return Some(slot);
    }
    if let Some(slot) = first_of_age(table, mark, key, 2) {
        return Some(slot);
    }
    if let Some(slot) = first_of_age(table, mark, key, 1) {
        return Some(slot);
    }
    first_of_age(table, mark, key, 0)
}
