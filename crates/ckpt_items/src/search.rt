// Items by their number and by their key.
ghost use Rattle.std.specs.Prelude.{◌≡◌, ◌+◌, ◌<◌, ◌≤◌, ◌↔◌, ℕ, IsTrue, length, drop, slice_index_or};
ghost use Rattle.std.specs.List.{find, remove};
ghost use Rattle.std.specs.VecDeque.{deque_capacity};
ghost use Rattle.value_pool.specs.Pools.{bytes_at};
ghost use Rattle.ckpt_items.specs.declared.item.Item.{Item};
ghost use Rattle.ckpt_items.specs.Items.{is_of, number_of};
ghost use Rattle.ckpt_items.specs.Stored.{datas, IsPlace, IsRising};

use crate::item::Item;
use std::collections::VecDeque;
use value_pool::Pool;

// How many items have numbers below this one: a binary search.
fn below(items: &VecDeque<Item>, seqno: u64) -> usize
    requires { IsRising items.now.items }
    ensures bound { result ≤ length items.now.items }
    ensures before { (k : ℕ) (d : Item) → k < result
        → (slice_index_or items.now.items k d).meta.seqno < seqno }
    ensures behind { (k : ℕ) (d : Item) → result ≤ k → k < length items.now.items → seqno
        ≤ (slice_index_or items.now.items k d).meta.seqno }
{
    items.partition_point(|item| item.meta.seqno < seqno)
}

// How many items have numbers up to this one: a binary search.
pub fn up_to(items: &VecDeque<Item>, seqno: u64) -> usize
    requires { IsRising items.now.items }
    ensures bound { result ≤ length items.now.items }
    ensures before { (k : ℕ) (d : Item) → k < result
        → (slice_index_or items.now.items k d).meta.seqno ≤ seqno }
    ensures behind { (k : ℕ) (d : Item) → result ≤ k → k < length items.now.items → seqno
        < (slice_index_or items.now.items k d).meta.seqno }
{
    items.partition_point(|item| item.meta.seqno <= seqno)
}

// The place of the item with this number.
pub fn place(items: &VecDeque<Item>, seqno: u64) -> Option<usize>
    requires { IsRising items.now.items }
    ensures { IsPlace items.now.items seqno result }
{
    let place = below(items, seqno);
    if place == items.len() {
        return None;
    }
    if items[place].meta.seqno == seqno {
        Some(place)
    } else {
        None
    }
}

// Whether the item has this key.
fn has_key(item: &Item, pool: &Pool, key: &[u8]) -> bool
    ensures { IsTrue result ↔ (bytes_at pool.now item.now.key ≡ key.now) }
{
    pool.equals(&item.key, key)
}

// The number of the first item from the place `from` on that has this key. It looks at one item after the other.
pub fn find_from(items: &VecDeque<Item>, pool: &Pool, from: usize, key: &[u8]) -> Option<u64>
    requires { from ≤ length items.now.items }
    ensures { result ≡ number_of (find (is_of key.now)
        (drop from (datas pool.now items.now.items))) }
{
    for index in from..items.len() {
        let item = &items[index];
        if has_key(item, pool, key) {
            return Some(item.meta.seqno);
        }
    }
    None
}

// Takes an item out of its place.
pub fn take(items: &mut VecDeque<Item>, index: usize) -> Item
    requires { index < length items.old.items }
    ensures value { result ≡ slice_index_or items.old.items index result }
    ensures items { items.new.items ≡ remove items.old.items index }
    ensures capacity { deque_capacity items.new ≡ deque_capacity items.old }
{
    match items.remove(index) {
        Some(item) => item,
        None => unreachable!(),
    }
}

// How many of the first `count` items are left without the one at `index`.
pub fn count_without(count: usize, index: usize) -> usize
    ensures less { index < count → result + 1 ≡ count }
    ensures same { count ≤ index → result ≡ count }
{
    if index < count { count - 1 } else { count }
}
