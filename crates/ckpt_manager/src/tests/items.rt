// Items over three blocks.
ghost use Rattle.std.specs.Prelude.{◌≡◌, ◌≤◌, []};

use ckpt_items::{Items, Short};
use ep_model::{Meta, Out};
use std::alloc::Global;

// The metadata of a live document with this number.
fn meta_of(seqno: u64, len: u32) -> Meta
    ensures seqno { result.seqno ≡ seqno }
    ensures len { result.len ≡ len }
{
    Meta {
        flags: 0,
        expiry: 0,
        cas: seqno,
        seqno,
        deleted: false,
        len,
    }
}

// What look-ups tell of a key that has an item in a closed checkpoint and one in the open one.
fn found(items: &mut Items) -> Result<[Option<u64>; 6], Short>
    requires { items.old ≡ record { closed = []; last = []; blocks = 3 } }
{
    items.push(b"a", meta_of(1, 2), b"xy")?;
    let open = items.find_open(b"a");
    items.close_open();
    let closed = items.find_open(b"a");
    items.push(b"a", meta_of(3, 0), b"")?;
    let between = [items.find_open(b"a"), items.after(1), items.after(3)];
    items.drop_item(1);
    let [key, next, none] = between;
    Ok([open, closed, key, next, none, items.after(0)])
}

// Whether items over three blocks are found and dropped as they should.
fn are_found(alloc: Global) -> bool {
    let Ok(mut items) = Items::new(alloc, 3) else {
        return false;
    };
    found(&mut items) == Ok([Some(1), None, Some(3), Some(3), None, Some(3)])
        && [items.free(), items.count()] == [2, 1]
}

#[test]
fn items_are_found_and_dropped(rt: HostRuntime) {
    assert!(rt; are_found(rt.alloc()));
}

// The bytes and the metadata of an item, and what is said of one too many.
fn put(items: &mut Items, out: &mut Out) -> Result<(Option<Meta>, Option<Short>), Short>
    requires items { items.old ≡ record { closed = []; last = []; blocks = 2 } }
    requires out { 3 ≤ out.old.spare }
{
    items.push(b"a", meta_of(1, 2), b"xy")?;
    let short = items.push(b"b", meta_of(4, 0), b"").err();
    items.value_to(1, out);
    items.key_to(1, out);
    items.key_to(2, out);
    Ok((items.meta(1), short))
}

// Whether the bytes of an item are appended, and one too many is refused.
fn are_appended(alloc: Global) -> bool {
    let Ok(mut items) = Items::new(alloc, 2) else {
        return false;
    };
    let Ok(mut out) = Out::new(alloc, 8) else {
        return false;
    };
    let told = put(&mut items, &mut out);
    told == Ok((Some(meta_of(1, 2)), Some(Short { free: 0, need: 1 })))
        && out.bytes() == b"xya".as_slice()
}

#[test]
fn bytes_are_appended(rt: HostRuntime) {
    assert!(rt; are_appended(rt.alloc()));
}
