// Nodes that grow older, and places that are filled and emptied.
use ep_model::Meta;
use std::alloc::Global;
use stored_value::{Node, Slots};

fn node(key: u32, age: u8) -> Node<u32> {
    Node {
        key,
        value: None,
        meta: Meta {
            flags: 0,
            expiry: 0,
            cas: 1,
            seqno: 1,
            deleted: false,
            len: 0,
        },
        age,
    }
}

/// The age of a node that is one older, and when it was used then.
fn ages(age: u8) -> [u8; 2] {
    let mut node = node(7, age);
    node.cool();
    let cooled = node.age;
    node.heat();
    [cooled, node.age]
}

#[test]
fn nodes_grow_older(rt: HostRuntime) {
    let ages = [ages(0), ages(1), ages(2), ages(3)];
    assert!(rt; ages == [[1, 0], [2, 0], [3, 0], [3, 0]]);
}

/// Puts a node into a place, or empties it, and answers the key that was there and the least empty place.
fn swap(slots: &mut Slots<u32>, slot: u32, node: Option<Node<u32>>) -> (Option<u32>, Option<u32>) {
    if slot >= slots.count() {
        return (None, None);
    }
    let key = match slots.swap(slot, node) {
        None => None,
        Some(node) => Some(node.key),
    };
    (key, slots.first_empty())
}

/// Fills two places, and empties the first.
fn fill(slots: &mut Slots<u32>) -> [(Option<u32>, Option<u32>); 3] {
    [
        swap(slots, 0, Some(node(7, 0))),
        swap(slots, 1, Some(node(8, 0))),
        swap(slots, 0, None),
    ]
}

fn filled(alloc: Global) -> Option<[(Option<u32>, Option<u32>); 3]> {
    match Slots::new(alloc, 2) {
        Ok(mut slots) => Some(fill(&mut slots)),
        Err(_) => None,
    }
}

#[test]
fn places_are_filled_in_order(rt: HostRuntime) {
    let wanted = [(None, Some(1)), (None, None), (Some(7), Some(0))];
    assert!(rt; filled(rt.alloc()) == Some(wanted));
}
