// What a queue begins with and keeps beside its items.
use super::{put, queue_of};
use crate::Queue;
use ep_model::VbState;
use failover_table::Failovers;
use std::alloc::Global;

fn numbers(queue: &Queue) -> [u64; 5] {
    [
        queue.high(),
        queue.maxcas(),
        queue.persisted(),
        queue.cursor(),
        queue.checkpoint_id(),
    ]
}

/// Whether a queue that begins behind nine mutations has their numbers, and the next one's then.
fn begins(alloc: Global) -> bool {
    let mut table = Failovers::new();
    table.add(7, 3);
    let Ok(mut queue) = queue_of(alloc, 16, 2) else {
        return false;
    };
    queue.start(9, 20, &table);
    let began = numbers(&queue);
    let number = put(&mut queue, b"a", b"xy");
    [began, numbers(&queue)] == [[9, 20, 9, 9, 1], [10, 21, 9, 9, 1]]
        && (number, queue.table().entry(0)) == (Some(10), Some((7, 3)))
}

#[test]
fn a_queue_begins_behind_what_is_stored(rt: HostRuntime) {
    assert!(rt; begins(rt.alloc()));
}

/// A queue's state and whether it has opened, before they are set and then.
fn set(queue: &mut Queue) -> [(VbState, bool); 2] {
    let began = (queue.state(), queue.is_opened());
    queue.set_state(VbState::Replica);
    queue.set_opened();
    [began, (queue.state(), queue.is_opened())]
}

/// Whether a new queue is active and hasn't opened, and takes another state.
fn is_set(alloc: Global) -> bool {
    let Ok(mut queue) = queue_of(alloc, 16, 2) else {
        return false;
    };
    set(&mut queue) == [(VbState::Active, false), (VbState::Replica, true)]
}

#[test]
fn a_state_is_set_and_opening_is_noted(rt: HostRuntime) {
    assert!(rt; is_set(rt.alloc()));
}
