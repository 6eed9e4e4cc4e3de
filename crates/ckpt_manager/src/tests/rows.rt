// Numbers, ids and room, worked out by hand.
use super::{persist, put, queue_of};
use crate::Queue;
use std::alloc::Global;

/// Whether each key is queued under its number, and the open checkpoint then has that id.
fn are_queued(queue: &mut Queue, rows: &[(u8, u64, u64)]) -> bool {
    for (key, number, id) in rows {
        if put(queue, &[*key], &[]) != Some(*number) || queue.checkpoint_id() != *id {
            return false;
        }
    }
    true
}

/// Whether these are the numbers that are read one after the other behind a number.
fn are_read(queue: &Queue, seqno: u64, wanted: &[u64]) -> bool {
    let mut at = seqno;
    for number in wanted {
        if queue.take_from(at) != Some(*number) {
            return false;
        }
        at = *number;
    }
    queue.take_from(at).is_none()
}

/// The cursor behind each of three calls, and the open checkpoint's id.
fn cursors(queue: &mut Queue) -> [u64; 4] {
    queue.advance();
    let ahead = queue.cursor();
    queue.fall_back();
    let behind = queue.cursor();
    let _ = persist(queue, 5);
    [ahead, behind, queue.cursor(), queue.checkpoint_id()]
}

/// Whether a key has one item a checkpoint, in a queue of two keys a checkpoint.
fn has_one_item(queue: &mut Queue) -> bool {
    are_queued(queue, &[(b'a', 1, 1), (b'b', 2, 1), (b'a', 3, 1)])
        && are_read(queue, 0, &[2, 3])
        && are_queued(queue, &[(b'c', 4, 2), (b'a', 5, 2)])
        && are_read(queue, 0, &[2, 3, 4, 5])
        && cursors(queue) == [5, 0, 5, 3]
        && queue.room_for(b"a", 0).is_ok()
}

/// Whether it is so in a new queue.
fn is_so(alloc: Global) -> bool {
    let Ok(mut queue) = queue_of(alloc, 64, 2) else {
        return false;
    };
    has_one_item(&mut queue)
}

#[test]
fn a_key_has_one_item_a_checkpoint(rt: HostRuntime) {
    assert!(rt; is_so(rt.alloc()));
}

/// Whether there is room for a value of a second key, for one in place of the first, and for the former once that is stored.
fn has_room(queue: &mut Queue) -> [bool; 3] {
    let first = put(queue, b"a", &[0; 1792]).is_some() && queue.room_for(b"b", 256).is_ok();
    let in_place = queue.room_for(b"a", 1920).is_ok();
    queue.advance();
    let _ = persist(queue, 1);
    [first, in_place, queue.room_for(b"b", 256).is_ok()]
}

/// Whether 16 blocks have room for what they should.
fn makes_room(alloc: Global) -> bool {
    let Ok(mut queue) = queue_of(alloc, 16, 500) else {
        return false;
    };
    has_room(&mut queue) == [false, true, true] && queue.high() == 1
}

#[test]
fn what_the_store_has_makes_room(rt: HostRuntime) {
    assert!(rt; makes_room(rt.alloc()));
}
