// Named cursors, as many as there may be.
use ckpt_cursors::{CursorFault, Cursors};

// Eight cursors, each one lower than the one before it.
fn eight() -> Cursors {
    let mut cursors = Cursors::new();
    for name in 0..8 {
        let _added = cursors.add(name, 100 - u64::from(name));
    }
    cursors
}

// Whether a name stands once, and no ninth cursor is added.
fn are_refused() -> bool {
    let mut cursors = eight();
    let faults = [cursors.add(3, 0), cursors.add(8, 0)];
    cursors.remove(5);
    let added = cursors.add(8, 1);
    faults == [Err(CursorFault::Taken), Err(CursorFault::Full)]
        && (cursors.at(5), added) == (None, Ok(()))
}

#[test]
fn a_name_stands_once_and_eight_are_full(rt: HostRuntime) {
    assert!(rt; are_refused());
}

// Whether the least cursor goes, once another was moved.
fn is_dropped() -> bool {
    let mut cursors = eight();
    let first = cursors.least();
    let moved = [cursors.move_to(7, 200), cursors.move_to(8, 200)];
    let name = cursors.drop_least();
    [first, cursors.at(7), cursors.least()] == [Some(93), Some(200), Some(95)]
        && (moved, name) == ([true, false], Some(6))
}

#[test]
fn the_least_cursor_goes(rt: HostRuntime) {
    assert!(rt; is_dropped());
}
