// Tickets, outcomes and the oldest place of a book, with their answers written out.
use ep_model::{Out, Ticket};
use fetch_book::{Book, BookFull, Outcome};
use std::alloc::Global;

fn ticket(number: u64) -> Ticket {
    Ticket { stripe: 3, number }
}

/// How many of so many calls in turn are given the next ticket, from this number on.
fn ask_all(book: &mut Book, first: u64, calls: u8) -> u64 {
    let mut given = 0u64;
    for call in 0..calls {
        if book.ask(&[b'k', call]) == Ok(ticket(first.wrapping_add(given))) {
            given = given.wrapping_add(1);
        }
    }
    given
}

/// What a full book answers, and then one of whose keys one is forgotten.
fn ask_more(book: &mut Book) -> [(Result<Ticket, BookFull>, u32); 2] {
    let full = (book.ask(b"more"), book.used());
    book.forget(b"k\x07");
    [full, (book.ask(b"more"), book.used())]
}

/// Whether 64 tickets are given, no more, and no number twice.
fn is_numbered(alloc: Global) -> bool {
    let Ok(mut book) = Book::new(alloc, 3) else {
        return false;
    };
    ask_all(&mut book, 1, 64) == 64
        && ask_more(&mut book) == [(Err(BookFull), 64), (Ok(ticket(65)), 64)]
        && book.outcome(ticket(8)) == None
}

#[test]
fn numbers_never_come_twice(rt: HostRuntime) {
    assert!(rt; is_numbered(rt.alloc()));
}

/// Settles the second of two places of a key, and others that aren't there.
fn settle(book: &mut Book, outcome: Outcome) -> [bool; 3] {
    let _asked = [book.ask(b"k"), book.ask(b"k")];
    let elsewhere = Ticket {
        stripe: 2,
        number: 1,
    };
    [
        book.settle(ticket(2), outcome),
        book.settle(ticket(3), outcome),
        book.settle(elsewhere, outcome),
    ]
}

/// Whether the second place alone has this outcome then.
fn is_kept(alloc: Global, outcome: Outcome) -> bool {
    let Ok(mut book) = Book::new(alloc, 3) else {
        return false;
    };
    let settled = settle(&mut book, outcome);
    let outcomes = [book.outcome(ticket(1)), book.outcome(ticket(2))];
    settled == [true, false, false] && outcomes == [Some(Outcome::Waiting), Some(outcome)]
}

#[test]
fn outcomes_are_kept(rt: HostRuntime) {
    assert!(rt; is_kept(rt.alloc(), Outcome::Waiting));
    assert!(rt; is_kept(rt.alloc(), Outcome::Merged));
    assert!(rt; is_kept(rt.alloc(), Outcome::Absent));
    assert!(rt; is_kept(rt.alloc(), Outcome::Failed(7)));
    assert!(rt; is_kept(rt.alloc(), Outcome::NoMemory));
    assert!(rt; is_kept(rt.alloc(), Outcome::NoRoom { blocks: 9 }));
}

/// The oldest of two places once the first is released, whose key is appended.
fn oldest(book: &mut Book, out: &mut Out) -> (u32, Option<Ticket>) {
    let _asked = [book.ask(b"first"), book.ask(b"second")];
    book.release(ticket(1));
    // tells that no key is longer than 250 bytes
    let used = book.used();
    if out.spare() < 250 {
        return (used, None);
    }
    (used, book.oldest(out))
}

fn is_oldest(alloc: Global) -> bool {
    let (Ok(mut book), Ok(mut out)) = (Book::new(alloc, 3), Out::new(alloc, 250)) else {
        return false;
    };
    oldest(&mut book, &mut out) == (1, Some(ticket(2))) && out.bytes() == b"second".as_slice()
}

#[test]
fn oldest_waits_longest(rt: HostRuntime) {
    assert!(rt; is_oldest(rt.alloc()));
}
