// What a connection does with frames by itself, with the bytes of its answers written out.
ghost use Rattle.std.specs.Prelude.{◌≡◌, ◌+◌, length};
ghost use Rattle.conn_core.specs.Conns.{out_room};

use crate::{Act, Conn};
use mcbp_frame::Frame;
use std::process::Abort;
use std::test::Fail;

// A frame whose body is the extras, the key and the value.
fn frame(opcode: u8, vbucket: u16, key_len: u16, body: &[u8]) -> Frame<'_> {
    Frame {
        opcode,
        key_len,
        extras_len: 0,
        datatype: 0,
        vbucket,
        opaque: 0xdead_beef,
        cas: 7,
        body,
        at: 0,
    }
}

fn name_of(act: &Act) -> &'static str {
    match act {
        Act::Answered => "answered",
        Act::Quit => "quit",
        Act::Engine { .. } => "engine",
        Act::Stat(_) => "stat",
    }
}

// Sorts a frame where no answer is pending, of one vBucket.
fn check(rt: &impl Abort, conn: &mut Conn, frame: &Frame, act: &str, answer: &[u8])
    requires { conn.old.out.spare + length conn.old.out.bytes ≡ out_room }
    ensures { conn.new.out.spare + length conn.new.out.bytes ≡ out_room }
{
    conn.out.cut(0);
    let done = conn.sort_frame(frame, 1);
    assert_eq!(rt; name_of(&done), act, "opcode {}", frame.opcode);
    assert_eq!(rt; conn.out.bytes(), answer, "opcode {}", frame.opcode);
}

const REFUSED: &[u8] = b"\x81\x09\0\0\0\0\0\x04\0\0\0\0\xde\xad\xbe\xef\0\0\0\0\0\0\0\0";

const NO_VBUCKET: &[u8] = b"\x81\x09\0\0\0\0\0\x07\0\0\0\0\xde\xad\xbe\xef\0\0\0\0\0\0\0\0";

const UNKNOWN: &[u8] = b"\x81\xff\0\0\0\0\0\x81\0\0\0\0\xde\xad\xbe\xef\0\0\0\0\0\0\0\0";

const NOOP: &[u8] = b"\x81\x0a\0\0\0\0\0\0\0\0\0\0\xde\xad\xbe\xef\0\0\0\0\0\0\0\0";

const VERSION: &[u8] = b"\x81\x0b\0\0\0\0\0\0\0\0\0\x0b\xde\xad\xbe\xef\0\0\0\0\0\0\0\0ep_server 1";

const QUIT: &[u8] = b"\x81\x07\0\0\0\0\0\0\0\0\0\0\xde\xad\xbe\xef\0\0\0\0\0\0\0\0";

const QUIT_REFUSED: &[u8] = b"\x81\x17\0\0\0\0\0\x04\0\0\0\0\xde\xad\xbe\xef\0\0\0\0\0\0\0\0";

#[test]
fn frames_are_sorted(rt: HostRuntime) -> Result<(), Fail> {
    let mut conn = Conn::new(rt.alloc())?;
    check(&rt, &mut conn, &frame(0x09, 0, 1, b"k"), "engine", b"");
    check(&rt, &mut conn, &frame(0x09, 0, 0, b""), "answered", REFUSED);
    check(
        &rt,
        &mut conn,
        &frame(0x09, 1, 1, b"k"),
        "answered",
        NO_VBUCKET,
    );
    check(&rt, &mut conn, &frame(0x09, 1, 0, b""), "answered", REFUSED);
    check(&rt, &mut conn, &frame(0xff, 9, 0, b""), "answered", UNKNOWN);
    check(&rt, &mut conn, &frame(0x0a, 9, 0, b""), "answered", NOOP);
    check(&rt, &mut conn, &frame(0x0b, 9, 0, b""), "answered", VERSION);
    check(&rt, &mut conn, &frame(0x10, 9, 1, b"k"), "stat", b"");
    check(&rt, &mut conn, &frame(0x07, 9, 0, b""), "quit", QUIT);
    check(&rt, &mut conn, &frame(0x17, 9, 0, b""), "quit", b"");
    check(
        &rt,
        &mut conn,
        &frame(0x17, 9, 0, b"k"),
        "answered",
        QUIT_REFUSED,
    );
    Ok(())
}

const GRANTED: &[u8] = b"\x81\x1f\0\0\0\0\0\0\0\0\0\x02\xde\xad\xbe\xef\0\0\0\0\0\0\0\0\0\x04";

const NONE_GRANTED: &[u8] = b"\x81\x1f\0\0\0\0\0\0\0\0\0\0\xde\xad\xbe\xef\0\0\0\0\0\0\0\0";

const HELLO_REFUSED: &[u8] = b"\x81\x1f\0\0\0\0\0\x04\0\0\0\0\xde\xad\xbe\xef\0\0\0\0\0\0\0\0";

#[test]
fn the_last_hello_counts(rt: HostRuntime) -> Result<(), Fail> {
    let mut conn = Conn::new(rt.alloc())?;
    assert!(rt; !conn.features.seqno);
    let asked = b"agent\0\x01\0\x04\0\x0b\0\x04";
    check(
        &rt,
        &mut conn,
        &frame(0x1f, 0, 5, asked),
        "answered",
        GRANTED,
    );
    assert!(rt; conn.features.seqno);
    let odd = b"agent\0\x01\0";
    check(
        &rt,
        &mut conn,
        &frame(0x1f, 0, 5, odd),
        "answered",
        HELLO_REFUSED,
    );
    assert!(rt; conn.features.seqno);
    let crossing = b"agent\x01\0\x04\0";
    check(
        &rt,
        &mut conn,
        &frame(0x1f, 0, 5, crossing),
        "answered",
        NONE_GRANTED,
    );
    assert!(rt; !conn.features.seqno);
    check(
        &rt,
        &mut conn,
        &frame(0x1f, 0, 0, b"\0\x04"),
        "answered",
        GRANTED,
    );
    conn.clear();
    assert!(rt; !conn.features.seqno);
    assert_eq!(rt; conn.out.bytes(), b"".as_slice());
    Ok(())
}
