// The table of opcodes and the texts of replies, with their numbers written out.
ghost use Rattle.std.specs.Prelude.{◌≡◌, ◌≤◌, ◌+◌, length};
ghost use Rattle.mcbp_ops.specs.Text.{IsFormOf};

use crate::kind::{Form, form_of};
use crate::{Bad, Op, Reading, begin_reply, end_reply, is_silent, read_call, reply_text};
use ep_model::{Call, Out, Reply, StoreKind, VbState};
use mcbp_frame::Frame;
use std::alloc::Global;
use std::process::Abort;
use std::test::Fail;

// Each call with its opcodes and with lengths that are right for it: those of the extras, the key and the value.
type Row = (&'static str, &'static [u8], u8, u16, usize);

const ROWS: [Row; 21] = [
    ("Get", &[0x00, 0x09, 0x0c, 0x0d], 0, 1, 0),
    ("Set", &[0x01, 0x11], 8, 1, 1),
    ("Add", &[0x02, 0x12], 8, 1, 0),
    ("Replace", &[0x03, 0x13], 8, 1, 3),
    ("Delete", &[0x04, 0x14], 0, 1, 0),
    ("Increment", &[0x05, 0x15], 20, 1, 0),
    ("Decrement", &[0x06, 0x16], 20, 1, 0),
    ("Quit", &[0x07, 0x17], 0, 0, 0),
    ("Noop", &[0x0a], 0, 0, 0),
    ("Version", &[0x0b], 0, 0, 0),
    ("Append", &[0x0e, 0x19], 0, 1, 1),
    ("Prepend", &[0x0f, 0x1a], 0, 1, 1),
    ("Stat", &[0x10], 0, 0, 0),
    ("Touch", &[0x1c], 4, 1, 0),
    ("GAT", &[0x1d, 0x1e], 4, 1, 0),
    ("Hello", &[0x1f], 0, 1, 2),
    ("SetVBucket", &[0x3d], 1, 0, 0),
    ("GetVBucket", &[0x3e], 0, 0, 0),
    ("ObserveSeqno", &[0x91], 0, 0, 8),
    ("GetFailoverLog", &[0x96], 0, 0, 0),
    ("unsupported", &[0x08, 0x18], 0, 0, 0),
];

// The row of an opcode that stands in no other.
const UNKNOWN: Row = ("unknown", &[], 0, 0, 0);

fn frame(opcode: u8, datatype: u8, extras_len: u8, key_len: u16, body: &[u8]) -> Frame<'_>
    ensures opcode { result.opcode ≡ opcode }
    ensures extras_len { result.extras_len ≡ extras_len }
    ensures key_len { result.key_len ≡ key_len }
    ensures body { result.body.now ≡ body.now }
{
    Frame {
        opcode,
        key_len,
        extras_len,
        datatype,
        vbucket: 1000,
        opaque: 0xdead_beef,
        cas: 7,
        body,
        at: 0,
    }
}

fn call_name(call: &Call) -> &'static str {
    match call {
        Call::Get { .. } => "Get",
        Call::Store {
            kind: StoreKind::Set,
            ..
        } => "Set",
        Call::Store {
            kind: StoreKind::Add,
            ..
        } => "Add",
        Call::Store {
            kind: StoreKind::Replace,
            ..
        } => "Replace",
        Call::Join { front: false, .. } => "Append",
        Call::Join { front: true, .. } => "Prepend",
        Call::Count { down: false, .. } => "Increment",
        Call::Count { down: true, .. } => "Decrement",
        Call::Delete { .. } => "Delete",
        Call::Touch { fetch: false, .. } => "Touch",
        Call::Touch { fetch: true, .. } => "GAT",
        Call::Observe { .. } => "ObserveSeqno",
        Call::Failovers => "GetFailoverLog",
        Call::SetState { .. } => "SetVBucket",
        Call::GetState => "GetVBucket",
    }
}

fn name_of(frame: &Frame) -> &'static str {
    match read_call(frame).map(|reading| reading.op) {
        Ok(Op::Engine(call)) => call_name(&call),
        Ok(Op::Noop) => "Noop",
        Ok(Op::Version) => "Version",
        Ok(Op::Stat { .. }) => "Stat",
        Ok(Op::Hello { .. }) => "Hello",
        Ok(Op::Quit) => "Quit",
        Err(Bad::Unknown) => "unknown",
        Err(Bad::Unsupported) => "unsupported",
        Err(Bad::Invalid) => "invalid",
        Err(Bad::TooLarge) => "too large",
    }
}

fn status_of(frame: &Frame) -> u16 {
    match read_call(frame) {
        Ok(_) => 0x00,
        Err(bad) => bad.status(),
    }
}

// Checks the frames of an opcode: one that is right for its row, and two that aren't.
fn check_opcode(rt: &impl Abort, opcode: u8, row: Row) {
    let (name, _, extras, key, value) = row;
    let ones = [1; 64];
    assert!(rt; value < 10);
    assert!(rt; key < 10);
    assert!(rt; extras < 40);
    let body = &ones[..extras as usize + key as usize + value];
    let wanted = match name {
        "unknown" => 0x81,
        "unsupported" => 0x83,
        _ => 0x04,
    };
    let right = frame(opcode, 0, extras, key, body);
    assert_eq!(rt; name_of(&right), name, "opcode {opcode}");
    let typed = frame(opcode, 2, extras, key, body);
    assert_eq!(rt; status_of(&typed), wanted, "opcode {opcode}");
    let wrong = frame(opcode, 0, 3, key, &ones);
    assert_eq!(rt; status_of(&wrong), wanted, "opcode {opcode}");
}

#[test]
fn opcodes_are_read(rt: HostRuntime) {
    for opcode in 0..=255u8 {
        let row = ROWS.iter().find(|row| row.1.contains(&opcode));
        check_opcode(&rt, opcode, row.copied().unwrap_or(UNKNOWN));
    }
}

// An opcode, a data type, lengths of the extras, the key and the value, and the status that answers them.
type Lengths = (u8, u8, u8, u16, usize, u16);

const LENGTHS: [Lengths; 45] = [
    (0x00, 0, 0, 250, 0, 0x00),
    (0x00, 0, 0, 0, 0, 0x04),
    (0x00, 0, 0, 251, 0, 0x04),
    (0x00, 0, 1, 1, 0, 0x04),
    (0x00, 0, 0, 1, 1, 0x04),
    (0x00, 2, 0, 1, 0, 0x04),
    (0x01, 0, 8, 1, 0, 0x00),
    (0x01, 0, 8, 250, 1_048_576, 0x00),
    (0x01, 0, 8, 1, 1_048_577, 0x03),
    (0x01, 0, 8, 1, 2_097_143, 0x03),
    (0x11, 0, 8, 1, 2_097_143, 0x03),
    (0x01, 1, 8, 1, 1_048_577, 0x04),
    (0x01, 0, 8, 0, 1_048_577, 0x04),
    (0x01, 0, 8, 251, 0, 0x04),
    (0x01, 0, 4, 1, 1_048_577, 0x04),
    (0x04, 0, 0, 1, 1, 0x04),
    (0x05, 0, 20, 250, 0, 0x00),
    (0x05, 0, 20, 1, 1, 0x04),
    (0x05, 0, 8, 1, 0, 0x04),
    (0x05, 0, 20, 0, 0, 0x04),
    (0x0e, 0, 0, 1, 1_048_576, 0x00),
    (0x0f, 0, 0, 1, 1_048_577, 0x03),
    (0x1a, 0, 8, 1, 1, 0x04),
    (0x1c, 0, 4, 250, 0, 0x00),
    (0x1c, 0, 0, 1, 0, 0x04),
    (0x1e, 0, 4, 1, 1, 0x04),
    (0x07, 0, 0, 1, 0, 0x04),
    (0x17, 0, 0, 0, 1, 0x04),
    (0x0a, 0, 0, 0, 1, 0x04),
    (0x0b, 0, 0, 1, 0, 0x04),
    (0x10, 0, 0, 250, 2_000_000, 0x00),
    (0x10, 0, 0, 251, 0, 0x04),
    (0x1f, 0, 0, 0, 0, 0x00),
    (0x1f, 0, 0, 250, 2_000_000, 0x00),
    (0x1f, 0, 0, 1, 3, 0x04),
    (0x1f, 0, 0, 251, 2, 0x04),
    (0x3d, 0, 1, 0, 2_000_000, 0x00),
    (0x3d, 0, 4, 0, 0, 0x04),
    (0x3d, 0, 2, 0, 0, 0x04),
    (0x3d, 0, 1, 1, 0, 0x04),
    (0x3e, 0, 0, 0, 4, 0x04),
    (0x91, 0, 0, 0, 7, 0x04),
    (0x91, 0, 0, 0, 9, 0x04),
    (0x96, 0, 0, 0, 8, 0x04),
    (0x94, 2, 9, 251, 1, 0x81),
];

// Checks a frame whose body is all ones.
fn check_lengths(rt: &impl Abort, ones: &[u8], case: Lengths) {
    let (opcode, datatype, extras, key, value, status) = case;
    assert!(rt; value < 2_097_152);
    let len = extras as usize + key as usize + value;
    assert!(rt; len <= ones.len());
    let request = frame(opcode, datatype, extras, key, &ones[..len]);
    assert_eq!(rt;
        status_of(&request),
        status,
        "opcode {opcode}: {extras}, {key}, {value}"
    );
}

#[test]
fn lengths_are_checked(rt: HostRuntime) -> Result<(), Fail> {
    let ones = vec![in rt.alloc(); 1u8; 2_097_152]?;
    for case in LENGTHS {
        check_lengths(&rt, &ones, case);
    }
    Ok(())
}

#[test]
fn heads_lie_in_the_body(rt: HostRuntime) {
    let ones = [1; 257];
    assert_eq!(rt; status_of(&frame(0x00, 0, 0, 1, &[])), 0x04);
    assert_eq!(rt; status_of(&frame(0x01, 0, 8, 250, &ones)), 0x04);
    assert_eq!(rt; status_of(&frame(0x08, 2, 9, 250, &[])), 0x83);
}

// The state that a frame's extras set.
fn state_in(extras: &[u8]) -> Option<VbState> {
    match read_call(&frame(0x3d, 0, extras.len().min(255) as u8, 0, extras)) {
        Ok(
            Reading {
                op: Op::Engine(Call::SetState { state }),
                ..
            },
        ) => Some(state),
        _ => None,
    }
}

#[test]
fn calls_have_their_numbers(rt: HostRuntime) {
    for (extras, state) in [
        (b"\x01".as_slice(), Some(VbState::Active)),
        (b"\x02".as_slice(), Some(VbState::Replica)),
        (b"\0\0\0\x03".as_slice(), Some(VbState::Pending)),
        (b"\0\0\0\x04".as_slice(), Some(VbState::Dead)),
        (b"\0".as_slice(), None),
        (b"\x05".as_slice(), None),
        (b"\x01\0\0\0".as_slice(), None),
    ] {
        assert_eq!(rt; state_in(extras), state);
    }
    let body = b"\0\0\0\0\0\0\0\x05\0\0\0\0\0\0\0\x64\0\0\x0e\x10counter";
    let Ok(
        Op::Engine(
            Call::Count {
                key,
                delta,
                initial,
                expiration,
                cas,
                ..
            },
        ),
    ) = read_call(&frame(0x05, 0, 20, 7, body)).map(|reading| reading.op)
    else {
        panic!(rt; "an Increment is refused");
    };
    assert_eq!(rt; key, b"counter".as_slice());
    assert_eq!(rt; (delta, initial), (5, 100));
    assert_eq!(rt; (expiration, cas), (3600, 7));
}

const STORED: Reply = Reply {
    status: 0x00,
    cas: 0x0102_0304_0506_0708,
    flags: 0xcafe_babe,
    uuid: 0x1112_1314_1516_1718,
    seqno: 0x2122_2324_2526_2728,
};

// An opcode, a status, whether the sequence number is asked for, and the text of the reply with the value `12345678`.
type Text = (u8, u16, bool, &'static [u8]);

const TEXTS: [Text; 12] = [
    (0x09, 0x01, false, b""),
    (0x11, 0x00, true, b""),
    (0x17, 0x00, false, b""),
    (
        0x11,
        0x02,
        true,
        b"\x81\x11\0\0\0\0\0\x02\0\0\0\0\xde\xad\xbe\xef\0\0\0\0\0\0\0\0",
    ),
    (
        0x00,
        0x01,
        true,
        b"\x81\x00\0\0\0\0\0\x01\0\0\0\0\xde\xad\xbe\xef\0\0\0\0\0\0\0\0",
    ),
    (
        0x09,
        0x00,
        true,
        b"\x81\x09\0\0\x04\0\0\0\0\0\0\x0c\xde\xad\xbe\xef\x01\x02\x03\x04\x05\x06\x07\x08\xca\xfe\xba\xbe12345678",
    ),
    (
        0x0c,
        0x00,
        false,
        b"\x81\x0c\0\x03\x04\0\0\0\0\0\0\x0f\xde\xad\xbe\xef\x01\x02\x03\x04\x05\x06\x07\x08\xca\xfe\xba\xbekey12345678",
    ),
    (
        0x01,
        0x00,
        true,
        b"\x81\x01\0\0\x10\0\0\0\0\0\0\x10\xde\xad\xbe\xef\x01\x02\x03\x04\x05\x06\x07\x08\x11\x12\x13\x14\x15\x16\x17\x18\x21\x22\x23\x24\x25\x26\x27\x28",
    ),
    (
        0x04,
        0x00,
        false,
        b"\x81\x04\0\0\0\0\0\0\0\0\0\0\xde\xad\xbe\xef\x01\x02\x03\x04\x05\x06\x07\x08",
    ),
    (
        0x05,
        0x00,
        false,
        b"\x81\x05\0\0\0\0\0\0\0\0\0\x08\xde\xad\xbe\xef\x01\x02\x03\x04\x05\x06\x07\x0812345678",
    ),
    (
        0x1c,
        0x00,
        true,
        b"\x81\x1c\0\0\0\0\0\0\0\0\0\0\xde\xad\xbe\xef\x01\x02\x03\x04\x05\x06\x07\x08",
    ),
    (
        0x96,
        0x00,
        true,
        b"\x81\x96\0\0\0\0\0\0\0\0\0\x08\xde\xad\xbe\xef\0\0\0\0\0\0\0\012345678",
    ),
];

// Appends the text of a reply where there is room for the longest.
fn put_text(frame: &Frame, reply: &Reply, value: &[u8], seqno_feature: bool, out: &mut Out)
    requires { 40 + frame.now.key_len + length value.now ≤ out.old.spare }
{
    reply_text(frame, reply, value, seqno_feature, out);
}

// Appends the text of a reply around its value, which is put before the reply is known.
fn put_around(
    frame: &Frame,
    form: Form,
    reply: &Reply,
    value: &[u8],
    seqno_feature: bool,
    out: &mut Out,
)
    requires form { IsFormOf frame.now.opcode form }
    requires room { 80 + frame.now.key_len + length value.now ≤ out.old.spare }
{
    let at = out.bytes().len();
    begin_reply(frame, form, seqno_feature, out);
    out.push(value);
    end_reply(frame, form, reply, at, seqno_feature, out);
}

// Checks the text of the reply to a frame of the key `key`.
fn check_text(rt: &impl Abort, alloc: Global, case: Text) -> Result<(), Fail> {
    let (opcode, status, seqno_feature, text) = case;
    let mut out = Out::new(alloc, 64)?;
    let reply = Reply { status, ..STORED };
    let request = frame(opcode, 0, 0, 3, b"key");
    put_text(&request, &reply, b"12345678", seqno_feature, &mut out);
    assert_eq!(rt; out.bytes(), text, "opcode {opcode}");
    assert_eq!(rt;
        is_silent(opcode, status),
        text.is_empty(),
        "opcode {opcode}"
    );
    Ok(())
}

// Checks the same text put around its value, behind bytes that stay.
fn check_around(rt: &impl Abort, alloc: Global, case: Text) -> Result<(), Fail> {
    let (opcode, status, seqno_feature, text) = case;
    let mut out = Out::new(alloc, 128)?;
    let reply = Reply { status, ..STORED };
    let request = frame(opcode, 0, 0, 3, b"key");
    let Ok(form) = form_of(opcode) else {
        panic!(rt; "the opcode {opcode} is refused");
    };
    out.push(b"before");
    put_around(&request, form, &reply, b"12345678", seqno_feature, &mut out);
    assert!(rt; out.bytes().len() >= 6);
    assert_eq!(rt; &out.bytes()[..6], b"before".as_slice());
    assert_eq!(rt; &out.bytes()[6..], text, "opcode {opcode}");
    Ok(())
}

#[test]
fn replies_are_written(rt: HostRuntime) -> Result<(), Fail> {
    let alloc = rt.alloc();
    for case in TEXTS {
        check_text(&rt, alloc, case)?;
        check_around(&rt, alloc, case)?;
    }
    Ok(())
}
