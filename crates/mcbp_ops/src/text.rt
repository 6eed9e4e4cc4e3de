// Responses, and the text of a reply whose value is put where it stays.
ghost use Rattle.std.specs.Prelude.{◌≡◌, ◌+◌, ◌<◌, ◌≤◌, ◌^◌, ◌++◌, [], length, take, drop};
ghost use Rattle.byteorder.specs.Endian.{big_bytes};
ghost use Rattle.mcbp_frame.specs.Frames.{frame_data};
ghost use Rattle.mcbp_ops.specs.Text.{IsFormOf, answer_text, mutation_extras, status_text, value_text, success_text, reply_text, head_length};

use crate::kind::{Form, Kind};
use crate::parts::key_of;
use byteorder::{BigEndian, ByteOrder};
use ep_model::status::SUCCESS;
use ep_model::{Out, Reply};
use mcbp_frame::{Frame, HEADER, put_head, put_response};

// Appends a response to a frame, of no data type.
pub(crate) fn put(
    out: &mut Out,
    frame: &Frame,
    status: u16,
    cas: u64,
    extras: &[u8],
    key: &[u8],
    value: &[u8],
)
    requires spare { length (answer_text (frame_data frame.now) status cas extras.now key.now
        value.now) ≤ out.old.spare }
    requires extras_fit { length extras.now < 2 ^ 8 }
    requires key_fits { length key.now < 2 ^ 16 }
    ensures bytes { out.new.bytes ≡ out.old.bytes
        ++ answer_text (frame_data frame.now) status cas extras.now key.now value.now }
    ensures room { out.new.spare + length out.new.bytes ≡ out.old.spare + length out.old.bytes }
{
    put_response(
        out,
        frame.opcode,
        status,
        frame.opaque,
        cas,
        0,
        extras,
        key,
        value,
    );
}

/// Appends the response to a frame that is a status alone, in constant time.
pub fn put_status(out: &mut Out, frame: &Frame, status: u16)
    requires { HEADER ≤ out.old.spare }
    ensures bytes { out.new.bytes ≡ out.old.bytes ++ status_text (frame_data frame.now) status }
    ensures room { out.new.spare + length out.new.bytes ≡ out.old.spare + length out.old.bytes }
{
    put(out, frame, status, 0, &[], &[], &[]);
}

/// Appends the response to a frame that is a success with a value alone. Its cost is linear in the value's length.
pub fn put_value(out: &mut Out, frame: &Frame, value: &[u8])
    requires { HEADER + length value.now ≤ out.old.spare }
    ensures bytes { out.new.bytes ≡ out.old.bytes ++ value_text (frame_data frame.now) value.now }
    ensures room { out.new.spare + length out.new.bytes ≡ out.old.spare + length out.old.bytes }
{
    put(out, frame, SUCCESS, 0, &[], &[], value);
}

// The uuid and the sequence number of a mutation.
pub(crate) fn stamp_of(reply: &Reply) -> [u8; 16]
    ensures { result ≡ big_bytes 8 reply.now.uuid ++ big_bytes 8 reply.now.seqno }
{
    let mut stamp = [0; 16];
    BigEndian::write_u64(&mut stamp, reply.uuid);
    BigEndian::write_u64(&mut stamp[8..], reply.seqno);
    stamp
}

// Appends the success of a mutation, which shows its uuid and its sequence number where that is asked for.
fn put_mutation(out: &mut Out, frame: &Frame, reply: &Reply, seqno_feature: bool)
    requires { 40 ≤ out.old.spare }
    ensures bytes { out.new.bytes ≡ out.old.bytes
        ++ answer_text (frame_data frame.now) SUCCESS reply.now.cas
        (mutation_extras reply.now seqno_feature) [] [] }
    ensures room { out.new.spare + length out.new.bytes ≡ out.old.spare + length out.old.bytes }
{
    if seqno_feature {
        let stamp = stamp_of(reply);
        put(out, frame, SUCCESS, reply.cas, &stamp, &[], &[]);
    } else {
        put(out, frame, SUCCESS, reply.cas, &[], &[], &[]);
    }
}

// Makes a success of what stands from `at` on, with the value that stands behind the room for its head.
fn finish(out: &mut Out, at: usize, frame: &Frame, cas: u64, extras: &[u8], key: &[u8])
    requires room { at + (24 + length extras.now + length key.now) ≤ length out.old.bytes }
    requires extras_fit { length extras.now < 2 ^ 8 }
    requires key_fits { length key.now < 2 ^ 16 }
    ensures bytes { out.new.bytes ≡ take at out.old.bytes
        ++ answer_text (frame_data frame.now) SUCCESS cas extras.now key.now
        (drop (at + (24 + length extras.now + length key.now)) out.old.bytes) }
    ensures spare { out.new.spare ≡ out.old.spare }
{
    put_head(
        out,
        at,
        frame.opcode,
        SUCCESS,
        frame.opaque,
        cas,
        0,
        extras,
        key,
    );
}

// How long the head of a success is that shows the value behind it.
fn head_len(frame: &Frame, kind: Kind, seqno_feature: bool) -> usize
    ensures len { result ≡ head_length (frame_data frame.now) seqno_feature kind }
    ensures short { result ≤ 40 + frame.now.key_len }
{
    match kind {
        Kind::Get { keyed: false } | Kind::Touch { fetch: true } => HEADER + 4,
        Kind::Get { keyed: true } => HEADER + 4 + key_of(frame).len(),
        Kind::Count { .. } if seqno_feature => HEADER + 16,
        Kind::Count { .. } => HEADER,
        Kind::Observe | Kind::Failovers | Kind::GetState | Kind::Hello | Kind::Version => HEADER,
        Kind::Store(_) | Kind::Join { .. } | Kind::Delete | Kind::Touch { fetch: false } => 0,
        Kind::SetState | Kind::Stat | Kind::Noop | Kind::Quit => 0,
    }
}

/// Begins the reply to a frame whose opcode has this form: appends the room in front of its value, in constant time.
/// Behind it the caller appends the value, and then calls `end_reply`.
pub fn begin_reply(frame: &Frame, form: Form, seqno_feature: bool, out: &mut Out)
    requires { 40 + frame.now.key_len ≤ out.old.spare }
    ensures before { take (length out.old.bytes) out.new.bytes ≡ out.old.bytes }
    ensures len { length out.new.bytes ≡ length out.old.bytes
        + head_length (frame_data frame.now) seqno_feature form.kind }
    ensures short { length out.new.bytes ≤ length out.old.bytes + (40 + frame.now.key_len) }
    ensures room { out.new.spare + length out.new.bytes ≡ out.old.spare + length out.old.bytes }
{
    out.skip(head_len(frame, form.kind, seqno_feature));
}

// Ends a success.
fn end_success(
    frame: &Frame,
    kind: Kind,
    reply: &Reply,
    at: usize,
    seqno_feature: bool,
    out: &mut Out,
)
    requires value { at + head_length (frame_data frame.now) seqno_feature kind
        ≤ length out.old.bytes }
    requires room { at + 40 ≤ out.old.spare + length out.old.bytes }
    ensures bytes { out.new.bytes ≡ take at out.old.bytes
        ++ success_text (frame_data frame.now) reply.now
        (drop (at + head_length (frame_data frame.now) seqno_feature kind) out.old.bytes)
        seqno_feature kind }
    ensures room { out.new.spare + length out.new.bytes ≡ out.old.spare + length out.old.bytes }
{
    let cas = reply.cas;
    let flags = reply.flags.to_be_bytes();
    match kind {
        Kind::Get { keyed: false } | Kind::Touch { fetch: true } => {
            finish(out, at, frame, cas, &flags, &[])
        }
        Kind::Get { keyed: true } => finish(out, at, frame, cas, &flags, key_of(frame)),
        Kind::Count { .. } if seqno_feature => {
            finish(out, at, frame, cas, &stamp_of(reply), &[])
        }
        Kind::Count { .. } => finish(out, at, frame, cas, &[], &[]),
        Kind::Observe | Kind::Failovers | Kind::GetState | Kind::Hello | Kind::Version => {
            finish(out, at, frame, 0, &[], &[])
        }
        Kind::Store(_) | Kind::Join { .. } | Kind::Delete => {
            out.cut(at);
            put_mutation(out, frame, reply, seqno_feature)
        }
        Kind::Touch { fetch: false } => {
            out.cut(at);
            put(out, frame, SUCCESS, cas, &[], &[], &[])
        }
        Kind::SetState | Kind::Stat | Kind::Noop | Kind::Quit => {
            out.cut(at);
            put_status(out, frame, SUCCESS)
        }
    }
}

/// Ends the reply that was begun where `at` bytes stood, whose value was appended since: nothing is left of it where the
/// opcode is quiet about it, and else it is one response. A success shows the CAS, and by opcode the flags, the key, the
/// value, and where `seqno_feature` is on the uuid and the sequence number of a mutation; another status stands alone.
/// Its cost is linear in the key's length: the value stays where it is. The text is no longer than 40 bytes with the key
/// and the value (`reply_text_fits`).
pub fn end_reply(
    frame: &Frame,
    form: Form,
    reply: &Reply,
    at: usize,
    seqno_feature: bool,
    out: &mut Out,
)
    requires form { IsFormOf frame.now.opcode form }
    requires value { at + head_length (frame_data frame.now) seqno_feature form.kind
        ≤ length out.old.bytes }
    requires room { at + 40 ≤ out.old.spare + length out.old.bytes }
    ensures bytes { out.new.bytes ≡ take at out.old.bytes
        ++ reply_text (frame_data frame.now) reply.now
        (drop (at + head_length (frame_data frame.now) seqno_feature form.kind) out.old.bytes)
        seqno_feature }
    ensures room { out.new.spare + length out.new.bytes ≡ out.old.spare + length out.old.bytes }
{
    if form.silence.hides(reply.status) {
        out.cut(at);
    } else if reply.status == SUCCESS {
        end_success(frame, form.kind, reply, at, seqno_feature, out);
    } else {
        out.cut(at);
        put_status(out, frame, reply.status);
    }
}
