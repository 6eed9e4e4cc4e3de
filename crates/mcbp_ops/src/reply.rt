// The text of a reply whose value stands elsewhere.
ghost use Rattle.std.specs.Prelude.{◌≡◌, ◌+◌, ◌≤◌, ◌++◌, [], length};
ghost use Rattle.mcbp_frame.specs.Frames.{frame_data};
ghost use Rattle.mcbp_ops.specs.Text.{is_silent, answer_text, mutation_extras, success_text, reply_text};

use crate::kind::{Kind, form_of};
use crate::parts::key_of;
use crate::text::{put, stamp_of};
use ep_model::status::SUCCESS;
use ep_model::{Out, Reply};
use mcbp_frame::Frame;

/// Whether a reply of this status isn't written, since its opcode is quiet. A quiet Get, or Get-and-touch, hides that
/// nothing was found, and another quiet form that all went well. A quiet Quit hides each reply, so ask this only of a
/// frame that isn't refused.
pub fn is_silent(opcode: u8, status: u16) -> bool
    ensures { result ≡ is_silent opcode status }
{
    match form_of(opcode) {
        Ok(form) => form.silence.hides(status),
        Err(_) => false,
    }
}

// Appends the success of a mutation, which shows its uuid and its sequence number where that is asked for.
fn append_mutation(out: &mut Out, frame: &Frame, reply: &Reply, value: &[u8], seqno_feature: bool)
    requires { length (answer_text (frame_data frame.now) SUCCESS reply.now.cas
        (mutation_extras reply.now seqno_feature) [] value.now) ≤ out.old.spare }
    ensures bytes { out.new.bytes ≡ out.old.bytes
        ++ answer_text (frame_data frame.now) SUCCESS reply.now.cas
        (mutation_extras reply.now seqno_feature) [] value.now }
    ensures room { out.new.spare + length out.new.bytes ≡ out.old.spare + length out.old.bytes }
{
    if seqno_feature {
        let stamp = stamp_of(reply);
        put(out, frame, SUCCESS, reply.cas, &stamp, &[], value);
    } else {
        put(out, frame, SUCCESS, reply.cas, &[], &[], value);
    }
}

// Appends a success.
fn append_success(
    out: &mut Out,
    frame: &Frame,
    kind: Kind,
    reply: &Reply,
    value: &[u8],
    seqno_feature: bool,
)
    requires { length (success_text (frame_data frame.now) reply.now value.now seqno_feature kind)
        ≤ out.old.spare }
    ensures bytes { out.new.bytes ≡ out.old.bytes
        ++ success_text (frame_data frame.now) reply.now value.now seqno_feature kind }
    ensures room { out.new.spare + length out.new.bytes ≡ out.old.spare + length out.old.bytes }
{
    let cas = reply.cas;
    let flags = reply.flags.to_be_bytes();
    match kind {
        Kind::Get { keyed: false } | Kind::Touch { fetch: true } => {
            put(out, frame, SUCCESS, cas, &flags, &[], value)
        }
        Kind::Get { keyed: true } => { put(out, frame, SUCCESS, cas, &flags, key_of(frame), value) }
        Kind::Touch { fetch: false } => put(out, frame, SUCCESS, cas, &[], &[], &[]),
        Kind::Store(_) | Kind::Join { .. } | Kind::Delete => {
            append_mutation(out, frame, reply, &[], seqno_feature)
        }
        Kind::Count { .. } => append_mutation(out, frame, reply, value, seqno_feature),
        Kind::Observe | Kind::Failovers | Kind::GetState | Kind::Hello | Kind::Version => {
            put(out, frame, SUCCESS, 0, &[], &[], value)
        }
        Kind::SetState | Kind::Stat | Kind::Noop | Kind::Quit => {
            put(out, frame, SUCCESS, 0, &[], &[], &[])
        }
    }
}

/// Appends the text of a reply to a frame: nothing where the opcode is quiet about it, and else one response. A success
/// shows the CAS, and by opcode the flags, the key, the value, and where `seqno_feature` is on the uuid and the sequence
/// number of a mutation; another status stands alone. Its cost is linear in the lengths of key and value. Its text is no
/// longer than 40 bytes with the key and the value (`reply_text_fits`).
pub fn reply_text(frame: &Frame, reply: &Reply, value: &[u8], seqno_feature: bool, out: &mut Out)
    requires { length (reply_text (frame_data frame.now) reply.now value.now seqno_feature)
        ≤ out.old.spare }
    ensures bytes { out.new.bytes ≡ out.old.bytes
        ++ reply_text (frame_data frame.now) reply.now value.now seqno_feature }
    ensures room { out.new.spare + length out.new.bytes ≡ out.old.spare + length out.old.bytes }
{
    if is_silent(frame.opcode, reply.status) {
        return;
    }
    match form_of(frame.opcode) {
        Ok(form) if reply.status == SUCCESS => {
            append_success(out, frame, form.kind, reply, value, seqno_feature)
        }
        _ => put(out, frame, reply.status, 0, &[], &[], &[]),
    }
}
