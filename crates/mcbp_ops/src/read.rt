// Reading a frame as what it asks for.
ghost use Rattle.std.specs.Prelude.{◌≡◌, ◌+◌, ◌≤◌, ◌⊎◌, None, length, drop, IfOk, OnOk};
ghost use Rattle.std.specs.Option.{ok_or, option_map};
ghost use Rattle.ep_model.specs.History.{call_data};
ghost use Rattle.ep_model.specs.declared.data.CallData.TheVariants as calls;
ghost use Rattle.byteorder.specs.Endian.{big_number};
ghost use Rattle.mcbp_frame.specs.Frames.{frame_data};
ghost use Rattle.mcbp_ops.specs.Table.{shape_of};
ghost use Rattle.mcbp_ops.specs.Text.{IsFormOf};
ghost use Rattle.mcbp_ops.specs.Checks.{extras_of, key_of, value_of, refusal_of};
ghost use Rattle.mcbp_ops.specs.Ops.{IsWithinOp, op_data, result_data, reading_data, made, op_of, call_result, state_of, state_number};

use crate::kind::{Form, Kind, form_of};
use crate::op::{Bad, Op};
use crate::parts::{Parts, parts_of};
use crate::shape::{check_shape, shape_of};
use byteorder::{BigEndian, ByteOrder};
use ep_model::{Call, StoreKind, VbState};
use mcbp_frame::Frame;

/// What a frame asks for, with the form of its opcode, by which the reply is written.
#[derive(Clone, Copy)]
pub struct Reading<'a> {
    pub op: Op<'a>,
    pub form: Form,
}

// The state of a number.
fn state_of(number: u32) -> Option<VbState>
    ensures { result ≡ state_of number }
{
    match number {
        1 => Some(VbState::Active),
        2 => Some(VbState::Replica),
        3 => Some(VbState::Pending),
        4 => Some(VbState::Dead),
        _ => None,
    }
}

fn store_call<'a>(kind: StoreKind, parts: Parts<'a>, cas: u64) -> Call<'a>
    requires { length parts.extras.now ≡ 8 }
    ensures { call_data result ≡ calls.Store kind parts.entry.key.now parts.entry.value.now
        (big_number 4 parts.entry.extras.now) (big_number 4 (drop 4 parts.entry.extras.now)) cas }
{
    Call::Store {
        kind,
        key: parts.key,
        value: parts.value,
        flags: BigEndian::read_u32(parts.extras),
        expiration: BigEndian::read_u32(&parts.extras[4..]),
        cas,
    }
}

fn count_call<'a>(down: bool, parts: Parts<'a>, cas: u64) -> Call<'a>
    requires { length parts.extras.now ≡ 20 }
    ensures { call_data result ≡ calls.Count down parts.entry.key.now
        (big_number 8 parts.entry.extras.now) (big_number 8 (drop 8 parts.entry.extras.now))
        (big_number 4 (drop 16 parts.entry.extras.now)) cas }
{
    Call::Count {
        down,
        key: parts.key,
        delta: BigEndian::read_u64(parts.extras),
        initial: BigEndian::read_u64(&parts.extras[8..]),
        expiration: BigEndian::read_u32(&parts.extras[16..]),
        cas,
    }
}

// A state is a number of one byte or of four.
fn set_state_call<'a>(extras: &[u8]) -> Result<Call<'a>, Bad>
    requires { (length extras.now ≡ 1) ⊎ (length extras.now ≡ 4) }
    ensures { call_result result ≡ ok_or (option_map calls.SetState
        (state_of (state_number extras.now))) Bad.Invalid }
{
    let number = match extras {
        [state] => u32::from(*state),
        _ => BigEndian::read_u32(extras),
    };
    let state = state_of(number).ok_or(Bad::Invalid)?;
    Ok(Call::SetState { state })
}

// What a frame asks for that has the shape of its kind.
fn make<'a>(kind: Kind, frame: &Frame<'a>) -> Result<Op<'a>, Bad>
    requires { refusal_of (frame_data frame.now) (shape_of kind) ≡ None }
    ensures { result_data result ≡ made (frame_data frame.now) kind }
{
    let parts = parts_of(frame);
    let Parts { extras, key, value } = parts;
    let cas = frame.cas;
    match kind {
        Kind::Get { .. } => Ok(Op::Engine(Call::Get { key })),
        Kind::Store(kind) => Ok(Op::Engine(store_call(kind, parts, cas))),
        Kind::Join { front } => Ok(Op::Engine(Call::Join {
            front,
            key,
            value,
            cas,
        })),
        Kind::Count { down } => Ok(Op::Engine(count_call(down, parts, cas))),
        Kind::Delete => Ok(Op::Engine(Call::Delete { key, cas })),
        Kind::Touch { fetch } => Ok(Op::Engine(Call::Touch {
            key,
            expiration: BigEndian::read_u32(extras),
            fetch,
        })),
        Kind::Observe => Ok(Op::Engine(Call::Observe {
            uuid: BigEndian::read_u64(value),
        })),
        Kind::Failovers => Ok(Op::Engine(Call::Failovers)),
        Kind::SetState => Ok(Op::Engine(set_state_call(extras)?)),
        Kind::GetState => Ok(Op::Engine(Call::GetState)),
        Kind::Stat => Ok(Op::Stat { group: key }),
        Kind::Hello => Ok(Op::Hello { codes: value }),
        Kind::Noop => Ok(Op::Noop),
        Kind::Version => Ok(Op::Version),
        Kind::Quit => Ok(Op::Quit),
    }
}

/// What a frame asks for, or how it is refused. The first that applies is the refusal: an opcode that isn't known or
/// isn't served; a data type; extras and key that are longer than the body; a length of the extras, of the key or of
/// the value that the opcode doesn't allow; a state that isn't one. The vBucket id isn't looked at. It takes constant
/// time and copies nothing.
pub fn read_call<'a>(frame: &Frame<'a>) -> Result<Reading<'a>, Bad>
    ensures op { reading_data result ≡ op_of (frame_data frame.now) }
    ensures form { IfOk result (λ reading. IsFormOf frame.now.opcode reading.form) }

    // A call's key and value have lengths that a call may carry.
    ensures within { IfOk result (λ reading. IsWithinOp (op_data reading.op)) }

    // The extras and the key of what isn't refused lie in the body.
    ensures parts { OnOk result (frame.now.extras_len + frame.now.key_len
        ≤ length frame.now.body.now) }
{
    let form = form_of(frame.opcode)?;
    check_shape(frame, shape_of(form.kind))?;
    let op = make(form.kind, frame)?;
    Ok(Reading { op, form })
}
