// The lengths that a frame of a kind may have.
ghost use Rattle.std.specs.Prelude.{◌≡◌, ◌+◌, ◌≤◌, length};
ghost use Rattle.std.specs.Result.{result_err};
ghost use Rattle.mcbp_frame.specs.Frames.{frame_data};
ghost use Rattle.mcbp_ops.specs.Table.{shape_of};
ghost use Rattle.mcbp_ops.specs.Checks.{takes_extras, takes_key, value_refusal, value_of, refusal_of};

use crate::kind::Kind;
use crate::op::Bad;
use ep_model::limits::{MAX_KEY, MAX_VALUE};
use mcbp_frame::Frame;

/// How many bytes of extras.
#[derive(Clone, Copy)]
pub enum ExtrasRule {
    Exactly(u8),
    OneOrFour,
}

/// How long the key.
#[derive(Clone, Copy)]
pub enum KeyRule {
    Absent,
    /// At most as long as a key may be, or none.
    Optional,
    /// As long as a key may be.
    Needed,
}

/// How long the value.
#[derive(Clone, Copy)]
pub enum ValueRule {
    Absent,
    /// At most as long as a value may be.
    Any,
    /// Eight bytes.
    Eight,
    Even,
    /// Of any length, since it isn't looked at.
    NotRead,
}

/// The lengths that a frame may have.
#[derive(Clone, Copy)]
pub struct Shape {
    pub extras: ExtrasRule,
    pub key: KeyRule,
    pub value: ValueRule,
}

// A shape with so many bytes of extras.
fn shape_with(extras: u8, key: KeyRule, value: ValueRule) -> Shape
    ensures { result ≡ record { extras = ExtrasRule.Exactly extras; key = key; value = value } }
{
    Shape {
        extras: ExtrasRule::Exactly(extras),
        key,
        value,
    }
}

/// The lengths that a frame of a kind may have.
pub fn shape_of(kind: Kind) -> Shape
    ensures { result ≡ shape_of kind }
{
    match kind {
        Kind::Get { .. } | Kind::Delete => shape_with(0, KeyRule::Needed, ValueRule::Absent),
        Kind::Store(_) => shape_with(8, KeyRule::Needed, ValueRule::Any),
        Kind::Join { .. } => shape_with(0, KeyRule::Needed, ValueRule::Any),
        Kind::Count { .. } => shape_with(20, KeyRule::Needed, ValueRule::Absent),
        Kind::Touch { .. } => shape_with(4, KeyRule::Needed, ValueRule::Absent),
        Kind::Observe => shape_with(0, KeyRule::Absent, ValueRule::Eight),
        Kind::Stat => shape_with(0, KeyRule::Optional, ValueRule::NotRead),
        Kind::Hello => shape_with(0, KeyRule::Optional, ValueRule::Even),
        Kind::SetState => Shape {
            extras: ExtrasRule::OneOrFour,
            key: KeyRule::Absent,
            value: ValueRule::NotRead,
        },
        Kind::Failovers | Kind::GetState | Kind::Noop | Kind::Version | Kind::Quit => {
            shape_with(0, KeyRule::Absent, ValueRule::Absent)
        }
    }
}

fn takes_extras(rule: ExtrasRule, len: u8) -> bool
    ensures { result ≡ takes_extras rule len }
{
    match rule {
        ExtrasRule::Exactly(wanted) => len == wanted,
        ExtrasRule::OneOrFour => len == 1 || len == 4,
    }
}

fn takes_key(rule: KeyRule, len: u16) -> bool
    ensures { result ≡ takes_key rule len }
{
    let len = len as usize;
    match rule {
        KeyRule::Absent => len == 0,
        KeyRule::Optional => len <= MAX_KEY,
        KeyRule::Needed => 1 <= len && len <= MAX_KEY,
    }
}

fn check_value(rule: ValueRule, len: usize) -> Result<(), Bad>
    ensures { result_err result ≡ value_refusal rule len }
{
    let fits = match rule {
        ValueRule::Absent => len == 0,
        ValueRule::Any if len > MAX_VALUE => return Err(Bad::TooLarge),
        ValueRule::Any | ValueRule::NotRead => true,
        ValueRule::Eight => len == 8,
        ValueRule::Even => len % 2 == 0,
    };
    if fits { Ok(()) } else { Err(Bad::Invalid) }
}

/// Checks the data type and the lengths of a frame, in this order: the first check that fails is the answer.
pub fn check_shape(frame: &Frame, shape: Shape) -> Result<(), Bad>
    ensures { result_err result ≡ refusal_of (frame_data frame.now) shape }
{
    let head = frame.extras_len as usize + frame.key_len as usize;
    if frame.datatype != 0
        || head > frame.body.len()
        || !takes_extras(shape.extras, frame.extras_len)
        || !takes_key(shape.key, frame.key_len)
    {
        return Err(Bad::Invalid);
    }
    check_value(shape.value, frame.body.len() - head)
}
