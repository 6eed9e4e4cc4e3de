// The parts of a frame's body.
ghost use Rattle.std.specs.Prelude.{◌≡◌, ◌+◌, ◌<◌, ◌≤◌, ◌^◌, length};
ghost use Rattle.mcbp_frame.specs.Frames.{frame_data};
ghost use Rattle.mcbp_ops.specs.Checks.{extras_of, key_of, value_of};

use mcbp_frame::Frame;

/// The parts of a frame's body, in their order.
#[derive(Clone, Copy)]
pub struct Parts<'a> {
    pub extras: &'a [u8],
    pub key: &'a [u8],
    pub value: &'a [u8],
}

/// The parts of a frame's body.
pub fn parts_of<'a>(frame: &Frame<'a>) -> Parts<'a>
    requires { frame.now.extras_len + frame.now.key_len ≤ length frame.now.body.now }
    ensures extras { result.extras.now ≡ extras_of (frame_data frame.now) }
    ensures key { result.key.now ≡ key_of (frame_data frame.now) }
    ensures key_len { length result.key.now ≡ frame.now.key_len }
    ensures key_fits { length result.key.now < 2 ^ 16 }
    ensures value { result.value.now ≡ value_of (frame_data frame.now) }
{
    let (extras, rest) = frame.body.split_at(frame.extras_len as usize);
    let (key, value) = rest.split_at(frame.key_len as usize);
    Parts { extras, key, value }
}

/// The key of a frame, as far as its body goes: what isn't refused has the whole key in its body.
pub fn key_of<'a>(frame: &Frame<'a>) -> &'a [u8]
    ensures key { result.now ≡ key_of (frame_data frame.now) }
    ensures fits { length result.now < 2 ^ 16 }
{
    let body = frame.body;
    let rest = &body[(frame.extras_len as usize).min(body.len())..];
    &rest[..(frame.key_len as usize).min(rest.len())]
}
