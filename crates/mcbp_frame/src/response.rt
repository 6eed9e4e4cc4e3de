// Writing a response frame.
ghost use Rattle.std.specs.Prelude.{◌≡◌, ◌+◌, ◌<◌, ◌≤◌, ◌^◌, ◌++◌, length, take, drop};
ghost use Rattle.mcbp_frame.specs.Response.{response, response_header};

use crate::frame::{HEADER, RESPONSE};
use ep_model::Out;

// The header of a response whose extras, key and value are so long.
fn header_of(
    opcode: u8,
    status: u16,
    opaque: u32,
    cas: u64,
    datatype: u8,
    extras_len: usize,
    key_len: usize,
    value_len: usize,
) -> [u8; 24]
    requires extras_fit { extras_len < 2 ^ 8 }
    requires key_fits { key_len < 2 ^ 16 }
    requires body_fits { extras_len + key_len + value_len < 2 ^ 64 }
    ensures { result ≡ response_header opcode status opaque cas datatype extras_len key_len
        value_len }
{
    let [k0, k1] = (key_len as u16).to_be_bytes();
    let [s0, s1] = status.to_be_bytes();
    let body_len = (extras_len + key_len + value_len) as u64;
    let [_, _, _, _, b0, b1, b2, b3] = body_len.to_be_bytes();
    let [o0, o1, o2, o3] = opaque.to_be_bytes();
    let [c0, c1, c2, c3, c4, c5, c6, c7] = cas.to_be_bytes();
    [
        RESPONSE,
        opcode,
        k0,
        k1,
        extras_len as u8,
        datatype,
        s0,
        s1,
        b0,
        b1,
        b2,
        b3, //
        o0,
        o1,
        o2,
        o3,
        c0,
        c1,
        c2,
        c3,
        c4,
        c5,
        c6,
        c7,
    ]
}

/// Appends one response frame. The lengths of the extras and the key fit 8 and 16 bits, and of that of the body 32
/// bits are written. Its cost is linear in the frame's length.
pub fn put_response(
    out: &mut Out,
    opcode: u8,
    status: u16,
    opaque: u32,
    cas: u64,
    datatype: u8,
    extras: &[u8],
    key: &[u8],
    value: &[u8],
)
    requires spare { 24 + length extras.now + length key.now + length value.now ≤ out.old.spare }
    requires extras_fit { length extras.now < 2 ^ 8 }
    requires key_fits { length key.now < 2 ^ 16 }

    ensures bytes { out.new.bytes ≡ out.old.bytes
        ++ response opcode status opaque cas datatype extras.now key.now value.now }
    ensures spare { out.new.spare + (24 + length extras.now + length key.now + length value.now)
        ≡ out.old.spare }
{
    let (extras_len, key_len, value_len) = (extras.len(), key.len(), value.len());
    out.push(&header_of(
        opcode, status, opaque, cas, datatype, extras_len, key_len, value_len,
    ));
    out.push(extras);
    out.push(key);
    out.push(value);
}

/// Makes a response frame of what stands from `at` on: what is behind the room for a header, extras and key is its
/// value, and they are put over that room. Its cost is linear in the lengths of extras and key.
pub fn put_head(
    out: &mut Out,
    at: usize,
    opcode: u8,
    status: u16,
    opaque: u32,
    cas: u64,
    datatype: u8,
    extras: &[u8],
    key: &[u8],
)
    requires room { at + (24 + length extras.now + length key.now) ≤ length out.old.bytes }
    requires extras_fit { length extras.now < 2 ^ 8 }
    requires key_fits { length key.now < 2 ^ 16 }

    ensures bytes { out.new.bytes ≡ take at out.old.bytes
        ++ response opcode status opaque cas datatype extras.now key.now
        (drop (at + (24 + length extras.now + length key.now)) out.old.bytes) }
    ensures spare { out.new.spare ≡ out.old.spare }
{
    let len = out.bytes().len();
    let key_at = at + HEADER + extras.len();
    let value_len = len - (key_at + key.len());
    let header = header_of(
        opcode,
        status,
        opaque,
        cas,
        datatype,
        extras.len(),
        key.len(),
        value_len,
    );
    out.put_over(at, &header);
    out.put_over(at + HEADER, extras);
    out.put_over(key_at, key);
}
