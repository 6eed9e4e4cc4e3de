// One request frame.
use std::collections::LinkedList;

/// The first byte of a request.
pub const REQUEST: u8 = 0x80;

/// The first byte of a response.
pub const RESPONSE: u8 = 0x81;

/// The length of a header in bytes.
pub const HEADER: usize = 24;

/// The greatest length of a body in bytes.
pub const MAX_BODY: usize = 2_097_152;

/// A request frame. The body is the extras, the key and the value in this order; `at` is the place of the
/// frame's first byte in its stream.
#[derive(Clone, Copy)]
pub struct Frame<'a> {
    pub opcode: u8,
    pub key_len: u16,
    pub extras_len: u8,
    pub datatype: u8,
    pub vbucket: u16,
    pub opaque: u32,
    pub cas: u64,
    pub body: &'a [u8],
    pub at: u64,
}

/// A `Frame` as clauses see it. No value of this type is made.
pub struct FrameData {
    pub opcode: u8,
    pub key_len: u16,
    pub extras_len: u8,
    pub datatype: u8,
    pub vbucket: u16,
    pub opaque: u32,
    pub cas: u64,
    pub body: LinkedList<u8>,
    pub at: u64,
}
