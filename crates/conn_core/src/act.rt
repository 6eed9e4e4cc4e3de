// What is left to do for a frame.
use ep_model::{Call, CallData};
use mcbp_ops::Form;
use std::collections::LinkedList;

/// What is left to do for a frame once the connection has done its part.
#[derive(Clone, Copy)]
pub enum Act<'a> {
    /// The connection answered it by itself.
    Answered,
    /// It was answered, and ends the connection.
    Quit,
    /// A call on the frame's vBucket, which there is, with the form of its opcode.
    Engine { call: Call<'a>, form: Form },
    /// The statistics of a group.
    Stat(&'a [u8]),
}

/// An `Act` as clauses see it. No value of this type is made.
pub enum ActData {
    Answered,
    Quit,
    Engine(CallData),
    Stat(LinkedList<u8>),
}
