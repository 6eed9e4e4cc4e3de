//! What a request frame of the memcached binary protocol asks for, and the text of its reply: the table of opcodes,
//! with the checks that a frame has to pass, in their order.
#![tactic(auto)]

mod kind;
mod laws;
mod op;
pub mod opcodes;
mod parts;
mod read;
mod reply;
mod shape;
mod text;

pub use kind::{Form, Kind, Silence};
pub use laws::{
    each_opcode_is_served, quiet_reads_as_plain, refusals_are_written, reply_text_fits,
};
pub use op::{Bad, Op, OpData};
pub use read::{Reading, read_call};
pub use reply::{is_silent, reply_text};
pub use text::{begin_reply, end_reply, put_status, put_value};

#[cfg(test)]
mod tests;
