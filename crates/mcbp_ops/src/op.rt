// What a frame asks for, and why a frame is refused.
ghost use Rattle.std.specs.Prelude.{◌≡◌};
ghost use Rattle.mcbp_ops.specs.Ops.{bad_status};

use ep_model::status::{INVALID, NOT_SUPPORTED, TOO_LARGE, UNKNOWN_COMMAND};
use ep_model::{Call, CallData};
use std::collections::LinkedList;

/// What a frame asks for: a call on its vBucket, or something that is the connection's own.
#[derive(Clone, Copy)]
pub enum Op<'a> {
    Engine(Call<'a>),
    Noop,
    Version,
    /// The statistics of a group; an empty name asks for the common ones.
    Stat { group: &'a [u8] },
    /// The features that a client asks for, two bytes each.
    Hello { codes: &'a [u8] },
    Quit,
}

/// An `Op` as clauses see it. No value of this type is made.
pub enum OpData {
    Engine(CallData),
    Noop,
    Version,
    Stat { group: LinkedList<u8> },
    Hello { codes: LinkedList<u8> },
    Quit,
}

/// Why a frame is refused before anything is done.
#[derive(Clone, Copy, Debug, PartialEq, Eq)]
pub enum Bad {
    /// The opcode isn't known.
    Unknown,
    /// The opcode is known and never served.
    Unsupported,
    /// The data type, a length or a state isn't one that the opcode allows.
    Invalid,
    /// The value is longer than any value may be.
    TooLarge,
}

impl Bad {
    /// The status that answers such a frame.
    pub fn status(self) -> u16
        ensures { result ≡ bad_status self }
    {
        match self {
            Bad::Unknown => UNKNOWN_COMMAND,
            Bad::Unsupported => NOT_SUPPORTED,
            Bad::Invalid => INVALID,
            Bad::TooLarge => TOO_LARGE,
        }
    }
}
