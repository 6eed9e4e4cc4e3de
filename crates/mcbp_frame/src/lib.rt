//! Frames of the memcached binary protocol: bytes in pieces of any size become whole request frames and a rest,
//! and a response frame becomes bytes.
#![tactic(auto)]

mod feeder;
mod frame;
mod laws;
mod response;

pub use feeder::{Feeder, FeederData, Next};
pub use frame::{Frame, FrameData, HEADER, MAX_BODY, REQUEST, RESPONSE};
pub use laws::{
    division_goes_on, kinds_are_apart, one_division, rest_is_of_a_kind, some_division,
    stream_divides,
};
pub use response::{put_head, put_response};

#[cfg(test)]
mod tests;
