//! The top call of the program: a whole session from bytes to bytes, with its history.
#![tactic(auto)]

mod end;
mod laws;
mod responder;
mod session;

pub use end::End;
pub use laws::one_end;
pub use session::{MAX_TAKEN, SessionEnd, run_session};

#[cfg(test)]
mod tests;
