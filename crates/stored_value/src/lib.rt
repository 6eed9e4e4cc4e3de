//! What memory holds of a document, and the places in which it holds it.
#![tactic(auto)]

mod node;
mod slots;

pub use node::Node;
pub use slots::Slots;
