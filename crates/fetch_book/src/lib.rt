//! The book of places at which the calls on a stripe wait for the store. A place is taken by `ask`, has its outcome by
//! `settle` and is free again by `forget` or `release`. All room is taken when the book is made.
#![tactic(auto)]

mod book;
mod key;
mod place;
mod places;

pub use book::{Book, BookFull};
pub use key::Key;
pub use place::{Outcome, Place};
