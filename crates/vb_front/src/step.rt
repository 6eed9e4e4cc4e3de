// What a call on held parts comes to.
use ep_model::{Cause, Reply, Ticket};

/// What a call on held parts came to.
#[derive(Clone, Copy, Debug, PartialEq, Eq)]
pub enum Step {
    Done(Reply),
    Refused(Cause),
    /// The call waits for the store at this ticket.
    Fetch(Ticket),
    /// No more calls can wait on the stripe.
    FetchFull,
}
