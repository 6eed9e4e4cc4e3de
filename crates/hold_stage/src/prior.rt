// The ticket at which a call has asked before.
ghost use Rattle.std.specs.Prelude.{◌≡◌};
ghost use Rattle.hold_stage.specs.Priors.{is_prior};

use ep_model::Ticket;

/// Whether a ticket is the one at which a call has asked before. Constant time.
pub fn is_prior(prior: Option<Ticket>, ticket: Ticket) -> bool
    ensures { result ≡ is_prior prior ticket }
{
    match prior {
        Some(prior) => prior.number == ticket.number && prior.stripe == ticket.stripe,
        None => false,
    }
}
