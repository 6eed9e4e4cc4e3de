// Where bytes go.
ghost use Rattle.std.specs.Prelude.{◌≡◌, ◌<◌, ◌≤◌, ℕ, List, Option, length};
ghost use Rattle.ep_edge.specs.Edge.{Appends, AppendsFront, Offer, offer, write_faults};

/// How a write went.
#[derive(Clone, Copy, Debug, PartialEq, Eq)]
pub enum Put {
    Done,
    Failed,
}

/// Where bytes go.
pub trait Sink: Drop {
    /// The bytes that were written, where the sink tells them.
    ghost held: { Self → Option (List ℕ) };

    /// How often it has failed. A count that stands at 2^64 - 1 stays there.
    ghost faults: { Self → ℕ };

    /// What it held and how often it had failed as its last write began, and how many bytes that was to write.
    ghost last_offer: { Self → Offer };

    /// Writes all the bytes. A failed write may have written some of them, from the first on.
    fn write(&mut self, bytes: &[u8]) -> Put
        requires { 0 < length bytes.now }
        ensures done { result ≡ Put.Done → Appends (held self.old) (held self.new) bytes.now }
        ensures failed { result ≡ Put.Failed → AppendsFront (held self.old) (held self.new)
            bytes.now }
        ensures faults { faults self.new ≡ write_faults result (faults self.old) }
        ensures offered { last_offer self.new ≡ offer (held self.old) (faults self.old)
            (length bytes.now) };
}
