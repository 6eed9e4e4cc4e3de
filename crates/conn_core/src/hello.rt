// The features of a connection, and what a client asks for by Hello.
ghost use Rattle.std.specs.Prelude.{◌≡◌};
ghost use Rattle.conn_core.specs.Hello.{asks_seqno};

/// What a client was granted by its last Hello, at first nothing.
#[derive(Clone, Copy, Debug, PartialEq, Eq)]
pub struct Features {
    /// Mutations show the uuid and the sequence number (feature 0004 of kv_engine).
    pub seqno: bool,
}

/// Whether feature 0004 stands among these codes of two bytes each. Its cost is linear in their number.
pub fn asks_seqno(codes: &[u8]) -> bool
    ensures { result ≡ asks_seqno codes.now }
{
    let mut rest = codes;
    while let [high, low, after @ ..] = rest {
        if *high == 0 && *low == 4 {
            return true;
        }
        rest = after;
    }
    false
}
