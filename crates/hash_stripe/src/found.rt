// What memory has of documents.
use ep_model::Meta;

/// What memory has under a key.
#[derive(Clone, Copy, Debug, PartialEq, Eq)]
pub enum Found {
    Nothing,
    /// The document's value is away.
    Ejected(Meta),
    Resident(Meta),
}

/// How many documents have their value in memory, and how many don't.
#[derive(Clone, Copy, Debug, PartialEq, Eq)]
pub struct Counts {
    pub resident: u32,
    pub ejected: u32,
}

/// What a slot shows of its node without its bytes.
#[derive(Clone, Copy, Debug, PartialEq, Eq)]
pub(crate) struct Look {
    pub meta: Meta,
    pub is_resident: bool,
    pub age: u8,
}

impl Look {
    ghost use Rattle.std.specs.Prelude.{◌≡◌};
    ghost use Rattle.hash_stripe.specs.Looks.{found_look};

    /// What memory has under the key.
    pub(crate) fn found(self) -> Found
        ensures { result ≡ found_look self }
    {
        if self.is_resident {
            Found::Resident(self.meta)
        } else {
            Found::Ejected(self.meta)
        }
    }
}
