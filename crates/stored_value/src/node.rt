// A document in memory.
ghost use Rattle.std.specs.Prelude.{◌≡◌};
ghost use Rattle.stored_value.specs.Ages.{older};

use ep_model::Meta;

/// The greatest age.
const OLDEST: u8 = 3;

/// What memory has of a document: its key and its metadata, and its value where that is resident. `age` is 0 where it was
/// used since the last look at it, and rises to 3. `C` is what bytes are held in.
#[derive(Drop)]
pub struct Node<C> {
    pub key: C,
    pub value: Option<C>,
    pub meta: Meta,
    pub age: u8,
}

impl<C> Node<C> {
    /// Notes that the document is used.
    pub fn heat(&mut self)
        ensures { self.new ≡ record self.old { age = 0 } }
    {
        self.age = 0;
    }

    /// One older, at most 3.
    pub fn cool(&mut self)
        ensures { self.new ≡ record self.old { age = older self.old.age } }
    {
        self.age = self.age.saturating_add(1).min(OLDEST);
    }
}
