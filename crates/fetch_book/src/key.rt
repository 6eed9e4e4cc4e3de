// A key in place.
ghost use Rattle.std.specs.Prelude.{◌≡◌};
ghost use Rattle.ep_model.specs.Limits.{IsKey};

use ep_model::limits::MAX_KEY;
use std::marker::Model;

/// A key in place, which takes no memory of its own. Contracts see its bytes.
#[derive(Drop)]
pub struct Key {
    bytes: [u8; MAX_KEY],
    len: u8,
}

impl Model for Key {
    ghost use Rattle.std.specs.Prelude.{ℕ, List, take, ◌≤◌};
    ghost use Rattle.ep_model.specs.Limits.{max_key};

    ghost Value = { List ℕ };

    ghost view = { λ k. take k.len k.bytes };

    ghost invariant = { λ k. (1 ≤ k.len) × (k.len ≤ max_key) };
}

impl Key {
    /// These bytes. Its cost is linear in their number.
    pub fn of(key: &[u8]) -> Key
        requires { IsKey key.now }
        ensures { result ≡ key.now }
    {
        let mut bytes = [0; MAX_KEY];
        bytes[..key.len()].copy_from_slice(key);
        let len = key.len() as u8;
        Key { bytes, len }
    }

    /// The key's bytes, in constant time.
    pub fn as_slice(&self) -> &[u8]
        ensures bytes { result.now ≡ self.now }
        ensures key { IsKey self.now }
    {
        &self.bytes[..usize::from(self.len)]
    }
}
