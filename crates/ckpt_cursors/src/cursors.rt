// The cursors of those who read a vBucket's mutations in order.
ghost use Rattle.std.specs.Prelude.{◌≡◌, ◌≤◌, ◌↔◌, ◌++◌, ℕ, [], ◌∷◌, IsTrue, IsSome, OnOk, OnErr, length};
ghost use Rattle.std.specs.Option.{option_map};
ghost use Rattle.std.specs.Bool.{OnFalse, OnTrue};
ghost use Rattle.ckpt_cursors.specs.Cursors.{position_of, without, first_least, least_of, without_least, still_least};

use arrayvec::ArrayVec;
use std::marker::Model;

/// How many named cursors there are at most.
pub const MAX_CURSORS: usize = 8;

/// Why a cursor wasn't added.
#[derive(Clone, Copy, Debug, PartialEq, Eq)]
pub enum CursorFault {
    /// A cursor of this name stands.
    Taken,
    /// As many others stand as there may be.
    Full,
}

/// Named positions, at most eight. It takes no memory, and each call goes over those that stand.
#[derive(Drop)]
pub struct Cursors {
    named: ArrayVec<(u32, u64), MAX_CURSORS>,
}

impl Model for Cursors {
    ghost use Rattle.std.specs.Prelude.{List, ℕ, ◌≤◌, length};

    ghost Value = { List (ℕ × ℕ) };

    ghost view = { λ c. c.named.items };

    ghost invariant = { λ c. length c.named.items ≤ 8 };
}

impl Default for Cursors {
    ghost is_default = { λ c. c ≡ [] };

    fn default() -> Self {
        Cursors::new()
    }
}

impl Cursors {
    /// No cursor.
    pub fn new() -> Cursors
        ensures { result ≡ [] }
    {
        Cursors {
            named: ArrayVec::new(),
        }
    }

    /// Adds a cursor of this name at this position.
    pub fn add(&mut self, name: u32, at: u64) -> Result<(), CursorFault>
        ensures taken { (result ≡ Err CursorFault.Taken) ↔ IsSome (position_of self.old name) }
        ensures full { (result ≡ Err CursorFault.Full)
            ↔ ((position_of self.old name ≡ None) × (length self.old ≡ 8)) }
        ensures ok { OnOk result (self.new ≡ self.old ++ (name, at) ∷ []) }
        ensures err { OnErr result (self.new ≡ self.old) }
    {
        if self.at(name).is_some() {
            return Err(CursorFault::Taken);
        }
        if self.named.is_full() {
            return Err(CursorFault::Full);
        }
        self.named.push((name, at));
        Ok(())
    }

    /// Where the cursor of this name stands.
    pub fn at(&self, name: u32) -> Option<u64>
        ensures { result ≡ position_of self.now name }
    {
        self.named
            .as_slice()
            .iter()
            .find(|cursor| cursor.0 == name)
            .map(|cursor| cursor.1)
    }

    /// Moves the cursor of this name there; false where it doesn't stand, and then nothing changes.
    pub fn move_to(&mut self, name: u32, at: u64) -> bool
        ensures moved { IsTrue result ↔ IsSome (position_of self.old name) }
        ensures after { OnTrue result (self.new ≡ without self.old name ++ (name, at) ∷ []) }
        ensures same { OnFalse result (self.new ≡ self.old) }
    {
        if self.at(name).is_none() {
            return false;
        }
        self.named.retain(|cursor| cursor.0 != name);
        self.named.push((name, at));
        true
    }

    /// Removes the cursor of this name, if it stands.
    pub fn remove(&mut self, name: u32)
        ensures { self.new ≡ without self.old name }
    {
        self.named.retain(|cursor| cursor.0 != name);
    }

    /// The first cursor of those at the least position.
    fn first_least(&self) -> Option<(u32, u64)>
        ensures { result ≡ first_least self.now }
    {
        let cursors = self.named.as_slice();
        let mut least = None;
        for cursor in cursors {
            least = Some(still_least(least, *cursor));
        }
        least
    }

    /// The least position.
    pub fn least(&self) -> Option<u64>
        ensures { result ≡ least_of self.now }
    {
        self.first_least().map(|cursor| cursor.1)
    }

    /// Removes the first cursor of those at the least position, and answers its name.
    pub fn drop_least(&mut self) -> Option<u32>
        ensures name { result ≡ option_map (λ (c : ℕ × ℕ). c.0) (first_least self.old) }
        ensures after { self.new ≡ without_least self.old }
    {
        match self.first_least() {
            None => None,
            Some(cursor) => {
                self.remove(cursor.0);
                Some(cursor.0)
            }
        }
    }
}

/// The lower of the lowest cursor so far, where there is one, and another.
fn still_least(least: Option<(u32, u64)>, cursor: (u32, u64)) -> (u32, u64)
    ensures { result ≡ still_least least cursor }
{
    match least {
        Some(first) if first.1 <= cursor.1 => first,
        _ => cursor,
    }
}
