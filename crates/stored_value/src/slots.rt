// Places for nodes.
ghost use Rattle.std.specs.Prelude.{◌≡◌, ◌<◌, length, None, Some, IfOk, slice_get, slice_set, replicate};
ghost use Rattle.std.specs.Option.{option_copied, ForSome, is_none};
ghost use Rattle.std.specs.List.{position_from};

use crate::Node;
use ep_model::NoMemory;
use std::alloc::Global;
use std::marker::Model;
use std::mem;

/// A fixed number of places, each with a node or empty. Contracts see them as a list.
#[derive(Drop)]
pub struct Slots<C> {
    places: Vec<Option<Node<C>>>,
}

impl<C> Model for Slots<C> {
    ghost use Rattle.std.specs.Prelude.{List, Option, ◌<◌, ◌^◌, length};
    ghost use Rattle.stored_value.specs.declared.node.Node.{Node};

    ghost Value = { List (Option (Node C)) };

    ghost view = { λ s. s.places.items };

    ghost invariant = { λ s. length s.places.items < 2 ^ 32 };
}

impl<C> Slots<C> {
    /// So many places, all empty. This call alone takes memory; its cost is linear in their number.
    pub fn new(alloc: Global, count: u32) -> Result<Slots<C>, NoMemory>
    where
        C: Drop,
        ensures { IfOk result (λ slots. slots ≡ replicate count None) }
    {
        let mut places = Vec::with_capacity(alloc, count as usize)?;
        for _ in 0..count {
            places.push(None)?;
        }
        Ok(Slots { places })
    }

    /// How many places there are.
    pub fn count(&self) -> u32
        ensures { result ≡ length self.now }
    {
        self.places.len() as u32
    }

    /// The node in a place, in constant time.
    pub fn node(&self, slot: u32) -> Option<&Node<C>>
        requires { slot < length self.now }
        ensures { slice_get self.now slot ≡ Some (option_copied result) }
    {
        self.places[slot as usize].as_ref()
    }

    /// Puts a node into a place, or empties it, and gives back what was there, in constant time.
    pub fn swap(&mut self, slot: u32, node: Option<Node<C>>) -> Option<Node<C>>
        requires { slot < length self.old }
        ensures old { slice_get self.old slot ≡ Some result }
        ensures new { self.new ≡ slice_set self.old slot node }
    {
        mem::replace(&mut self.places[slot as usize], node)
    }

    /// The least empty place. Its cost is linear in the number of places.
    pub fn first_empty(&self) -> Option<u32>
        ensures slot { result ≡ position_from is_none 0 self.now }
        ensures within { ForSome result (λ slot. slot < length self.now) }
    {
        match position_of_empty(&self.places) {
            None => None,
            Some(slot) => Some(slot as u32),
        }
    }
}

/// The index of the first empty place.
fn position_of_empty<C>(places: &[Option<Node<C>>]) -> Option<usize>
    ensures place { result ≡ position_from is_none 0 places.now }
    ensures within { ForSome result (λ index. index < length places.now) }
{
    places.iter().position(|place| place.is_none())
}
