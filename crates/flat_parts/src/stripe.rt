// A stripe: what memory has of the documents of some keys, in a list.
ghost use Rattle.std.specs.Prelude.{◌≡◌, ◌+◌, ◌-◌, ◌^◌, ◌≤◌, ◌++◌, [], true, false, min, length, Some, IfOk, OnOk, OnErr};
ghost use Rattle.std.specs.Option.{option_map, option_copied};
ghost use Rattle.ep_model.specs.Limits.{IsKey, max_value};
ghost use Rattle.flat_parts.specs.declared.data.NodeData.{NodeData};
ghost use Rattle.ep_model.specs.World.{doc_from};
ghost use Rattle.flat_parts.specs.Nodes.{node_at, outcome_at, first_waiting, released, settled};
ghost use Rattle.flat_parts.specs.Steps.{is_full, prior_outcome, read_asks, read_waits, read_step, page_step, restored};
ghost use Rattle.flat_parts.specs.Flat.{found_of, node_data, place_data};
ghost use Rattle.flat_parts.specs.Looks.{Look, look, look_shows};
ghost use Rattle.flat_parts.specs.Writes.{live_cas};

use crate::data::{Outcome, Step};
use crate::node::{self, Node, Residency};
use crate::place::Place;
use crate::{nodes, places};
use ep_model::{Cause, Meta, NoMemory, Out, Reply, Ticket, VbState, rules, status};
use std::alloc::Global;
use std::marker::Model;

/// How many reads can wait in a stripe.
const MAX_PLACES: usize = 64;

/// No ticket has this number.
const END_OF_NUMBERS: u64 = 1 << 56;

/// What memory has of the documents of some keys: their nodes, up to which number mutations are known to be stored,
/// the reads that were asked for, in order, and the number of the next ticket.
#[derive(Drop)]
pub struct FlatStripe {
    index: u16,
    pub(crate) nodes: Vec<Node>,
    mark: u64,
    state: VbState,
    opened: bool,
    pub(crate) places: Vec<Place>,
    next: u64,
}

impl Model for FlatStripe {
    ghost use Rattle.flat_parts.specs.declared.data.StripeData.{StripeData};
    ghost use Rattle.flat_parts.specs.Flat.{stripe_data, HasFewPlaces};

    ghost Value = { StripeData };

    ghost view = { λ s. stripe_data s.index s.nodes.items s.mark s.state s.opened s.places.items
        s.next };

    ghost invariant = { λ s. HasFewPlaces s.places.items s.next };
}

impl FlatStripe {
    /// The stripe of this index of an active vBucket that hasn't opened and has no document yet. It takes no memory.
    pub fn new(alloc: Global, index: u16) -> FlatStripe
        ensures { result ≡ record {
          index = index;
          nodes = [];
          mark = 0;
          state = VbState.Active;
          opened = false;
          places = [];
          next = 1;
        } }
    {
        FlatStripe {
            index,
            nodes: Vec::new(alloc),
            mark: 0,
            state: VbState::Active,
            opened: false,
            places: Vec::new(alloc),
            next: 1,
        }
    }

    /// Notes that the vBucket has opened.
    pub fn open(&mut self)
        ensures { self.new ≡ record self.old { opened = true } }
    {
        self.opened = true;
    }

    /// Whether the vBucket has opened.
    pub fn is_opened(&self) -> bool
        ensures { result ≡ self.now.opened }
    {
        self.opened
    }

    /// The vBucket's state.
    pub fn state(&self) -> VbState
        ensures { result ≡ self.now.state }
    {
        self.state
    }

    /// Up to which number mutations are known to be stored.
    pub fn marked(&self) -> u64
        ensures { result ≡ self.now.mark }
    {
        self.mark
    }

    /// Notes that mutations are stored up to this number.
    pub fn raise(&mut self, number: u64)
        ensures { self.new ≡ record self.old { mark = number } }
    {
        self.mark = number;
    }

    /// The node of a key. Its cost is linear in the number of nodes.
    fn node(&self, key: &[u8]) -> Option<&Node>
        ensures { option_map node_data (option_copied result) ≡ node_at self.now.nodes key.now }
    {
        nodes::node_of(&self.nodes, key)
    }

    /// What memory has under a key. Its cost is linear in the number of nodes.
    pub fn find(&self, key: &[u8]) -> Residency
        ensures { result ≡ found_of (node_at self.now.nodes key.now) }
    {
        match self.node(key) {
            None => Residency::Nothing,
            Some(node) => node.found(),
        }
    }

    /// The CAS of the live document of a key.
    pub(crate) fn live_cas(&self, key: &[u8], now: u64) -> Option<u64>
        ensures { result ≡ live_cas (node_at self.now.nodes key.now) now }
    {
        match self.node(key) {
            Some(node) if rules::is_live(node.meta.deleted, node.meta.expiry, now) => {
                Some(node.meta.cas)
            }
            Some(_) | None => None,
        }
    }

    /// The oldest read that still waits.
    pub fn oldest(&self) -> Option<&Place>
        ensures { option_map place_data (option_copied result) ≡ first_waiting self.now.places }
    {
        places::oldest(&self.places)
    }

    /// What became of the read with this number, where its place still stands.
    pub fn outcome(&self, number: u64) -> Option<Outcome>
        ensures { result ≡ outcome_at self.now.places number }
    {
        places::outcome_of(&self.places, number)
    }

    /// Notes what became of the read with this number.
    pub fn settle(&mut self, number: u64, outcome: Outcome)
        ensures { self.new ≡ record self.old { places = settled self.old.places number outcome } }
    {
        places::settle(&mut self.places, number, outcome);
    }

    /// Drops the place of this ticket.
    pub(crate) fn release(&mut self, prior: Option<Ticket>)
        ensures { self.new ≡ record self.old { places = released self.old.places prior } }
    {
        places::release(&mut self.places, prior);
    }

    /// Ejects all values that can be, and answers how many blocks the nodes then take, at most 2^64 - 1, and how many
    /// values were ejected. Its cost is linear in the number of nodes.
    pub fn page(&mut self) -> (u64, u64)
        ensures stripe { self.new ≡ (page_step self.old).stripe }
        ensures used { result.0 ≡ min (page_step self.old).used (2 ^ 64 - 1) }
        ensures ejects { result.1 ≡ (page_step self.old).ejected }
    {
        nodes::page(&mut self.nodes, self.mark)
    }

    /// What became of the read that was asked for before.
    fn prior_outcome(&self, prior: Option<Ticket>) -> Option<Outcome>
        ensures { result ≡ prior_outcome self.now prior }
    {
        match prior {
            Some(ticket) if ticket.stripe == self.index => self.outcome(ticket.number),
            Some(_) | None => None,
        }
    }

    /// What a Get comes to without the store, and appends the value that it shows. Nothing where it has to ask.
    fn look(&self, key: &[u8], now: u64, value: &mut Out) -> Option<Step>
        requires { max_value ≤ value.old.spare }
        ensures step { result ≡ option_map (λ (l : Look). l.0) (look self.now key.now now) }
        ensures value { value.new.bytes ≡ value.old.bytes
            ++ look_shows (look self.now key.now now) }
        ensures room { value.new.spare + length value.new.bytes
            ≡ value.old.spare + length value.old.bytes }
    {
        if !self.is_opened() {
            return Some(Step::Refused(Cause::Warming));
        }
        if let Some(refused) = rules::state_refusal(self.state(), true) {
            return Some(Step::Done(Reply::refusal(refused)));
        }
        match self.node(key) {
            None => Some(Step::Done(Reply::refusal(status::KEY_NOT_FOUND))),
            Some(node) => match &node.value {
                None => None,
                Some(bytes) => Some(Step::Done(node::show(node.meta, bytes, now, value))),
            },
        }
    }

    /// Whether no more reads can be asked for, once the place of this ticket is dropped.
    fn is_full_without(&self, prior: Option<Ticket>) -> bool
        ensures { result ≡ is_full (released self.now.places prior) self.now.next }
    {
        places::count_without(&self.places, prior) >= MAX_PLACES || self.next >= END_OF_NUMBERS
    }

    /// Asks for a key at a new place, in place of the one of a ticket. Where memory is wanting, nothing has changed.
    fn ask(&mut self, alloc: Global, prior: Option<Ticket>, key: &[u8]) -> Result<Step, NoMemory>
        requires { IsKey key.now }
        ensures step { IfOk result (λ step. step
            ≡ (read_asks self.old (released self.old.places prior) key.now).step) }
        ensures stripe { OnOk result (self.new
            ≡ (read_asks self.old (released self.old.places prior) key.now).stripe) }
        ensures err { OnErr result (self.new ≡ self.old) }
        ensures memory { OnErr result ((read_asks
            self.old (released self.old.places prior) key.now).step
            ≡ Step.Fetch (record { stripe = self.old.index; number = self.old.next })) }
    {
        if self.is_full_without(prior) {
            self.release(prior);
            return Ok(Step::FetchFull);
        }
        let number = self.next;
        let key = key.to_vec(alloc)?;
        self.places.reserve(1)?;
        let outcome = Outcome::Waiting;
        places::replace(
            &mut self.places,
            prior,
            Place {
                number,
                key,
                outcome,
            },
        );
        self.next = number + 1;
        Ok(Step::Fetch(Ticket {
            stripe: self.index,
            number,
        }))
    }

    /// A Get of a value that isn't in memory: waits on, is refused for what became of its read, or asks.
    fn wait(&mut self, alloc: Global, prior: Option<Ticket>, key: &[u8]) -> Result<Step, NoMemory>
        requires { IsKey key.now }
        ensures step { IfOk result (λ step. step
            ≡ (read_waits self.old prior key.now (prior_outcome self.old prior)).step) }
        ensures stripe { OnOk result (self.new
            ≡ (read_waits self.old prior key.now (prior_outcome self.old prior)).stripe) }
        ensures err { OnErr result (self.new ≡ self.old) }
        ensures memory { OnErr result ((read_waits
            self.old prior key.now (prior_outcome self.old prior)).step
            ≡ Step.Fetch (record { stripe = self.old.index; number = self.old.next })) }
    {
        match (prior, self.prior_outcome(prior)) {
            (Some(ticket), Some(Outcome::Waiting)) => Ok(Step::Fetch(ticket)),
            (Some(ticket), Some(Outcome::Failed(_))) => {
                self.release(prior);
                Ok(Step::Refused(Cause::Store(ticket)))
            }
            (Some(ticket), Some(Outcome::NoMemory)) => {
                self.release(prior);
                Ok(Step::Refused(Cause::Memory(ticket)))
            }
            (None, _) | (Some(_), None | Some(Outcome::Merged | Outcome::Absent)) => {
                self.ask(alloc, prior, key)
            }
        }
    }

    /// A Get at a moment in nanoseconds since 1970, which asked at the ticket `prior` before. It appends the value
    /// that it shows. It takes memory only to ask, and where that is wanting nothing has changed. Its cost is linear
    /// in the number of nodes and in the length of the value.
    pub fn read(
        &mut self,
        alloc: Global,
        prior: Option<Ticket>,
        key: &[u8],
        now: u64,
        value: &mut Out,
    ) -> Result<Step, NoMemory>
        requires key { IsKey key.now }
        requires spare { max_value ≤ value.old.spare }
        ensures step { IfOk result (λ step. step ≡ (read_step self.old prior key.now now).step) }
        ensures stripe { OnOk result (self.new ≡ (read_step self.old prior key.now now).stripe) }
        ensures value { OnOk result (value.new.bytes
            ≡ value.old.bytes ++ (read_step self.old prior key.now now).value) }
        ensures err { OnErr result ((self.new ≡ self.old) × (value.new ≡ value.old)) }

        // Memory is wanting only where a read is asked for.
        ensures memory { OnErr result ((read_step self.old prior key.now now).step
            ≡ Step.Fetch (record { stripe = self.old.index; number = self.old.next })) }
        ensures room { value.new.spare + length value.new.bytes
            ≡ value.old.spare + length value.old.bytes }
    {
        match self.look(key, now, value) {
            Some(step) => {
                self.release(prior);
                Ok(step)
            }
            None => self.wait(alloc, prior, key),
        }
    }

    /// Puts a value back that was read for the node of this key. It takes no memory.
    pub fn restore(&mut self, key: &[u8], meta: Meta, value: Vec<u8>)
        requires node { (node : NodeData)
            × (node_at self.old.nodes key.now ≡ Some node) × (node.meta ≡ meta) }
        requires len { meta.len ≡ length value.items }
        requires fits { length value.items ≤ max_value }
        ensures { self.new ≡ restored self.old key.now (doc_from meta value.items) }
    {
        nodes::restore(&mut self.nodes, key, meta, value);
    }
}
