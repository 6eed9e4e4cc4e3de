// The plain map: the program that the definitions describe, over a hash map of documents. It is the oracle of
// tests, and for now what a session serves.
mod counters;
mod documents;
mod reads;
mod states;
mod stores;

ghost use Rattle.std.specs.Prelude.{◌≡◌, ◌≢◌, ◌+◌, ◌≤◌, ◌<◌, ◌^◌, ◌++◌, [], length, true, None, IfOk, OnOk, OnErr, decimal};
ghost use Rattle.std.specs.FinMap as finmap;
ghost use Rattle.std.specs.Option.{option_map, option_copied};
ghost use Rattle.ep_model.specs.World.{empty_world, live, next_doc};
ghost use Rattle.ep_model.specs.Limits.{IsMoment, IsWithin, max_value};
ghost use Rattle.ep_model.specs.Config.{max_blocks};
ghost use Rattle.ep_model.specs.Refusals.{number_refusal};
ghost use Rattle.ep_model.specs.Answer.{Nothing, answer, answer_row, apply, cas_of, put_success};
ghost use Rattle.ep_model.specs.History.{call_data};
ghost use Rattle.ep_model.specs.Plain.{Does, Serves, document_data, value_of};

use crate::config::MAX_BLOCKS;
use crate::document::{Document, Draft};
use crate::limits::MAX_VALUE;
use crate::{Call, NoMemory, Out, Reply, VbState, decimal, rules, status};
use documents::{Documents, document_of, live_of, put_document};
use std::alloc::Global;
use std::collections::HashMap;
use std::marker::Model;

/// The plain map of one vBucket that is open, under value eviction, with an empty failover table and nothing
/// stored. A call looks its key up in a hash map once, again where it puts a document, and a third time where that is
/// the key's first or a Get-and-touch shows it; it copies the key only where that is the first. So a call's cost is
/// linear in the lengths of its key and value, but for the hash map, which moves its entries as it grows and has no bound
/// for keys that all collide.
#[derive(Drop)]
pub struct Plain {
    alloc: Global,
    id: u16,
    fit: u32,
    state: VbState,
    documents: Documents,
    high: u64,
    maxcas: u64,
}

impl Model for Plain {
    ghost use Rattle.ep_model.specs.World.{World};
    ghost use Rattle.ep_model.specs.Codes.{coded_world};
    ghost use Rattle.ep_model.specs.Plain.{plain_world, IsSound};

    ghost Value = { World };

    ghost coded = { coded_world };

    ghost view = { λ p. plain_world p.id p.fit p.state p.documents.entries p.high p.maxcas };

    ghost invariant = { λ p. IsSound p.high p.maxcas };
}

impl Plain {
    /// The vBucket 0, active and with no document yet. A document may take all blocks of the greatest bucket.
    pub fn new(alloc: Global) -> Plain
        ensures { result ≡ record (empty_world 0 max_blocks) { opened = true } }
    {
        Plain {
            alloc,
            id: 0,
            fit: MAX_BLOCKS,
            state: VbState::Active,
            documents: HashMap::new(alloc),
            high: 0,
            maxcas: 0,
        }
    }

    /// Answers a call at a moment in nanoseconds since 1970, and appends the answer's value.
    pub fn answer(&mut self, call: &Call, now: u64, value: &mut Out) -> Result<Reply, NoMemory>
        requires moment { IsMoment now }
        requires within { IsWithin (call_data call.now) }
        requires spare { max_value ≤ value.old.spare }

        ensures reply { IfOk result (λ reply. reply
            ≡ (answer self.old (call_data call.now) now).reply) }
        ensures value { OnOk result (value.new.bytes ≡ value.old.bytes
            ++ (answer self.old (call_data call.now) now).value) }
        ensures world { OnOk result (self.new ≡ apply self.old
            (answer self.old (call_data call.now) now).effect) }
        ensures err { OnErr result ((self.new ≡ self.old) × (value.new ≡ value.old)) }

        // Memory is wanting only where something is to be kept.
        ensures memory { OnErr result ((answer self.old (call_data call.now) now).effect
            ≢ Nothing) }
        ensures room { value.new.spare + length value.new.bytes ≡ value.old.spare
            + length value.old.bytes }
    {
        match rules::state_refusal(self.state(), call.has_key()) {
            Some(refused) => Ok(Reply::refusal(refused)),
            None => self.answer_row(call, now, value),
        }
    }

    /// Answers a call that the vBucket's state allows.
    fn answer_row(&mut self, call: &Call, now: u64, value: &mut Out) -> Result<Reply, NoMemory>
        requires moment { IsMoment now }
        requires within { IsWithin (call_data call.now) }
        requires spare { max_value ≤ value.old.spare }
        ensures { Serves (answer_row self.old (call_data call.now) now) self.old self.new value.old
            value.new result }
    {
        match *call {
            Call::Get { key } => Ok(self.get(key, now, value)),
            Call::Store {
                kind,
                key,
                value: bytes,
                flags,
                expiration,
                cas,
            } => self.store(kind, key, bytes, flags, expiration, cas, now),
            Call::Join {
                front,
                key,
                value: piece,
                cas,
            } => self.join(front, key, piece, cas, now),
            Call::Count {
                down,
                key,
                delta,
                initial,
                expiration,
                cas,
            } => self.count(down, key, delta, initial, expiration, cas, now, value),
            Call::Delete { key, cas } => self.delete(key, cas, now),
            Call::Touch {
                key,
                expiration,
                fetch,
            } => self.touch(key, expiration, fetch, now, value),
            Call::Observe { uuid } => Ok(self.observe(uuid, value)),
            Call::Failovers => Ok(self.failovers()),
            Call::SetState { state } => Ok(self.set_state(state)),
            Call::GetState => Ok(self.get_state(value)),
        }
    }

    /// How many blocks a document may take at most.
    fn fit(&self) -> u32
        ensures { result ≡ self.now.fit }
    {
        self.fit
    }

    fn state(&self) -> VbState
        ensures { result ≡ self.now.state }
    {
        self.state
    }

    /// The status by which any effect is refused, if it is.
    fn number_refusal(&self) -> Option<u16>
        ensures { result ≡ number_refusal self.now.high }
    {
        rules::number_refusal(self.high)
    }

    /// The live document of a key.
    fn live(&self, key: &[u8], now: u64) -> Option<&Document>
        ensures { option_map document_data (option_copied result) ≡ live self.now key.now now }
    {
        live_of(document_of(&self.documents, key), now)
    }

    /// The CAS of the live document of a key.
    fn live_cas(&self, key: &[u8], now: u64) -> Option<u64>
        ensures { result ≡ cas_of (live self.now key.now now) }
    {
        Some(self.live(key, now)?.cas)
    }

    /// A copy of these bytes.
    fn copy(&self, bytes: &[u8]) -> Result<Vec<u8>, NoMemory>
        ensures items { IfOk result (λ v. v.items ≡ bytes.now) }
    {
        Ok(bytes.to_vec(self.alloc)?)
    }

    /// A number's text.
    fn text(&self, number: u64) -> Result<Vec<u8>, NoMemory>
        ensures text { IfOk result (λ v. v.items ≡ decimal number) }
        ensures short { IfOk result (λ v. length v.items ≤ max_value) }
    {
        decimal::text_of(self.alloc, number)
    }

    /// Appends the value of the document of a key, live or not.
    fn show_value(&self, key: &[u8], value: &mut Out)
        requires { max_value ≤ value.old.spare }
        ensures bytes { value.new.bytes ≡ value.old.bytes
            ++ value_of (finmap.get self.now.docs key.now) }
        ensures room { value.new.spare + length value.new.bytes ≡ value.old.spare
            + length value.old.bytes }
    {
        if let Some(document) = document_of(&self.documents, key) {
            value.push(&document.value);
        }
    }

    /// Puts a document under the next numbers over the one of its key, and replies with these flags.
    fn put(&mut self, key: &[u8], draft: Draft, flags: u32, now: u64) -> Result<Reply, NoMemory>
        requires moment { IsMoment now }
        requires room { number_refusal self.old.high ≡ None }
        ensures { Does (put_success self.old key.now
            (next_doc self.old draft.value.items draft.flags draft.expiry draft.deleted now) flags
            []) self.old self.new result }
    {
        let cas = rules::stamp(self.maxcas, now);
        let seqno = self.high + 1;
        let document = draft.document(cas, seqno);
        put_document(&mut self.documents, self.alloc, key, document)?;
        self.high = seqno;
        self.maxcas = cas;
        Ok(Reply {
            status: status::SUCCESS,
            cas,
            flags,
            uuid: 0,
            seqno,
        })
    }
}
