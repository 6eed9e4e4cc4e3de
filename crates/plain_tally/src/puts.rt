// What a call puts into a vBucket of plain lists.
ghost use Rattle.std.specs.Prelude.{◌≡◌, ◌<◌, ◌+◌, ◌^◌, Option, None, IfOk};
ghost use Rattle.std.specs.Option.{option_map, option_copied};
ghost use Rattle.ep_model.specs.declared.data.CallData.TheVariants.{Get as GetData, Store as StoreData, Delete as DeleteData};
ghost use Rattle.ep_model.specs.Limits.{IsKey, IsMoment, IsValue, IsWithin};
ghost use Rattle.ep_model.specs.World.{live, next_doc};
ghost use Rattle.ep_model.specs.Refusals.{number_refusal};
ghost use Rattle.ep_model.specs.Answer.{answer, cas_of};
ghost use Rattle.ep_model.specs.History.{call_data, seen_effect};
ghost use Rattle.ep_model.specs.Mutations.{put_by};
ghost use Rattle.plain_tally.specs.Items.{item_data};
ghost use Rattle.plain_tally.specs.Rooms.{doc_data};

use crate::item::PlainItem;
use crate::world::PlainWorld;
use ep_model::{Call, NoMemory, Reply, StoreKind, rules};
use std::alloc::Global;

impl PlainWorld {
    /// What a Set, Add or Replace puts, if it isn't refused.
    pub fn store_puts(
        &self,
        alloc: Global,
        kind: StoreKind,
        key: &[u8],
        value: &[u8],
        flags: u32,
        expiration: u32,
        cas: u64,
        now: u64,
    ) -> Result<Option<PlainItem>, NoMemory>
        requires key { IsKey key.now }
        requires value { IsValue value.now }
        requires numbers { (self.now.high + 1 < 2 ^ 64) × (self.now.maxcas + 1 < 2 ^ 64) }
        ensures { IfOk result (λ puts. option_map item_data puts
            ≡ put_by (answer
            self.now (StoreData kind key.now value.now flags expiration cas) now).effect) }
    {
        let refused = rules::state_refusal(self.state(), true)
            .or(rules::size_refusal(self.fit(), key.len(), value.len()))
            .or(rules::store_refusal(kind, cas, self.live_cas(key, now)))
            .or(rules::number_refusal(self.high()));
        if refused.is_some() {
            return Ok(None);
        }
        let expiry = rules::stored_expiry(expiration, now);
        Ok(Some(self.next(alloc, key, value, flags, expiry, false, now)?))
    }

    /// The tombstone that a Delete puts, if it isn't refused.
    pub fn delete_puts(
        &self,
        alloc: Global,
        key: &[u8],
        cas: u64,
        now: u64,
    ) -> Result<Option<PlainItem>, NoMemory>
        requires key { IsKey key.now }
        requires numbers { (self.now.high + 1 < 2 ^ 64) × (self.now.maxcas + 1 < 2 ^ 64) }
        ensures { IfOk result (λ puts. option_map item_data puts
            ≡ put_by (answer self.now (DeleteData key.now cas) now).effect) }
    {
        let refused = rules::state_refusal(self.state(), true)
            .or(rules::wanted_refusal(cas, self.live_cas(key, now)))
            .or(rules::number_refusal(self.high()));
        if refused.is_some() {
            return Ok(None);
        }
        Ok(Some(self.next(alloc, key, b"", 0, 0, true, now)?))
    }

    /// What a Get puts, which is nothing.
    pub fn get_puts(&self, key: &[u8], now: u64) -> Option<&PlainItem>
        ensures { option_map item_data (option_copied result)
            ≡ put_by (answer self.now (GetData key.now) now).effect }
    {
        None
    }

    /// What a call put that was answered so, as far as its reply alone tells: a document of its key of which no more is
    /// known than its numbers.
    pub fn seen_puts(
        &self,
        alloc: Global,
        call: &Call,
        now: u64,
        reply: &Reply,
    ) -> Result<Option<PlainItem>, NoMemory>
        requires within { IsWithin (call_data call.now) }
        requires numbers { (self.now.high + 1 < 2 ^ 64) × (self.now.maxcas + 1 < 2 ^ 64) }
        ensures { IfOk result (λ puts. option_map item_data puts
            ≡ put_by (seen_effect self.now (call_data call.now) now reply.now)) }
    {
        match *call {
            Call::Store { key, .. }
            | Call::Join { key, .. }
            | Call::Count { key, .. }
            | Call::Delete { key, .. }
            | Call::Touch { key, .. } => {
                if reply.seqno == 0 {
                    Ok(None)
                } else {
                    Ok(Some(self.next(alloc, key, b"", 0, 0, false, now)?))
                }
            }
            Call::Get { .. }
            | Call::Observe { .. }
            | Call::Failovers
            | Call::SetState { .. }
            | Call::GetState => Ok(None),
        }
    }

    // A document that takes the next numbers.
    fn next(
        &self,
        alloc: Global,
        key: &[u8],
        value: &[u8],
        flags: u32,
        expiry: u32,
        deleted: bool,
        now: u64,
    ) -> Result<PlainItem, NoMemory>
        requires key { IsKey key.now }
        requires value { IsValue value.now }
        requires numbers { (self.now.high + 1 < 2 ^ 64) × (self.now.maxcas + 1 < 2 ^ 64) }
        ensures { IfOk result (λ item. item_data item
            ≡ (key.now, next_doc self.now value.now flags expiry deleted now)) }
    {
        Ok(PlainItem {
            key: key.to_vec(alloc)?,
            value: value.to_vec(alloc)?,
            flags,
            expiry,
            cas: rules::stamp(self.maxcas(), now),
            seqno: self.high() + 1,
            deleted,
        })
    }

    // The CAS of the live document of a key.
    fn live_cas(&self, key: &[u8], now: u64) -> Option<u64>
        ensures { result ≡ cas_of (live self.now key.now now) }
    {
        let item = self.get(key)?;
        if rules::is_live(item.deleted, item.expiry, now) {
            Some(item.cas)
        } else {
            None
        }
    }
}
