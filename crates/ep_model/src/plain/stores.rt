// The plain map's answers to the calls that store a client's bytes, and to Delete.
ghost use Rattle.std.specs.Prelude.{◌≡◌, ◌<◌, ◌^◌, ◌++◌, length, IfOk};
ghost use Rattle.std.specs.Option.{option_or};
ghost use Rattle.ep_model.specs.World.{live};
ghost use Rattle.ep_model.specs.Limits.{IsMoment, IsValue};
ghost use Rattle.ep_model.specs.Refusals.{size_refusal, store_refusal, number_refusal, wanted_refusal};
ghost use Rattle.ep_model.specs.Answer.{answer_store, answer_delete, answer_join, cas_of, joined};
ghost use Rattle.ep_model.specs.Plain.{Does};

use super::Plain;
use crate::document::Draft;
use crate::{NoMemory, Reply, StoreKind, rules, status};

impl Plain {
    pub(super) fn store(
        &mut self,
        kind: StoreKind,
        key: &[u8],
        value: &[u8],
        flags: u32,
        expiration: u32,
        cas: u64,
        now: u64,
    ) -> Result<Reply, NoMemory>
        requires moment { IsMoment now }
        requires within { IsValue value.now }
        ensures { Does (answer_store kind self.old key.now value.now flags expiration cas now)
            self.old self.new result }
    {
        let too_large = rules::size_refusal(self.fit(), key.len(), value.len());
        let refused = too_large
            .or(rules::store_refusal(kind, cas, self.live_cas(key, now)))
            .or(self.number_refusal());
        if let Some(refused) = refused {
            return Ok(Reply::refusal(refused));
        }
        let draft = Draft {
            value: self.copy(value)?,
            flags,
            expiry: rules::stored_expiry(expiration, now),
            deleted: false,
        };
        self.put(key, draft, 0, now)
    }

    pub(super) fn delete(&mut self, key: &[u8], cas: u64, now: u64) -> Result<Reply, NoMemory>
        requires moment { IsMoment now }
        ensures { Does (answer_delete self.old key.now cas now) self.old self.new result }
    {
        let refused = rules::wanted_refusal(cas, self.live_cas(key, now)).or(self.number_refusal());
        if let Some(refused) = refused {
            return Ok(Reply::refusal(refused));
        }
        let draft = Draft {
            value: self.copy(b"")?,
            flags: 0,
            expiry: 0,
            deleted: true,
        };
        self.put(key, draft, 0, now)
    }

    pub(super) fn join(
        &mut self,
        front: bool,
        key: &[u8],
        piece: &[u8],
        cas: u64,
        now: u64,
    ) -> Result<Reply, NoMemory>
        requires moment { IsMoment now }
        requires within { IsValue piece.now }
        ensures { Does (answer_join front self.old key.now piece.now cas now
            (live self.old key.now now)) self.old self.new result }
    {
        let Some(found) = self.live(key, now) else {
            return Ok(Reply::refusal(status::NOT_STORED));
        };
        let refused = rules::cas_refusal(cas, Some(found.cas))
            .or(rules::join_refusal(self.fit(), key.len(), found.value.len() + piece.len()))
            .or(self.number_refusal());
        if let Some(refused) = refused {
            return Ok(Reply::refusal(refused));
        }
        let draft = Draft {
            value: self.joined(front, &found.value, piece)?,
            flags: found.flags,
            expiry: found.expiry,
            deleted: false,
        };
        self.put(key, draft, 0, now)
    }

    /// The piece in front of the value, or behind it.
    fn joined(&self, front: bool, value: &[u8], piece: &[u8]) -> Result<Vec<u8>, NoMemory>
        ensures { IfOk result (λ v. v.items ≡ joined front value.now piece.now) }
    {
        if front {
            self.append(piece, value)
        } else {
            self.append(value, piece)
        }
    }

    fn append(&self, first: &[u8], second: &[u8]) -> Result<Vec<u8>, NoMemory>
        ensures { IfOk result (λ v. v.items ≡ first.now ++ second.now) }
    {
        let mut bytes = self.copy(first)?;
        bytes.extend_from_slice(second)?;
        Ok(bytes)
    }
}
