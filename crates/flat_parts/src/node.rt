// A node of a stripe.
ghost use Rattle.std.specs.Prelude.{◌≡◌, ◌+◌, ◌≤◌, ◌++◌, true, length, Some};
ghost use Rattle.ep_model.specs.World.{live_of, doc_from};
ghost use Rattle.ep_model.specs.Answer.{answer_get};
ghost use Rattle.flat_parts.specs.Fits.{is_fitting};

use ep_model::{Meta, NoMemory, Out, Reply, rules, status};
use std::alloc::Global;

/// What memory has of a document: its metadata, and its value where that is resident.
#[derive(Drop)]
pub struct Node {
    pub key: Vec<u8>,
    pub meta: Meta,
    pub value: Option<Vec<u8>>,
    ghost fits: { is_fitting value ≡ true },
}

/// What memory has under a key.
#[derive(Clone, Copy, Debug, PartialEq, Eq)]
pub enum Residency {
    Nothing,
    /// The document's value is away.
    Ejected(Meta),
    Resident(Meta),
}

impl Node {
    ghost use Rattle.std.specs.Prelude.{◌≡◌, IfOk, Some};
    ghost use Rattle.ep_model.specs.Limits.{IsValue};
    ghost use Rattle.flat_parts.specs.Nodes.{is_ejectable, ejected, node_blocks};
    ghost use Rattle.flat_parts.specs.Flat.{node_data, found_value};

    /// A node of this document, whose value is resident. Its cost is linear in the bytes, which it copies.
    pub fn copied(alloc: Global, key: &[u8], meta: Meta, value: &[u8]) -> Result<Node, NoMemory>
        requires { IsValue value.now }
        ensures { IfOk result (λ node. node_data node
            ≡ record { key = key.now; meta = meta; value = Some value.now }) }
    {
        let key = key.to_vec(alloc)?;
        let value = Some(value.to_vec(alloc)?);
        Ok(Node { key, meta, value })
    }

    /// What memory has of the document.
    pub fn found(&self) -> Residency
        ensures { result ≡ found_value (node_data self.now) (node_data self.now).value }
    {
        match self.value {
            None => Residency::Ejected(self.meta),
            Some(_) => Residency::Resident(self.meta),
        }
    }

    /// How many blocks the key and a resident value take.
    pub fn blocks(&self) -> usize
        ensures { result ≡ node_blocks (node_data self.now) }
    {
        let value = match &self.value {
            None => 0,
            Some(value) => rules::blocks(value.len()),
        };
        rules::blocks(self.key.len()) + value
    }

    /// Ejects the value where it is resident, stored and the document isn't deleted, and answers whether it did. All
    /// mutations up to `mark` are stored.
    pub fn eject(&mut self, mark: u64) -> bool
        ensures node { node_data self.new ≡ ejected mark (node_data self.old) }
        ensures ejects { result ≡ is_ejectable mark (node_data self.old) }
    {
        let ejects = self.value.is_some() && self.meta.seqno <= mark && !self.meta.deleted;
        if ejects {
            self.value = None;
        }
        ejects
    }
}

/// Answers a Get of a document whose value is resident, and appends the value where the document is live.
pub(crate) fn show(meta: Meta, value: &[u8], now: u64, out: &mut Out) -> Reply
    requires { length value.now ≤ out.old.spare }
    ensures reply { result ≡ (answer_get (live_of (Some (doc_from meta value.now)) now)).reply }
    ensures value { out.new.bytes
        ≡ out.old.bytes ++ (answer_get (live_of (Some (doc_from meta value.now)) now)).value }
    ensures room { out.new.spare + length out.new.bytes ≡ out.old.spare + length out.old.bytes }
{
    if !rules::is_live(meta.deleted, meta.expiry, now) {
        return Reply::refusal(status::KEY_NOT_FOUND);
    }
    out.push(value);
    Reply {
        status: status::SUCCESS,
        cas: meta.cas,
        flags: meta.flags,
        uuid: 0,
        seqno: 0,
    }
}
