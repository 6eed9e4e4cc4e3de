// A document as the plain map holds it.
ghost use Rattle.std.specs.Prelude.{◌≤◌, length};
ghost use Rattle.ep_model.specs.Limits.{max_value};

use crate::limits::MAX_VALUE;

/// A document without its key. `expiry` is 0 or seconds since 1970.
#[derive(Drop)]
pub struct Document {
    pub value: Vec<u8>,
    pub flags: u32,
    pub expiry: u32,
    pub cas: u64,
    pub seqno: u64,
    pub deleted: bool,
    ghost fits: { length value.items ≤ max_value },
}

/// A document before it has its numbers.
#[derive(Drop)]
pub struct Draft {
    pub value: Vec<u8>,
    pub flags: u32,
    pub expiry: u32,
    pub deleted: bool,
    ghost fits: { length value.items ≤ max_value },
}

impl Draft {
    ghost use Rattle.std.specs.Prelude.{◌≡◌};
    ghost use Rattle.ep_model.specs.World.{blank_doc};
    ghost use Rattle.ep_model.specs.Plain.{document_data};

    /// The document under these numbers.
    pub fn document(self, cas: u64, seqno: u64) -> Document
        ensures { document_data result ≡ record blank_doc {
          value = self.value.items;
          flags = self.flags;
          expiry = self.expiry;
          cas = cas;
          seqno = seqno;
          deleted = self.deleted;
        } }
    {
        let Draft {
            value,
            flags,
            expiry,
            deleted,
        } = self;
        Document {
            value,
            flags,
            expiry,
            cas,
            seqno,
            deleted,
        }
    }
}
