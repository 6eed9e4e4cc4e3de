// The plain map's documents by their keys.
ghost use Rattle.std.specs.Prelude.{◌≡◌, IfOk, OnOk, OnErr};
ghost use Rattle.std.specs.Option.{option_map, option_copied};
ghost use Rattle.std.specs.FinMap as finmap;
ghost use Rattle.ep_model.specs.World.{live_of};
ghost use Rattle.ep_model.specs.Plain.{document_data, plain_docs};

use crate::document::Document;
use crate::{NoMemory, rules};
use std::alloc::Global;
use std::collections::HashMap;

pub(super) type Documents = HashMap<Vec<u8>, Document>;

/// The document of a key, live or not.
pub(super) fn document_of<'a>(documents: &'a Documents, key: &[u8]) -> Option<&'a Document>
    ensures { option_map document_data (option_copied result)
        ≡ finmap.get (plain_docs documents.now.entries) key.now }
{
    documents.get(key)
}

/// A document, if it is live.
pub(super) fn live_of(document: Option<&Document>, now: u64) -> Option<&Document>
    ensures { option_map document_data (option_copied result)
        ≡ live_of (option_map document_data (option_copied document.entry)) now }
{
    let document = document?;
    if rules::is_live(document.deleted, document.expiry, now) {
        Some(document)
    } else {
        None
    }
}

/// A copy of these bytes.
pub(super) fn copy(alloc: Global, bytes: &[u8]) -> Result<Vec<u8>, NoMemory>
    ensures { IfOk result (λ v. v.items ≡ bytes.now) }
{
    Ok(bytes.to_vec(alloc)?)
}

/// Puts a document in place of the one of its key, whose key stays, or under a copy of the key where there is none.
pub(super) fn put_document(
    documents: &mut Documents,
    alloc: Global,
    key: &[u8],
    document: Document,
) -> Result<(), NoMemory>
    ensures ok { OnOk result (plain_docs documents.new.entries
        ≡ finmap.insert (plain_docs documents.old.entries) key.now (document_data document)) }
    ensures err { OnErr result (documents.new.entries ≡ documents.old.entries) }
{
    if let Some(place) = documents.get_mut(key) {
        *place = document;
        return Ok(());
    }
    documents.insert(copy(alloc, key)?, document)?;
    Ok(())
}
