// The plain map's answers to Get, Touch and Get-and-touch.
ghost use Rattle.std.specs.Prelude.{◌≡◌, ◌+◌, ◌≤◌, ◌<◌, ◌^◌, [], ◌++◌, length, None};
ghost use Rattle.std.specs.FinMap as finmap;
ghost use Rattle.ep_model.specs.World.{live, next_doc};
ghost use Rattle.ep_model.specs.Refusals.{number_refusal};
ghost use Rattle.ep_model.specs.Answer.{answer_get, answer_touch, put_success, shown_flags, shown_value, shows};
ghost use Rattle.ep_model.specs.Plain.{Serves, document_data, value_of};
ghost use Rattle.ep_model.specs.Limits.{IsMoment, max_value};

use super::Plain;
use crate::document::{Document, Draft};
use crate::limits::MAX_VALUE;
use crate::{NoMemory, Out, Reply, rules, status};

impl Plain {
    pub(super) fn get(&self, key: &[u8], now: u64, value: &mut Out) -> Reply
        requires { max_value ≤ value.old.spare }
        ensures reply { result ≡ (answer_get (live self.now key.now now)).reply }
        ensures value { value.new.bytes ≡ value.old.bytes
            ++ (answer_get (live self.now key.now now)).value }
        ensures room { value.new.spare + length value.new.bytes ≡ value.old.spare
            + length value.old.bytes }
    {
        match self.live(key, now) {
            None => Reply::refusal(status::KEY_NOT_FOUND),
            Some(found) => show(found, true, value),
        }
    }

    pub(super) fn touch(
        &mut self,
        key: &[u8],
        expiration: u32,
        fetch: bool,
        now: u64,
        value: &mut Out,
    ) -> Result<Reply, NoMemory>
        requires moment { IsMoment now }
        requires spare { max_value ≤ value.old.spare }
        ensures { Serves (answer_touch fetch self.old key.now expiration now
            (live self.old key.now now)) self.old self.new value.old value.new result }
    {
        let Some(found) = self.live(key, now) else {
            return Ok(Reply::refusal(status::KEY_NOT_FOUND));
        };
        let expiry = rules::stored_expiry(expiration, now);
        if expiry == found.expiry {
            return Ok(show(found, fetch, value));
        }
        if let Some(refused) = self.number_refusal() {
            return Ok(Reply::refusal(refused));
        }
        let shown = flags_shown(found, fetch);
        let draft = Draft {
            value: self.copy(&found.value)?,
            flags: found.flags,
            expiry,
            deleted: false,
        };
        let reply = self.put(key, draft, shown, now)?;
        if fetch {
            self.show_value(key, value);
        }
        Ok(reply)
    }
}

/// The flags that a call shows: those of the document where its value is fetched.
fn flags_shown(document: &Document, fetch: bool) -> u32
    ensures { result ≡ shown_flags fetch (document_data document.now) }
{
    if fetch { document.flags } else { 0 }
}

/// Replies with a document as it stands, and appends its value where that is fetched.
fn show(document: &Document, fetch: bool, value: &mut Out) -> Reply
    requires { max_value ≤ value.old.spare }
    ensures reply { result ≡ (shows document.now.cas
        (shown_flags fetch (document_data document.now)) []).reply }
    ensures value { value.new.bytes ≡ value.old.bytes
        ++ shown_value fetch (document_data document.now) }
    ensures room { value.new.spare + length value.new.bytes ≡ value.old.spare
        + length value.old.bytes }
{
    if fetch {
        value.push(&document.value);
    }
    Reply {
        status: status::SUCCESS,
        cas: document.cas,
        flags: flags_shown(document, fetch),
        uuid: 0,
        seqno: 0,
    }
}
