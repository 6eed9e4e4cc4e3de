// The plain map's answers to Increment and Decrement.
ghost use Rattle.std.specs.Prelude.{◌≡◌, ◌<◌, ◌≤◌, ◌^◌, decimal, IfOk};
ghost use Rattle.ep_model.specs.World.{live};
ghost use Rattle.ep_model.specs.Answer.{answer_count, counts};
ghost use Rattle.ep_model.specs.Plain.{Serves};
ghost use Rattle.ep_model.specs.Limits.{IsMoment, max_value};

use super::Plain;
use crate::document::Draft;
use crate::{NoMemory, Out, Reply, decimal, rules, status};

impl Plain {
    pub(super) fn count(
        &mut self,
        down: bool,
        key: &[u8],
        delta: u64,
        initial: u64,
        expiration: u32,
        cas: u64,
        now: u64,
        value: &mut Out,
    ) -> Result<Reply, NoMemory>
        requires moment { IsMoment now }
        requires spare { max_value ≤ value.old.spare }
        ensures { Serves (answer_count down self.old key.now delta initial expiration cas now
            (live self.old key.now now)) self.old self.new value.old value.new result }
    {
        let Some(found) = self.live(key, now) else {
            if let Some(refused) = rules::new_count_refusal(cas, expiration) {
                return Ok(Reply::refusal(refused));
            }
            let expiry = rules::stored_expiry(expiration, now);
            return self.put_number(key, initial, 0, expiry, now, value);
        };
        if let Some(refused) = rules::cas_refusal(cas, Some(found.cas)) {
            return Ok(Reply::refusal(refused));
        }
        let Some(number) = decimal::number_of(&found.value) else {
            return Ok(Reply::refusal(status::BAD_DELTA));
        };
        let number = rules::counted(down, number, delta);
        let flags = found.flags;
        let expiry = found.expiry;
        self.put_number(key, number, flags, expiry, now, value)
    }

    /// Puts a number's text, and shows the number.
    fn put_number(
        &mut self,
        key: &[u8],
        number: u64,
        flags: u32,
        expiry: u32,
        now: u64,
        value: &mut Out,
    ) -> Result<Reply, NoMemory>
        requires moment { IsMoment now }
        requires spare { max_value ≤ value.old.spare }
        ensures { Serves (counts self.old key.now number flags expiry now) self.old self.new
            value.old value.new result }
    {
        if let Some(refused) = self.number_refusal() {
            return Ok(Reply::refusal(refused));
        }
        let draft = Draft {
            value: self.text(number)?,
            flags,
            expiry,
            deleted: false,
        };
        let reply = self.put(key, draft, 0, now)?;
        value.push(&number.to_be_bytes());
        Ok(reply)
    }
}
