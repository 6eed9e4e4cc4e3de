// Calls as they are generated, tried at the stage of a world beside a plain program, over a store that fails at times.
ghost use Rattle.std.specs.Prelude.{◌≡◌, ◌≤◌, ◌+◌, true, length, Some, IfSome, IfErr, MatchResult};
ghost use Rattle.ep_model.specs.declared.data.CallData.{CallData};
ghost use Rattle.ep_model.specs.declared.event.Ticket.{Ticket};
ghost use Rattle.ep_model.specs.History.{call_data};
ghost use Rattle.ep_model.specs.Legal.{HasAsked};
ghost use Rattle.ep_model.specs.Limits.{IsKey, IsMoment, IsValue, IsWithin};
ghost use Rattle.vb_world.specs.World.{front_in};
ghost use Rattle.vb_front.specs.Opened.{IsUnderway};
ghost use Rattle.hold_stage.specs.Priors.{PriorsStand, PriorStands};
ghost use Rattle.vb_front.specs.Tries.{kind_of};
ghost use Rattle.vb_front.specs.declared.at_stage.Kind.TheVariants.{Change};
ghost use Rattle.vb_front.specs.declared.at_stage.Tried.TheVariants.{Fetch};

use super::config;
use super::opened::Told;
use super::served::{eject, fail, look, mark, merge, opened, persist, tried};
use crate::{Part, Tried};
use ep_edge::OpenGate;
use ep_model::status::TEMPORARY_FAILURE;
use ep_model::{Call, Config, Eviction, Meta, Out, Plain, Reply, StoreKind, Ticket, rules};
use std::alloc::Global;
use vb_world::World;

const MOMENT: u64 = 1_000_000_000_000_000_000;

/// The bytes of all values that are no numbers.
const BYTES: [u8; 1024] = [7; 1024];

/// How many blocks a stripe has.
const BLOCKS: u32 = 20;

/// The length of the longest number's text.
const DIGITS: u64 = 20;

fn draw(seed: &mut u32) -> u32 {
    *seed = seed.wrapping_mul(1664525).wrapping_add(1013904223);
    *seed >> 8
}

/// A plain program, and the value that it answered last.
#[derive(Drop)]
struct Oracle {
    plain: Plain,
    value: Out,
    ghost room: { 1048576 ≤ value.spare + length value.bytes },
}

impl Oracle {
    fn answer(&mut self, call: &Call, now: u64) -> Option<Reply>
        requires within { IsWithin (call_data call.now) }
        requires moment { IsMoment now }
    {
        self.value.cut(0);
        match self.plain.answer(call, now, &mut self.value) {
            Ok(reply) => Some(reply),
            Err(_) => None,
        }
    }
}

/// A vBucket that has opened, and how many reads of its store failed.
#[derive(Drop)]
struct Served {
    world: World<Part>,
    config: Config,
    value: Out,
    faults: u64,
    ghost room: { 1048576 ≤ value.spare + length value.bytes },
}

/// How often what came, and how many events were noted.
#[derive(Clone, Copy, Drop)]
struct Counts {
    answers: u32,
    fetches: u32,
    refusals: u32,
    events: u64,
}

fn counted(count: &mut u32) {
    *count = count.wrapping_add(1);
}

/// Both programs, and the metadata of what the store has.
#[derive(Drop)]
struct Both {
    served: Served,
    oracle: Oracle,
    stored: [Option<Meta>; 8],
    persisted: u64,
    has_failed: bool,
    counts: Counts,
}

impl Both {
    fn noted(&mut self)
        ensures { self.new.served ≡ self.old.served }
    {
        self.counts.events = self.counts.events.wrapping_add(1);
    }

    /// What was found in memory is stored, which is noted where it is more than was.
    fn keep(&mut self, told: &Told)
        ensures { self.new.served ≡ self.old.served }
    {
        keep_found(&mut self.stored, &told.found);
        if self.persisted < told.high {
            self.persisted = told.high;
            self.noted();
        }
    }

    /// That the stripe is told what is stored is noted where it doesn't know.
    fn marks(&mut self, told: &Told)
        ensures { self.new.served ≡ self.old.served }
    {
        if told.marked < self.persisted {
            self.noted();
        }
    }

    /// All that is in memory is stored.
    fn persist(&mut self) -> bool
        requires { IsUnderway self.old.served.config self.old.served.faults self.old.served.world }
        ensures { result ≡ true
            → IsUnderway self.new.served.config self.new.served.faults self.new.served.world }
    {
        let Some(told) = look(&mut self.served.world, &self.served.config, 0) else {
            return false;
        };
        self.keep(&told);
        persist(&mut self.served.world, &self.served.config)
    }

    /// The stripe is told what is stored.
    fn mark(&mut self) -> bool
        requires { IsUnderway self.old.served.config self.old.served.faults self.old.served.world }
        ensures { result ≡ true
            → IsUnderway self.new.served.config self.new.served.faults self.new.served.world }
    {
        let Some(told) = look(&mut self.served.world, &self.served.config, 0) else {
            return false;
        };
        self.marks(&told);
        mark(&mut self.served.world, &self.served.config)
    }

    /// The read at this ticket fails.
    fn fail(&mut self, ticket: Ticket) -> bool
        requires served { IsUnderway self.old.served.config self.old.served.faults
            self.old.served.world }
        requires asked { HasAsked (front_in self.old.served.world 0).events ticket }
        ensures served { result ≡ true
            → IsUnderway self.new.served.config self.new.served.faults self.new.served.world }
        ensures priors { result ≡ true → (call : CallData)
            → PriorStands (front_in self.old.served.world 0) 7 call ticket
            → PriorStands (front_in self.new.served.world 0) 7 call ticket }
    {
        self.has_failed = true;
        self.noted();
        if self.served.faults > 1_000_000 {
            return false;
        }
        self.served.faults += 1;
        fail(
            &mut self.served.world,
            &self.served.config,
            ticket,
            self.served.faults,
        )
    }

    /// The read of a key's document at this ticket comes to what the store has: the document of the plain program, which was
    /// not changed since it was stored. It answers whether its place was there.
    fn merge(&mut self, key: u8, ticket: Ticket) -> bool
        requires served { IsUnderway self.old.served.config self.old.served.faults
            self.old.served.world }
        ensures served { result ≡ true
            → IsUnderway self.new.served.config self.new.served.faults self.new.served.world }
        ensures front { front_in self.new.served.world 0 ≡ front_in self.old.served.world 0 }
    {
        self.has_failed = false;
        let name = [key];
        let Some(reply) = self.oracle.answer(&Call::Get { key: &name }, 0) else {
            return false;
        };
        let stored = stored_at(&self.stored, key);
        let served = &mut self.served;
        let Some(meta) = stored else {
            return merge(&mut served.world, &served.config, ticket, &name, None, &[]);
        };
        if reply.cas != meta.cas {
            return false;
        }
        let oracle = &self.oracle;
        let value = oracle.value.bytes();
        if value.len() > 1_048_576 {
            return false;
        }
        merge(
            &mut served.world,
            &served.config,
            ticket,
            &name,
            stored,
            value,
        )
    }

    /// The read of a key's document ends, at times in a failure. It answers whether its place was there.
    fn settle(&mut self, key: u8, ticket: Ticket) -> bool
        requires served { IsUnderway self.old.served.config self.old.served.faults
            self.old.served.world }
        requires asked { HasAsked (front_in self.old.served.world 0).events ticket }
        ensures served { result ≡ true
            → IsUnderway self.new.served.config self.new.served.faults self.new.served.world }
        ensures priors { result ≡ true → (call : CallData)
            → PriorStands (front_in self.old.served.world 0) 7 call ticket
            → PriorStands (front_in self.new.served.world 0) 7 call ticket }
    {
        counted(&mut self.counts.fetches);
        if self.counts.fetches % 7 == 0 {
            self.fail(ticket)
        } else {
            self.merge(key, ticket)
        }
    }

    /// Whether a call may be refused: the read that it waited for failed, or others that can't be ejected leave too little
    /// room for the document that it needs. Then all is stored. One without a key never may.
    fn may_refuse(&mut self, key: u8, call: &Call) -> bool
        requires { IsUnderway self.old.served.config self.old.served.faults self.old.served.world }
        ensures { result ≡ true
            → IsUnderway self.new.served.config self.new.served.faults self.new.served.world }
    {
        if !has_key(call) {
            return false;
        }
        if self.has_failed {
            self.has_failed = false;
            return true;
        }
        counted(&mut self.counts.refusals);
        let Some(told) = look(&mut self.served.world, &self.served.config, key) else {
            return false;
        };
        let old = told.found[usize::from(key % 8)].or(stored_at(&self.stored, key));
        let needed = most_needed(self.served.config.eviction, call, old);
        if u64::from(BLOCKS) >= u64::from(told.pinned).saturating_add(needed) {
            return false;
        }
        if told.marked == told.high {
            return false;
        }
        if !self.persist() {
            return false;
        }
        self.mark()
    }

    /// Whether the plain program answers the same.
    fn is_plain(&mut self, call: &Call, now: u64, reply: Reply) -> bool
        requires within { IsWithin (call_data call.now) }
        requires moment { IsMoment now }
        ensures { self.new.served ≡ self.old.served }
    {
        counted(&mut self.counts.answers);
        if self.has_failed {
            return false;
        }
        if self.oracle.answer(call, now) != Some(reply) {
            return false;
        }
        let persisted = self.persisted;
        let served = &self.served;
        let oracle = &self.oracle;
        is_shown(call, served.value.bytes(), oracle.value.bytes(), persisted)
    }

    /// Tries a call.
    fn tried(&mut self, call: &Call, now: u64, prior: Option<Ticket>) -> Option<Tried>
        requires served { IsUnderway self.old.served.config self.old.served.faults
            self.old.served.world }
        requires within { IsWithin (call_data call.now) }
        requires given { kind_of (call_data call.now) ≡ Change → ⊥ }
        requires moment { IsMoment now }
        requires prior { PriorsStand (front_in self.old.served.world 0) 7 (call_data call.now)
            prior }
        ensures served { IfSome result (λ _. IsUnderway self.new.served.config
            self.new.served.faults self.new.served.world) }
        ensures waits { (ticket : Ticket) → result ≡ Some (Fetch ticket)
            → PriorStands (front_in self.new.served.world 0) 7 (call_data call.now) ticket }
        ensures asked { (ticket : Ticket) → result ≡ Some (Fetch ticket)
            → HasAsked (front_in self.new.served.world 0).events ticket }
    {
        let served = &mut self.served;
        tried(
            &mut served.world,
            &served.config,
            call,
            now,
            prior,
            &mut served.value,
            &mut OpenGate,
        )
    }

    /// Tries a call: whether it is answered alike, or the ticket with which it is to be tried again.
    fn round(
        &mut self,
        key: u8,
        call: &Call,
        now: u64,
        prior: Option<Ticket>,
    ) -> Result<bool, Option<Ticket>>
        requires served { IsUnderway self.old.served.config self.old.served.faults
            self.old.served.world }
        requires within { IsWithin (call_data call.now) }
        requires given { kind_of (call_data call.now) ≡ Change → ⊥ }
        requires moment { IsMoment now }
        requires prior { PriorsStand (front_in self.old.served.world 0) 7 (call_data call.now)
            prior }
        ensures served { MatchResult result (λ is_alike. is_alike ≡ true
            → IsUnderway self.new.served.config self.new.served.faults self.new.served.world)
            (λ _. IsUnderway self.new.served.config self.new.served.faults self.new.served.world) }
        ensures again { IfErr result (PriorsStand (front_in self.new.served.world 0) 7
            (call_data call.now)) }
    {
        match self.tried(call, now, prior) {
            Some(Tried::Done(reply)) => {
                self.noted();
                if reply != Reply::refusal(TEMPORARY_FAILURE) {
                    return Ok(self.is_plain(call, now, reply));
                }
                if self.may_refuse(key, call) {
                    Err(None)
                } else {
                    Ok(false)
                }
            }
            Some(Tried::Fetch(ticket)) => {
                self.noted();
                if self.settle(key, ticket) {
                    Err(Some(ticket))
                } else {
                    Ok(false)
                }
            }
            _ => Ok(false),
        }
    }

    /// Whether a call on this key, or on none, is answered as by the plain program, once its places were settled and there
    /// was room.
    fn is_answered(&mut self, key: u8, call: &Call, now: u64) -> bool
        requires served { IsUnderway self.old.served.config self.old.served.faults
            self.old.served.world }
        requires within { IsWithin (call_data call.now) }
        requires given { kind_of (call_data call.now) ≡ Change → ⊥ }
        requires moment { IsMoment now }
        ensures served { result ≡ true
            → IsUnderway self.new.served.config self.new.served.faults self.new.served.world }
    {
        let mut prior = None;
        for _ in 0..8 {
            match self.round(key, call, now, prior) {
                Ok(is_alike) => return is_alike,
                Err(next) => prior = next,
            }
        }
        false
    }

    /// The CAS of a generated call: none, that of the document, or another one.
    fn cas(&mut self, key: u8, now: u64, number: u32) -> u64
        requires { IsMoment now }
        ensures { self.new.served ≡ self.old.served }
    {
        match number % 4 {
            0 => match self.oracle.answer(&Call::Get { key: &[key] }, now) {
                Some(reply) => reply.cas,
                None => 0,
            },
            1 => 9,
            _ => 0,
        }
    }

    /// One step: something is stored, or known to be, or ejected, or a call is answered.
    fn goes_alike(&mut self, number: u32, more: u32, now: u64) -> bool
        requires served { IsUnderway self.old.served.config self.old.served.faults
            self.old.served.world }
        requires moment { IsMoment now }
        ensures served { result ≡ true
            → IsUnderway self.new.served.config self.new.served.faults self.new.served.world }
    {
        let key = (number % 8) as u8;
        match number / 8 % 16 {
            0 => self.persist(),
            1 => self.mark(),
            2 | 3 => eject(&mut self.served.world, &self.served.config, more % 1500),
            _ => {
                let cas = self.cas(key, now, more);
                let name = [key];
                let call = generated(number / 128, more / 4, &name, cas);
                self.is_answered(key, &call, now)
            }
        }
    }
}

/// How many blocks a call on a key of one byte needs at most: those of the document that it puts, or of the old one.
fn most_needed(eviction: Eviction, call: &Call, old: Option<Meta>) -> u64 {
    let old_len = match old {
        Some(meta) if !meta.deleted => u64::from(meta.len),
        _ => 0,
    };
    let put_len = match *call {
        Call::Store { value, .. } => value.len() as u64,
        Call::Join { value, .. } => old_len.saturating_add(value.len() as u64),
        Call::Count { .. } => DIGITS,
        Call::Touch { .. } => old_len,
        _ => 0,
    };
    let needed_len = if rules::needs(eviction, call) {
        old_len
    } else {
        0
    };
    put_len.max(needed_len).div_ceil(128).saturating_add(1)
}

/// Whether a call is on a key.
fn has_key(call: &Call) -> bool {
    match *call {
        Call::Observe { .. } | Call::Failovers | Call::SetState { .. } | Call::GetState => false,
        _ => true,
    }
}

/// The documents that were found are stored.
fn keep_found(stored: &mut [Option<Meta>; 8], found: &[Option<Meta>; 8]) {
    for key in 0..8usize {
        if found[key].is_some() {
            stored[key] = found[key];
        }
    }
}

/// What the store has of a key, but for a deleted document.
fn stored_at(stored: &[Option<Meta>; 8], key: u8) -> Option<Meta> {
    let stored = stored[usize::from(key % 8)];
    let meta = stored?;
    if meta.deleted { None } else { Some(meta) }
}

/// Whether a call shows what the plain program's does.
fn is_shown(call: &Call, shown: &[u8], wanted: &[u8], persisted: u64) -> bool {
    match *call {
        Call::Observe { .. } => has_observed(shown, wanted, persisted),
        _ => shown == wanted,
    }
}

/// Whether an Observe shows what the plain program's does, but for the number that is stored: there it is none.
fn has_observed(shown: &[u8], wanted: &[u8], persisted: u64) -> bool {
    if shown.len() != 27 || wanted.len() != 27 {
        return shown == wanted;
    }
    &shown[..11] == &wanted[..11]
        && &shown[11..19] == persisted.to_be_bytes().as_slice()
        && &shown[19..] == &wanted[19..]
}

/// A generated call on this key, or on none.
fn generated<'a>(number: u32, more: u32, key: &'a [u8], cas: u64) -> Call<'a>
    requires key { IsKey key.now }
    ensures within { IsWithin (call_data result) }
    ensures given { kind_of (call_data result) ≡ Change → ⊥ }
{
    let expiration = if more % 4 == 0 { 2 } else { 0 };
    let flag = more / 4 % 2 == 0;
    let rest = more / 32;
    match number % 12 {
        0 | 1 => Call::Get { key },
        2 | 3 => store(StoreKind::Set, key, rest, expiration, cas),
        4 => store(StoreKind::Add, key, rest, expiration, cas),
        5 => store(StoreKind::Replace, key, rest, expiration, cas),
        6 => join(flag, key, rest, cas),
        7 => count(flag, key, rest, cas),
        8 => Call::Delete { key, cas },
        9 => Call::Touch {
            key,
            expiration,
            fetch: flag,
        },
        10 => Call::Observe {
            uuid: u64::from(more % 2),
        },
        _ => whole(flag),
    }
}

/// A call on the vBucket as a whole.
fn whole<'a>(flag: bool) -> Call<'a>
    ensures within { IsWithin (call_data result) }
    ensures given { kind_of (call_data result) ≡ Change → ⊥ }
{
    if flag {
        Call::Failovers
    } else {
        Call::GetState
    }
}

/// The value of a generated call.
fn value_of(more: u32) -> &'static [u8]
    ensures { IsValue result.now }
{
    match more % 3 {
        0 => b"41",
        _ => &BYTES[..(more / 3 % 600) as usize],
    }
}

/// An Append or a Prepend.
fn join<'a>(front: bool, key: &'a [u8], more: u32, cas: u64) -> Call<'a>
    requires { IsKey key.now }
    ensures within { IsWithin (call_data result) }
    ensures given { kind_of (call_data result) ≡ Change → ⊥ }
{
    Call::Join {
        front,
        key,
        value: &BYTES[..(more % 90) as usize],
        cas,
    }
}

/// An Increment or a Decrement.
fn count<'a>(down: bool, key: &'a [u8], more: u32, cas: u64) -> Call<'a>
    requires { IsKey key.now }
    ensures within { IsWithin (call_data result) }
    ensures given { kind_of (call_data result) ≡ Change → ⊥ }
{
    Call::Count {
        down,
        key,
        delta: u64::from(more / 4 % 50),
        initial: 7,
        expiration: if more % 4 == 0 { u32::MAX } else { 0 },
        cas,
    }
}

/// A Set, Add or Replace.
fn store<'a>(kind: StoreKind, key: &'a [u8], more: u32, expiration: u32, cas: u64) -> Call<'a>
    requires { IsKey key.now }
    ensures within { IsWithin (call_data result) }
    ensures given { kind_of (call_data result) ≡ Change → ⊥ }
{
    Call::Store {
        kind,
        key,
        value: value_of(more),
        flags: 0x1234_5678,
        expiration,
        cas,
    }
}

/// Whether so many steps go alike, and no call has a place behind them.
fn go_alike(both: &mut Both) -> bool
    requires { IsUnderway both.old.served.config both.old.served.faults both.old.served.world }
{
    let mut seed = 11;
    for number in 0..4000u64 {
        // a third of a second apart
        let now = MOMENT.wrapping_add(number.wrapping_mul(333_333_333));
        if now >= 1 << 62 {
            return false;
        }
        let first = draw(&mut seed);
        let second = draw(&mut seed);
        if !both.goes_alike(first, second, now) {
            return false;
        }
    }
    match look(&mut both.served.world, &both.served.config, 0) {
        None => false,
        Some(told) => told.used == 0,
    }
}

/// Whether they do so on a new vBucket under this eviction, some of which wait for the store and some of which are refused for
/// a time, and each event is noted once.
fn meets(alloc: Global, eviction: Eviction) -> bool {
    let config = config(eviction, BLOCKS, 4096);
    if config.fault().is_some() {
        return false;
    }
    let Some(world) = opened(alloc, &config) else {
        return false;
    };
    let (Ok(value), Ok(wanted)) = (Out::new(alloc, 1_048_576), Out::new(alloc, 1_048_576)) else {
        return false;
    };
    let mut both = Both {
        served: Served {
            world,
            config,
            value,
            faults: 0,
        },
        oracle: Oracle {
            plain: Plain::new(alloc),
            value: wanted,
        },
        stored: [None; 8],
        persisted: 0,
        has_failed: false,
        counts: Counts {
            answers: 0,
            fetches: 0,
            refusals: 0,
            events: 1,
        },
    };
    if !go_alike(&mut both) {
        return false;
    }
    let Both { served, counts, .. } = both;
    let Served { world, faults, .. } = served;
    let events = world.into_history().count() as u64;
    events == counts.events
        && counts.answers > 2000
        && counts.fetches > 100
        && counts.refusals > 10
        && faults > 10
}

#[test]
fn generated_calls_are_answered_as_by_a_plain_program(rt: HostRuntime) {
    assert!(rt; meets(rt.alloc(), Eviction::Full));
    assert!(rt; meets(rt.alloc(), Eviction::Value));
}
