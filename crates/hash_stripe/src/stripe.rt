// The stripe.
use crate::found::{Counts, Found, Look};
use crate::table::Table;
use crate::{room, search};
use ep_model::limits::MAX_KEY;
use ep_model::{Config, Eviction, Meta, NoMemory, Out, VbState, rules};
use std::alloc::Global;
use std::marker::Model;
use value_pool::Short;

/// What memory has of the documents of some keys. Contracts see a list of slots that are empty or hold a node, and the
/// mark, up to which mutations are stored. A document numbered above it is never ejected.
#[derive(Drop)]
pub struct Stripe {
    index: u16,
    stripes: u16,
    eviction: Eviction,
    table: Table,
    mark: u64,
    state: VbState,
    opened: bool,
}

impl Model for Stripe {
    ghost use Rattle.hash_stripe.specs.Stripes.{StripeData, IsStripe};

    ghost Value = { StripeData };

    ghost view = { λ s. record {
      index = s.index;
      stripes = s.stripes;
      eviction = s.eviction;
      slots = s.table;
      mark = s.mark;
      state = s.state;
      opened = s.opened;
    } };

    ghost invariant = { λ s. IsStripe (record {
      index = s.index;
      stripes = s.stripes;
      eviction = s.eviction;
      slots = s.table;
      mark = s.mark;
      state = s.state;
      opened = s.opened;
    }) };
}

impl Stripe {
    ghost use Rattle.std.specs.Prelude.{◌≡◌, ◌≢◌, ℕ, Option, ◌+◌, ◌-◌, ◌<◌, ◌≤◌, ◌++◌, [], true, false, length, drop, map, count_by, replicate, nat_lt, None, Some, is_err, is_some, IfOk, IfErr, OnOk, OnErr};
    ghost use Rattle.std.specs.Option.{ForSome};
    ghost use Rattle.value_pool.specs.Pools.{blocks_of};
    ghost use Rattle.ep_model.specs.Limits.{max_key, max_value, IsKey, IsValue};
    ghost use Rattle.ep_model.specs.Config.{config_fault};
    ghost use Rattle.ep_model.specs.Stripes.{stripe_of};
    ghost use Rattle.hash_stripe.specs.Nodes.{NodeData, at, used, node_blocks, node_at, node_in, is_ejectable_slot, others_blocks, others_pinned, victim, EjectsOthers, Restores, placed, eject_slot, heated, cooled, is_resident, is_ejected};
    ghost use Rattle.hash_stripe.specs.Looks.{look_of};
    ghost use Rattle.hash_stripe.specs.Stripes.{IsStripe, Fits, IsSlot, free_of, found, key_of, key_len_of, meta_of, age_of, resident_value, text_of, at_key, IsAwayOf, IsShown};

    /// The stripe `index` of an active vBucket that hasn't opened, with no document. This call alone takes memory; its
    /// cost is linear in the number of the stripe's blocks.
    pub fn new(alloc: Global, index: u16, config: &Config) -> Result<Stripe, NoMemory>
        requires config { config_fault config.now ≡ None }
        requires index { index < config.now.stripes }
        ensures { IfOk result (λ stripe. stripe ≡ record {
          index = index;
          stripes = config.now.stripes;
          eviction = config.now.eviction;
          slots = replicate config.now.blocks None;
          mark = 0;
          state = VbState.Active;
          opened = false;
        }) }
    {
        Ok(Stripe {
            index,
            stripes: config.stripes,
            eviction: config.eviction,
            table: Table::new(alloc, config.blocks)?,
            mark: 0,
            state: VbState::Active,
            opened: false,
        })
    }

    /// What a slot shows of a key's node.
    fn look(&self, key: &[u8]) -> Option<Look>
        ensures shows { result ≡ look_of (node_at self.now.slots key.now) }
        ensures sound { IsSlot self.now.index self.now.stripes self.now.eviction self.now.mark
            (node_at self.now.slots key.now) }
    {
        match search::slot_of(&self.table, key) {
            None => None,
            Some(slot) => self.table.look(slot),
        }
    }

    /// What memory has under a key. Its cost is linear in the number of slots.
    pub fn find(&self, key: &[u8]) -> Found
        ensures shows { result ≡ found (node_at self.now.slots key.now) }
        ensures means { IsShown result (node_at self.now.slots key.now) }
        ensures keyed { ForSome (node_at self.now.slots key.now)
            (λ (node : NodeData). node.key ≡ key.now) }
        ensures sound { IsSlot self.now.index self.now.stripes self.now.eviction self.now.mark
            (node_at self.now.slots key.now) }
    {
        match self.look(key) {
            None => Found::Nothing,
            Some(look) => look.found(),
        }
    }

    /// Appends the value of a document that is resident. Its cost is linear in the number of slots and in the value.
    pub fn value_to(&self, key: &[u8], out: &mut Out)
        requires resident { is_some (resident_value (node_at self.now.slots key.now)) ≡ true }
        requires room { length (text_of (resident_value (node_at self.now.slots key.now)))
            ≤ out.old.spare }
        ensures bytes { out.new.bytes ≡ out.old.bytes
            ++ text_of (resident_value (node_at self.now.slots key.now)) }
        ensures room { out.new.spare + length out.new.bytes ≡ out.old.spare + length out.old.bytes }
    {
        if let Some(slot) = search::slot_of(&self.table, key) {
            self.table.value_to(slot, out);
        }
    }

    /// Notes that a key's document is used, where it has a node. Its cost is linear in the number of slots.
    pub fn heat(&mut self, key: &[u8])
        ensures { self.new ≡ record self.old { slots = at_key heated self.old.slots key.now } }
    {
        if let Some(slot) = search::slot_of(&self.table, key) {
            self.table.heat(slot);
        }
    }

    /// Makes room for a document of this key and with a value of this length, in place of what the key has: ejects clean
    /// documents of other keys, those of the greatest age first and of these the one in the least slot, until it fits. Its
    /// cost is linear in the number of slots, for each document that it ejects.
    ///
    /// # Errors
    /// [`Short`] exactly where the blocks that no ejecting frees leave too few for the document.
    pub fn room_for(&mut self, key: &[u8], len: u32) -> Result<(), Short>
        requires key { IsKey key.now }
        requires len { len ≤ max_value }
        ensures short { is_err result ≡ nat_lt (length self.old.slots)
            (others_pinned self.old.eviction self.old.mark
            key.now self.old.slots + (blocks_of (length key.now) + blocks_of len)) }
        ensures ejects { EjectsOthers self.old.eviction self.old.mark key.now
            (blocks_of (length key.now) + blocks_of len) self.old.slots self.new.slots }
        ensures rest { self.new ≡ record self.old { slots = self.new.slots } }
        ensures ok { OnOk result (Fits key.now (blocks_of (length key.now) + blocks_of len)
            self.new.slots) }
        ensures last { OnErr result (victim self.old.mark key.now self.new.slots ≡ None) }
        ensures numbers { IfErr result (λ short.
            (short.free + others_blocks key.now self.new.slots ≡ length self.new.slots)
            × (short.need ≡ blocks_of (length key.now) + blocks_of len)) }
    {
        let need = room::document_blocks(key, len);
        let own = room::own_blocks(&self.table, key);
        let fits = room::make_room(&mut self.table, self.eviction, self.mark, key, own, need);
        if fits {
            return Ok(());
        }
        let free = self.table.free() + own;
        Err(Short { free, need })
    }

    /// Puts a document in place of what its key has, for which `room_for` made room. Its cost is linear in the number of
    /// slots and in the bytes, which it copies.
    pub fn place(&mut self, key: &[u8], meta: Meta, value: &[u8])
        requires key { IsKey key.now }
        requires home { stripe_of key.now self.old.stripes ≡ self.old.index }
        requires value { IsValue value.now }
        requires len { meta.len ≡ length value.now }
        requires tombstone { meta.deleted ≡ true → value.now ≡ [] }
        requires fits { Fits key.now (blocks_of (length key.now) + blocks_of (length value.now))
            self.old.slots }
        ensures { self.new ≡ record self.old {
          slots = placed self.old.slots
              (record { key = key.now; meta = meta; value = Some value.now; age = 0 });
        } }
    {
        room::put(&mut self.table, key, meta, value);
    }

    /// Puts a stored document back, whose key has no node or one without a value and with this metadata. Costs and room are
    /// those of `room_for` and `place`.
    ///
    /// # Errors
    /// [`Short`] exactly where `room_for` answers it; what it ejected is gone.
    pub fn restore(&mut self, key: &[u8], meta: Meta, value: &[u8]) -> Result<(), Short>
        requires key { IsKey key.now }
        requires home { stripe_of key.now self.old.stripes ≡ self.old.index }
        requires value { IsValue value.now }
        requires len { meta.len ≡ length value.now }
        requires tombstone { meta.deleted ≡ true → value.now ≡ [] }
        requires stored { meta.seqno ≤ self.old.mark }
        requires away { IsAwayOf meta (node_at self.old.slots key.now) }
        ensures short { is_err result ≡ nat_lt (length self.old.slots)
            (others_pinned self.old.eviction self.old.mark
            key.now self.old.slots + (blocks_of (length key.now) + blocks_of (length value.now))) }
        ensures rest { self.new ≡ record self.old { slots = self.new.slots } }
        ensures ok { OnOk result (Restores self.old.eviction self.old.mark
            (blocks_of (length key.now) + blocks_of (length value.now))
            (record { key = key.now; meta = meta; value = Some value.now; age = 0 })
            self.old.slots self.new.slots) }
        ensures err { OnErr result (EjectsOthers self.old.eviction self.old.mark key.now
            (blocks_of (length key.now) + blocks_of (length value.now))
            self.old.slots self.new.slots) }
        ensures last { OnErr result (victim self.old.mark key.now self.new.slots ≡ None) }
        ensures numbers { IfErr result (λ short.
            (short.free + others_blocks key.now self.new.slots ≡ length self.new.slots)
            × (short.need ≡ blocks_of (length key.now) + blocks_of (length value.now))) }
    {
        match self.room_for(key, value.len() as u32) {
            Ok(()) => {
                self.place(key, meta, value);
                Ok(())
            }
            Err(short) => Err(short),
        }
    }

    /// Adds the metadata of a stored document without its value, under value eviction, for a key that has no node. Its
    /// cost is linear in the number of slots.
    ///
    /// # Errors
    /// [`Short`] exactly where the key's blocks exceed the free ones; nothing changed.
    pub fn add_ejected(&mut self, key: &[u8], meta: Meta) -> Result<(), Short>
        requires eviction { self.old.eviction ≡ Eviction.Value }
        requires key { IsKey key.now }
        requires home { stripe_of key.now self.old.stripes ≡ self.old.index }
        requires stored { meta.seqno ≤ self.old.mark }
        requires live { meta.deleted ≡ false }
        requires len { meta.len ≤ max_value }
        requires absent { node_at self.old.slots key.now ≡ None }
        ensures short { is_err result ≡ nat_lt (free_of self.old) (blocks_of (length key.now)) }
        ensures ok { OnOk result (self.new ≡ record self.old {
          slots = placed self.old.slots
              (record { key = key.now; meta = meta; value = None; age = 0 });
        }) }
        ensures fits { OnOk result (Fits key.now
            (node_blocks (record { key = key.now; meta = meta; value = None; age = 0 }))
            self.old.slots) }
        ensures err { OnErr result (self.new ≡ self.old) }
        ensures numbers { IfErr result (λ short. (short.free ≡ free_of self.old)
            × (short.need ≡ blocks_of (length key.now))) }
    {
        let need = rules::blocks(key.len()) as u32;
        let free = self.table.free();
        if free < need {
            return Err(Short { free, need });
        }
        room::put_ejected(&mut self.table, key, meta);
        Ok(())
    }

    /// Ejects a stored document that is resident or a tombstone: under value eviction its value goes, under full eviction
    /// its node, and a tombstone's node under both. Its cost is linear in the number of slots.
    pub fn eject(&mut self, key: &[u8])
        requires { is_ejectable_slot self.old.mark (node_at self.old.slots key.now) ≡ true }
        ensures { self.new ≡ record self.old {
          slots = at_key (eject_slot self.old.eviction) self.old.slots key.now;
        } }
    {
        if let Some(slot) = search::slot_of(&self.table, key) {
            room::eject(&mut self.table, self.eviction, slot);
        }
    }

    /// Makes every node one older, at most 3. Its cost is linear in the number of slots.
    pub fn cool(&mut self)
        ensures { self.new ≡ record self.old { slots = map cooled self.old.slots } }
    {
        room::cool(&mut self.table);
    }

    /// Appends the key of the document that is ejected next where room is made for a key without a node, and answers
    /// whether there is one. Its cost is linear in the number of slots.
    pub fn oldest(&self, out: &mut Out) -> bool
        requires { length (key_of (node_in self.now.slots (victim self.now.mark [] self.now.slots)))
            ≤ out.old.spare }
        ensures some { result ≡ is_some (victim self.now.mark [] self.now.slots) }
        ensures key { out.new.bytes
            ≡ out.old.bytes
            ++ key_of (node_in self.now.slots (victim self.now.mark [] self.now.slots)) }
        ensures room { out.new.spare + length out.new.bytes ≡ out.old.spare + length out.old.bytes }
    {
        match search::victim(&self.table, self.mark, &[]) {
            None => false,
            Some(slot) => {
                self.table.key_to(slot, out);
                true
            }
        }
    }

    /// Notes that mutations up to this number are stored. The mark never falls.
    pub fn mark(&mut self, number: u64)
        requires { self.old.mark ≤ number }
        ensures { self.new ≡ record self.old { mark = number } }
    {
        self.mark = number;
    }

    /// Up to which number mutations are stored.
    pub fn marked(&self) -> u64
        ensures { result ≡ self.now.mark }
    {
        self.mark
    }

    /// How many blocks no node takes.
    pub fn free(&self) -> u32
        ensures free { result ≡ free_of self.now }
        ensures sound { IsStripe self.now }
        ensures keys { (slot : Option ℕ) → length (key_of (node_in self.now.slots slot)) ≤ max_key }
    {
        self.table.free()
    }

    /// How many blocks the stripe has.
    pub fn blocks(&self) -> u32
        ensures { result ≡ length self.now.slots }
    {
        self.table.count()
    }

    /// What is left in memory of a document that is ejected.
    pub fn eviction(&self) -> Eviction
        ensures { result ≡ self.now.eviction }
    {
        self.eviction
    }

    /// How many blocks of other keys' documents no ejecting frees. Its cost is linear in the number of slots.
    pub fn pinned(&self, key: &[u8]) -> u32
        ensures { result ≡ others_pinned self.now.eviction self.now.mark key.now self.now.slots }
    {
        room::others_pinned(&self.table, self.eviction, self.mark, key)
    }

    /// How many documents have their value in memory, and how many don't. Its cost is linear in the number of slots.
    pub fn counts(&self) -> Counts
        ensures resident { result.resident ≡ count_by is_resident self.now.slots }
        ensures ejected { result.ejected ≡ count_by is_ejected self.now.slots }
    {
        room::counts(&self.table)
    }

    /// The metadata of a slot's node, whose key it appends. Its cost is linear in the key.
    pub fn slot(&self, slot: u32, out: &mut Out) -> Option<Meta>
        requires { length (key_of (at self.now.slots slot)) ≤ out.old.spare }
        ensures meta { result ≡ meta_of (at self.now.slots slot) }
        ensures key { out.new.bytes ≡ out.old.bytes ++ key_of (at self.now.slots slot) }
        ensures room { out.new.spare + length out.new.bytes ≡ out.old.spare + length out.old.bytes }
    {
        if slot >= self.table.count() {
            return None;
        }
        self.table.key_to(slot, out);
        match self.table.look(slot) {
            None => None,
            Some(look) => Some(look.meta),
        }
    }

    /// Writes the key of a slot's node to the front of `into`, and answers its length. Where there is no node, `into` stays
    /// as it was. Its cost is linear in the key.
    pub fn key_into(&self, slot: u32, into: &mut [u8; MAX_KEY]) -> Option<u8>
        ensures len { result ≡ key_len_of (at self.now.slots slot) }
        ensures key { into.new
            ≡ key_of (at self.now.slots slot)
            ++ drop (length (key_of (at self.now.slots slot))) into.old }
    {
        if slot >= self.table.count() {
            return None;
        }
        self.table.key_into(slot, into)
    }

    /// How long ago a key's document was used, from 0 to 3. Its cost is linear in the number of slots.
    pub fn age(&self, key: &[u8]) -> Option<u8>
        ensures { result ≡ age_of (node_at self.now.slots key.now) }
    {
        match self.look(key) {
            None => None,
            Some(look) => Some(look.age),
        }
    }

    /// Notes the vBucket's state.
    pub fn set_state(&mut self, state: VbState)
        ensures { self.new ≡ record self.old { state = state } }
    {
        self.state = state;
    }

    /// The vBucket's state.
    pub fn state(&self) -> VbState
        ensures { result ≡ self.now.state }
    {
        self.state
    }

    /// Notes that the vBucket has opened.
    pub fn set_opened(&mut self)
        ensures { self.new ≡ record self.old { opened = true } }
    {
        self.opened = true;
    }

    /// Whether the vBucket has opened.
    pub fn is_opened(&self) -> bool
        ensures { result ≡ self.now.opened }
    {
        self.opened
    }
}
