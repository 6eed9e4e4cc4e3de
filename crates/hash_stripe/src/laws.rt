//! The laws of what calls leave. The functions do nothing: their contracts are the laws, over all stripes.
ghost use Rattle.hash_stripe.specs.Laws.{EjectingIsSlotwise, EjectingIsKeywise, PlacingIsKeywise, RestoringIsKeywise, HeatingIsKeywise, DroppingIsKeywise, CoolingIsKeywise, SlotsAreKeywise, KeysHaveSlots, SlotsAreApart, EjectingKeepsPinned, EjectingLeavesPinned, NodesTakeBlocks};

/// Ejecting changes no metadata that stays, no document of the key that room is made for, and nothing that isn't stored:
/// each slot is as it was, or has what is left of a clean document of another key.
pub fn ejecting_is_slotwise()
    ensures { EjectingIsSlotwise }
{}

/// What calls leave of a stripe as a map from keys: a call on a key leaves all other keys what they had, but for what
/// ejecting takes, and all that ejecting leaves under a key is what the key had or what is left of a clean document.
pub fn calls_are_keywise()
    ensures ejecting { EjectingIsKeywise }
    ensures placing { PlacingIsKeywise }
    ensures restoring { RestoringIsKeywise }
    ensures heating { HeatingIsKeywise }
    ensures dropping { DroppingIsKeywise }
    ensures cooling { CoolingIsKeywise }
{}

/// Slots and keys tell of the same nodes: the node in a slot is its key's, each key's node stands in some slot, and in no
/// second one.
pub fn slots_are_keywise()
    ensures nodes { SlotsAreKeywise }
    ensures keys { KeysHaveSlots }
    ensures apart { SlotsAreApart }
{}

/// Ejecting frees no pinned block of another key, and where none is left to eject, the others take their pinned blocks
/// alone. So what `room_for` and `restore` answer as free at [`Short`](crate::Short) is what the pinned ones leave.
pub fn pinned_blocks_stay()
    ensures keeps { EjectingKeepsPinned }
    ensures leaves { EjectingLeavesPinned }
{}

/// Each node takes a block at least: there are at most as many, with a value or without, as blocks that aren't free.
pub fn nodes_take_blocks()
    ensures { NodesTakeBlocks }
{}
