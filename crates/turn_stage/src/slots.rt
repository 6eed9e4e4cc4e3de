// The parts as they lie in a table's slots.
ghost use Rattle.std.specs.Prelude.{◌≡◌, ◌<◌, ◌≤◌, ℕ, map, length, Some, Option, IfOk, vec_len, vec_capacity};
ghost use Rattle.std.specs.Slots.{slots_items, slots_len, IsFull};
ghost use Rattle.turn_stage.specs.Filled.{AreFilled};

use atomic_table::Closed;
use ep_model::NoMemory;
use std::alloc::Global;

// Each part in a slot of its own.
pub fn in_slots<P: Drop>(alloc: Global, parts: Vec<P>) -> Result<Vec<Option<P>>, NoMemory>
    ensures { IfOk result (λ slots. slots.items ≡ map Some parts.items) }
{
    let mut slots = Vec::with_capacity(alloc, parts.len())?;
    for part in parts {
        slots.push(Some(part))?;
    }
    Ok(slots)
}

// Takes the parts out of their slots, and frees the table.
pub fn taken_out<P: Drop>(mut closed: Closed<Option<P>, Global>, mut room: Vec<P>) -> Vec<P>
    requires full { IsFull closed.slots }
    requires filled { AreFilled (slots_items closed.slots) }
    requires empty { vec_len room ≡ 0 }
    requires wide { slots_len closed.slots ≤ vec_capacity room }
    ensures { map Some result.items ≡ slots_items closed.slots }
{
    for slot in 0..closed.slot_count() {
        let Some(part) = closed.take(slot) else {
            unreachable!()
        };
        room.push_reserved(part);
    }
    closed.free();
    room
}
