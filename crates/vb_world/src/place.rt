// Where the parts of a vBucket are.
ghost use Rattle.std.specs.Prelude.{◌≡◌, ◌<◌, length, map, slice_get, slice_set, Some, None, OnSome, IfNone, IfOk};
ghost use Rattle.vb_world.specs.declared.place.Place.TheVariants.{Out as OutWith};
ghost use Rattle.vb_world.specs.declared.place.Bucket.{Bucket};
ghost use Rattle.vb_world.specs.Buckets.{bucket_data};
ghost use Rattle.vb_world.specs.World.{bucket_of, home_of, place_at, changed_at, put_place};

use crate::origin::Origin;
use ep_model::NoMemory;
use std::alloc::Global;
use std::mem;

/// Where a part is: at home, or out with this caller.
#[derive(Drop)]
pub enum Place<P> {
    Home(P),
    Out { caller: u64 },
}

// A vBucket: what its history began with, and the places of the stripes in order, of the queue and of the desk.
#[derive(Drop)]
pub struct Bucket<P> {
    pub origin: Origin,
    pub places: Vec<Place<P>>,
}

// A vBucket whose parts are at home.
pub fn bucket_of<P: Drop>(alloc: Global, parts: Vec<P>) -> Result<Bucket<P>, NoMemory>
    ensures { IfOk result (λ bucket. bucket_data bucket ≡ bucket_of parts.items) }
{
    let mut places = Vec::with_capacity(alloc, parts.len())?;
    for part in parts {
        places.push(Place::Home(part))?;
    }
    Ok(Bucket {
        origin: Origin::new(),
        places,
    })
}

// Takes what is at home at a place out for a caller.
fn take_place<P: Drop>(places: &mut [Place<P>], slot: usize, caller: u64) -> Option<P>
    requires { slot < length places.old }
    ensures taken { result ≡ home_of (slice_get places.old slot) }
    ensures out { OnSome result (places.new ≡ slice_set places.old slot (OutWith caller)) }
    ensures same { IfNone result (places.new ≡ places.old) }
{
    match mem::replace(&mut places[slot], Place::Out { caller }) {
        Place::Home(part) => Some(part),
        out => {
            places[slot] = out;
            None
        }
    }
}

// The same of a vBucket, if there is one at that index.
pub fn take_at<P: Drop>(
    buckets: &mut Vec<Bucket<P>>,
    index: usize,
    slot: usize,
    caller: u64,
) -> Option<P>
    requires { (bucket : Bucket P) → slice_get buckets.old.items index ≡ Some bucket → slot
        < length bucket.places.items }
    ensures taken { result ≡ home_of (place_at (slice_get (map bucket_data buckets.old.items) index)
        slot) }
    ensures out { OnSome result (map bucket_data buckets.new.items
        ≡ changed_at (put_place slot (OutWith caller)) (map bucket_data buckets.old.items) index) }
    ensures same { IfNone result (map bucket_data buckets.new.items
        ≡ map bucket_data buckets.old.items) }
{
    let bucket = buckets.get_mut(index)?;
    take_place(&mut bucket.places, slot, caller)
}

// Puts what a place of a vBucket is to hold.
pub fn put_at<P: Drop>(buckets: &mut Vec<Bucket<P>>, index: usize, slot: usize, place: Place<P>)
    requires index { index < length buckets.old.items }
    requires slot { (bucket : Bucket P) → slice_get buckets.old.items index ≡ Some bucket → slot
        < length bucket.places.items }
    ensures { map bucket_data buckets.new.items
        ≡ changed_at (put_place slot place) (map bucket_data buckets.old.items) index }
{
    let bucket = &mut buckets[index];
    bucket.places[slot] = place;
}
