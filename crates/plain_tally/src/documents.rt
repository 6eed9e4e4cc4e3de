// The pinned blocks of a stripe.
ghost use Rattle.std.specs.Prelude.{◌≡◌, ◌<◌, ◌-◌, ◌^◌, filter, min};
ghost use Rattle.ep_model.specs.World.{Item};
ghost use Rattle.ep_model.specs.Quota.{is_other, pinned_sum};
ghost use Rattle.plain_tally.specs.Items.{items_data, pinned_cost};

use crate::item::PlainItem;
use ep_model::{Eviction, stripe_of};

// What a document counts for, which is nothing in another stripe or under the key that is left out.
fn cost(
    item: &PlainItem,
    eviction: Eviction,
    stripes: u16,
    stripe: u16,
    mark: u64,
    key: &[u8],
) -> u64
    requires { 0 < stripes }
    ensures { result ≡ pinned_cost eviction stripes stripe mark key.now item.now }
{
    if stripe_of(&item.key, stripes) == stripe && item.key.as_slice() != key {
        item.pinned_blocks(eviction, mark)
    } else {
        0
    }
}

/// The pinned blocks of a stripe but for a key's, at most 2^64 - 1: what can't leave memory of the stripe's documents
/// where all mutations up to `mark` are stored. Its cost is linear in the number of documents.
pub fn pinned(
    documents: &[PlainItem],
    eviction: Eviction,
    stripes: u16,
    stripe: u16,
    mark: u64,
    key: &[u8],
) -> u64
    requires { 0 < stripes }
    ensures { result ≡ min (pinned_sum eviction mark
        (filter (λ (entry : Item). is_other stripes stripe key.now entry.0)
        (items_data documents.now))) (2 ^ 64 - 1) }
{
    let mut total = 0u64;
    for index in 0..documents.len() {
        total = total.saturating_add(cost(&documents[index], eviction, stripes, stripe, mark, key));
    }
    total
}
