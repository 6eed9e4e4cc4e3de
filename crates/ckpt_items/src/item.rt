// An item in a pool.
use ep_model::Meta;
use value_pool::Chain;

// A mutation: the chains of its key and its value, and its metadata.
#[derive(Drop)]
pub struct Item {
    pub key: Chain,
    pub value: Chain,
    pub meta: Meta,
}
