// A document under its key, in memory of its own.
ghost use Rattle.std.specs.Prelude.{◌≡◌, length};
ghost use Rattle.ep_model.specs.Limits.{IsKey, IsValue};

use ep_model::Meta;

/// A document under its key. `meta.len` is the length of `value`.
#[derive(Drop)]
pub struct Row {
    pub key: Vec<u8>,
    pub value: Vec<u8>,
    pub meta: Meta,
    ghost keyed: { IsKey key.items },
    ghost fits: { IsValue value.items },
    ghost measured: { meta.len ≡ length value.items },
}
