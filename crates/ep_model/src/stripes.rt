// Which stripe of a vBucket a key belongs to.
ghost use Rattle.std.specs.Prelude.{◌≡◌, ◌<◌};
ghost use Rattle.ep_model.specs.Stripes.{fnv_1a, stripe_of};

/// The offset basis and the prime of the 32-bit FNV-1a hash.
const FNV_OFFSET: u32 = 2_166_136_261;

const FNV_PRIME: u32 = 16_777_619;

// The 32-bit FNV-1a hash (Fowler, Noll and Vo).
fn fnv_1a(bytes: &[u8]) -> u32
    ensures { result ≡ fnv_1a bytes.now }
{
    bytes.iter().fold(FNV_OFFSET, |hash, byte| {
        (hash ^ u32::from(*byte)).wrapping_mul(FNV_PRIME)
    })
}

/// The stripe of a key among so many: the key's 32-bit FNV-1a hash modulo their number. Its cost is linear in
/// the key's length.
pub fn stripe_of(key: &[u8], stripes: u16) -> u16
    requires { 0 < stripes }
    ensures stripe { result ≡ stripe_of key.now stripes }
    ensures below { result < stripes }
{
    (fnv_1a(key) % u32::from(stripes)) as u16
}
