// Which layouts of a bucket are in their limits, and which stripe a key is in.
use crate::{Config, Eviction, Field, stripe_of};
use std::process::Abort;

const DEFAULT: Config = Config {
    vbuckets: 4,
    stripes: 4,
    blocks: 65_536,
    ckpt_blocks: 65_536,
    ckpt_max: 500,
    eviction: Eviction::Value,
    early: false,
};

/// A layout of these numbers has this fault.
fn expect(
    rt: &impl Abort,
    (vbuckets, stripes): (u16, u16),
    (blocks, ckpt_blocks, ckpt_max): (u32, u32, u32),
    fault: Option<Field>,
) {
    let config = Config {
        vbuckets,
        stripes,
        blocks,
        ckpt_blocks,
        ckpt_max,
        eviction: Eviction::Full,
        early: true,
    };
    assert_eq!(rt; config.fault(), fault);
}

#[test]
fn each_field_has_its_limits(rt: HostRuntime) {
    assert_eq!(rt; DEFAULT.fault(), None);
    let (vbuckets, stripes) = (Some(Field::Vbuckets), Some(Field::Stripes));
    let (blocks, ckpt_blocks) = (Some(Field::Blocks), Some(Field::CkptBlocks));
    for (parts, sizes, fault) in [
        ((0, 4), (64, 64, 500), vbuckets),
        ((1, 4), (64, 64, 500), None),
        ((1024, 4), (64, 64, 500), None),
        ((1025, 4), (64, 64, 500), vbuckets),
        ((4, 0), (64, 64, 500), stripes),
        ((4, 1), (64, 64, 500), None),
        ((4, 64), (64, 64, 500), None),
        ((4, 65), (64, 64, 500), stripes),
        ((4, 4), (15, 64, 500), blocks),
        ((4, 4), (16, 64, 500), None),
        ((1, 1), (16_777_200, 16, 500), None),
        ((1, 1), (16_777_217, 16, 500), blocks),
        ((4, 4), (64, 15, 500), ckpt_blocks),
        ((4, 4), (64, 16, 500), None),
        ((1, 1), (16, 16_777_200, 500), None),
        ((1, 1), (16, 16_777_217, 500), ckpt_blocks),
        ((4, 4), (64, 64, 0), Some(Field::CkptMax)),
        ((4, 4), (64, 64, 1), None),
        ((4, 4), (64, 64, 100_000), None),
        ((4, 4), (64, 64, 100_001), Some(Field::CkptMax)),
        ((1, 1), (8_388_608, 8_388_608, 500), None),
        ((1, 1), (8_388_608, 8_388_609, 500), Some(Field::Total)),
        ((1024, 64), (255, 64, 500), None),
        ((1024, 64), (255, 65, 500), Some(Field::Total)),
        ((1, 1), (16_777_216, 16, 500), Some(Field::Total)),
    ] {
        expect(&rt, parts, sizes, fault);
    }
}

#[test]
fn the_first_fault_is_answered(rt: HostRuntime) {
    expect(&rt, (0, 0), (0, 0, 0), Some(Field::Vbuckets));
    expect(&rt, (1, 0), (0, 0, 0), Some(Field::Stripes));
    expect(&rt, (1, 1), (0, 0, 0), Some(Field::Blocks));
    expect(&rt, (1, 1), (16, 0, 0), Some(Field::CkptBlocks));
    expect(&rt, (1, 1), (16, 16, 0), Some(Field::CkptMax));
    let most = u32::MAX;
    expect(
        &rt,
        (u16::MAX, u16::MAX),
        (most, most, most),
        Some(Field::Vbuckets),
    );
}

#[test]
fn a_key_is_in_the_stripe_of_its_hash(rt: HostRuntime) {
    // The 32-bit FNV-1a hashes of the empty text, `a`, `b` and `foobar` are 0x811c9dc5, 0xe40c292c,
    // 0xe70c2de5 and 0xbf9cf968 (Fowler, Noll and Vo's own vectors).
    assert_eq!(rt; stripe_of(b"", 65_535), 0x1ee2);
    assert_eq!(rt; stripe_of(b"a", 64), 44);
    assert_eq!(rt; stripe_of(b"b", 64), 37);
    assert_eq!(rt; stripe_of(b"a", 4), 0);
    assert_eq!(rt; stripe_of(b"b", 4), 1);
    assert_eq!(rt; stripe_of(b"foobar", 64), 40);
    assert_eq!(rt; stripe_of(b"foobar", 1), 0);
}
