// A failover table that runs full.
use failover_table::Failovers;

// The first two entries, and those about the end of a full table.
fn shown(table: &Failovers) -> [Option<(u64, u64)>; 5] {
    [
        table.entry(0),
        table.entry(1),
        table.entry(24),
        table.entry(25),
        table.entry(u32::MAX),
    ]
}

// Whether 27 entries leave the newest 25, also in a copy.
fn is_full() -> bool {
    let mut table = Failovers::new();
    for uuid in 1..28 {
        table.add(uuid, 10 * uuid);
    }
    let copy = table.copy();
    table.add(99, 300);
    let shown = [shown(&copy), shown(&table)];
    let wanted = [
        [Some((27, 270)), Some((26, 260)), Some((3, 30)), None, None],
        [Some((99, 300)), Some((27, 270)), Some((4, 40)), None, None],
    ];
    shown == wanted && copy.count() == 25
}

#[test]
fn newest_first_and_the_oldest_goes(rt: HostRuntime) {
    assert!(rt; is_full());
}
