// Checkpoints and blocks with their numbers written out.
ghost use Rattle.std.specs.Prelude.{◌≡◌, length, IfOk};
ghost use Rattle.ep_model.specs.Limits.{IsKey};

mod rooms;

use crate::{PlainCheckpoints, PlainItem, pinned};
use ep_model::{Eviction, NoMemory};
use std::alloc::Global;
use std::process::Abort;
use std::test::Fail;

/// Two keys of one stripe among one, and a third.
const A: &[u8] = b"a";

const B: &[u8] = b"b";

const C: &[u8] = b"c";

/// A document of the key whose value has so many bytes.
fn item(
    rt: &impl Abort,
    alloc: Global,
    key: &[u8],
    len: usize,
    seqno: u64,
) -> Result<PlainItem, NoMemory>
    requires { IsKey key.now }
{
    let value = vec![in alloc; 0u8; len]?;
    assert!(rt; value.len() <= 1_048_576);
    PlainItem::copied(alloc, key, &value, seqno)
}

/// Queues a mutation with a value of so many bytes where a checkpoint has two keys at most. The open one's id is then
/// this, and the blocks kept above 0 are these.
fn queue(
    rt: &impl Abort,
    alloc: Global,
    checkpoints: &mut PlainCheckpoints,
    key: &[u8],
    len: usize,
    seqno: u64,
    id: u64,
    kept: u64,
) -> Result<(), NoMemory>
    requires { IsKey key.now }
{
    assert!(rt; checkpoints.id() < 1000);
    checkpoints.queue(2, item(rt, alloc, key, len, seqno)?)?;
    assert_eq!(rt; checkpoints.id(), id);
    assert_eq!(rt; checkpoints.kept_blocks(0), kept);
    Ok(())
}

/// What is stored closes the open checkpoint, whose id is then this.
fn persist(rt: &impl Abort, checkpoints: &mut PlainCheckpoints, id: u64) -> Result<(), NoMemory> {
    assert!(rt; checkpoints.id() < 1000);
    checkpoints.persist()?;
    assert_eq!(rt; checkpoints.id(), id);
    Ok(())
}

// Mutations of a, b and a again have the numbers 1 to 3: those kept are 2 and 3. A third key opens the next checkpoint, in
// which a has an item again, beside the one that was closed.
#[test]
fn closed_checkpoints_keep_their_items(rt: HostRuntime) -> Result<(), Fail> {
    let alloc = rt.alloc();
    let mut checkpoints = PlainCheckpoints::new(alloc);
    queue(&rt, alloc, &mut checkpoints, A, 0, 1, 1, 1)?;
    queue(&rt, alloc, &mut checkpoints, B, 0, 2, 1, 2)?;
    queue(&rt, alloc, &mut checkpoints, A, 0, 3, 1, 2)?;
    assert_eq!(rt; checkpoints.kept_blocks(1), 2);
    assert_eq!(rt; checkpoints.kept_blocks(2), 1);
    queue(&rt, alloc, &mut checkpoints, C, 0, 4, 2, 3)?;
    queue(&rt, alloc, &mut checkpoints, A, 0, 5, 2, 4)?;
    assert_eq!(rt; checkpoints.kept_blocks(2), 3);
    persist(&rt, &mut checkpoints, 3)?;
    assert_eq!(rt; checkpoints.kept_blocks(5), 0);
    persist(&rt, &mut checkpoints, 3)?;
    Ok(())
}

// Of 16 blocks of checkpoints a document of 1,792 bytes under a takes 15, and leaves no room for one of 256 bytes under b,
// which takes 3; one of 1,920 bytes under a takes 16 in place of the 15. Once the first is stored, b has room.
#[test]
fn replaced_items_make_room(rt: HostRuntime) -> Result<(), Fail> {
    let alloc = rt.alloc();
    let mut checkpoints = PlainCheckpoints::new(alloc);
    queue(&rt, alloc, &mut checkpoints, A, 1792, 1, 1, 15)?;
    queue(&rt, alloc, &mut checkpoints, B, 256, 2, 1, 18)?;
    let mut checkpoints = PlainCheckpoints::new(alloc);
    queue(&rt, alloc, &mut checkpoints, A, 1792, 1, 1, 15)?;
    queue(&rt, alloc, &mut checkpoints, A, 1920, 2, 1, 16)?;
    let mut checkpoints = PlainCheckpoints::new(alloc);
    queue(&rt, alloc, &mut checkpoints, A, 1792, 1, 1, 15)?;
    persist(&rt, &mut checkpoints, 2)?;
    queue(&rt, alloc, &mut checkpoints, B, 256, 2, 2, 18)?;
    assert_eq!(rt; checkpoints.kept_blocks(1), 3);
    Ok(())
}

// A document of 16 blocks pins them until its number is marked; then it pins its key's block under value eviction, and
// nothing under full eviction. Its own key is left out.
#[test]
fn stored_documents_leave_memory(rt: HostRuntime) -> Result<(), Fail> {
    let alloc = rt.alloc();
    let mut documents = Vec::new(alloc);
    documents.push(item(&rt, alloc, A, 1920, 1)?)?;
    for (eviction, mark, key, blocks) in [
        (Eviction::Full, 0, B, 16),
        (Eviction::Full, 1, B, 0),
        (Eviction::Value, 0, B, 16),
        (Eviction::Value, 1, B, 1),
        (Eviction::Value, 0, A, 0),
    ] {
        assert_eq!(rt; pinned(&documents, eviction, 1, 0, mark, key), blocks);
    }
    Ok(())
}
