// Bytes and texts outlive what they were copied from.
use crate::{Bytes, NoMemory, Text};
use std::alloc::Global;
use std::process::Abort;
use std::test::Fail;

/// Copies of both, of which the originals are gone.
fn copies(alloc: Global) -> Result<(Bytes, Text), NoMemory> {
    let mut bytes = vec![in alloc; 0u8, 255, 0]?;
    let copy = Bytes::of(alloc, &bytes)?;
    bytes[1] = 7;
    let text = String::from_str(alloc, "späte Äpfel")?;
    Ok((copy, Text::of(alloc, text.as_str())?))
}

#[test]
fn copies_outlive_what_was_copied(rt: HostRuntime) -> Result<(), Fail> {
    let (bytes, text) = copies(rt.alloc())?;
    assert_eq!(rt; bytes.as_slice(), [0u8, 255, 0].as_slice());
    assert_eq!(rt; text.as_str(), "späte Äpfel");
    let nothing = Bytes::of(rt.alloc(), b"")?;
    assert_eq!(rt; nothing.as_slice().len(), 0);
    let empty = Text::of(rt.alloc(), "")?;
    assert_eq!(rt; empty.as_str(), "");
    Ok(())
}
