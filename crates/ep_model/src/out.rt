// A byte buffer of fixed room.
ghost use Rattle.std.specs.Prelude.{◌≡◌, ◌+◌, ◌-◌, ◌≤◌, ◌++◌, [], length, take, drop, IfOk};
ghost use Rattle.ep_model.specs.Buffer.{put_over};

use crate::NoMemory;
use std::alloc::Global;
use std::marker::Model;

/// A byte buffer of fixed room. All of it is taken by `new`, and no other call takes memory. Contracts see
/// its bytes, and as `spare` how many more it takes.
#[derive(Drop)]
pub struct Out {
    room: Vec<u8>,
    len: usize,
}

impl Model for Out {
    ghost use Rattle.std.specs.Prelude.{◌-◌, ◌≤◌, take, vec_len};
    ghost use Rattle.ep_model.specs.declared.data.OutData.{OutData};

    ghost Value = { OutData };

    ghost view = { λ o. record {
      bytes = take o.len o.room.items;
      spare = vec_len o.room - o.len;
    } };

    ghost invariant = { λ o. o.len ≤ vec_len o.room };
}

impl Out {
    /// An empty buffer for `capacity` bytes. Its cost is linear in `capacity`.
    pub fn new(alloc: Global, capacity: usize) -> Result<Out, NoMemory>
        ensures bytes { IfOk result (λ out. out.bytes ≡ []) }
        ensures spare { IfOk result (λ out. out.spare ≡ capacity) }
    {
        Ok(Out {
            room: vec![in alloc; 0u8; capacity]?,
            len: 0,
        })
    }

    /// Appends the bytes. Its cost is linear in their number.
    pub fn push(&mut self, bytes: &[u8])
        requires { length bytes.now ≤ self.old.spare }
        ensures bytes { self.new.bytes ≡ self.old.bytes ++ bytes.now }
        ensures spare { self.new.spare + length bytes.now ≡ self.old.spare }
    {
        let end = self.len + bytes.len();
        self.room[self.len..end].copy_from_slice(bytes);
        self.len = end;
    }

    /// Appends `len` bytes in constant time, which hold what the room held: they are to be put over.
    pub fn skip(&mut self, len: usize)
        requires { len ≤ self.old.spare }
        ensures bytes { take (length self.old.bytes) self.new.bytes ≡ self.old.bytes }
        ensures len { length self.new.bytes ≡ length self.old.bytes + len }
        ensures spare { self.new.spare + len ≡ self.old.spare }
    {
        self.len += len;
    }

    /// Puts bytes over those that stand from `at` on. Its cost is linear in their number.
    pub fn put_over(&mut self, at: usize, bytes: &[u8])
        requires { at + length bytes.now ≤ length self.old.bytes }
        ensures bytes { self.new.bytes ≡ put_over at bytes.now self.old.bytes }
        ensures spare { self.new.spare ≡ self.old.spare }
    {
        write_over(&mut self.room, at, bytes);
    }

    /// Keeps the first `len` bytes, in constant time.
    pub fn cut(&mut self, len: usize)
        requires { len ≤ length self.old.bytes }
        ensures bytes { self.new.bytes ≡ take len self.old.bytes }
        ensures spare { self.new.spare + len ≡ self.old.spare + length self.old.bytes }
    {
        self.len = len;
    }

    /// Drops the first `len` bytes. Its cost is linear in the number of those that stay.
    pub fn drop_first(&mut self, len: usize)
        requires { len ≤ length self.old.bytes }
        ensures bytes { self.new.bytes ≡ drop len self.old.bytes }
        ensures spare { self.new.spare ≡ self.old.spare + len }
    {
        self.room.copy_within(len..self.len, 0);
        self.len -= len;
    }

    /// What was pushed and not cut or dropped.
    pub fn bytes(&self) -> &[u8]
        ensures { result.now ≡ self.now.bytes }
    {
        &self.room[..self.len]
    }

    /// How many more bytes it takes.
    pub fn spare(&self) -> usize
        ensures { result ≡ self.now.spare }
    {
        self.room.len() - self.len
    }
}

// Puts bytes over those that stand from `at` on.
fn write_over(buffer: &mut [u8], at: usize, bytes: &[u8])
    requires { at + length bytes.now ≤ length buffer.old }
    ensures { buffer.new ≡ put_over at bytes.now buffer.old }
{
    buffer[at..at + bytes.len()].copy_from_slice(bytes);
}
