ghost use Rattle.std.specs.Prelude.{◌≡◌, ◌+◌, ◌≤◌, [], ◌∷◌, ◌++◌, length, take, OnOk, OnErr};

use crate::memory::NoMemory;
use std::alloc::Global;
use std::marker::Model;

/// How many bytes of room are added at a time.
const MORE_ROOM: usize = 4096;

/// Text that grows at its end, with room behind it, so that a short word is written in place. Contracts see the bytes.
#[derive(Drop)]
pub struct Text {
    room: Vec<u8>,
    len: usize,
}

impl Model for Text {
    ghost use Rattle.std.specs.Prelude.{◌≤◌, length, take};
    ghost use Rattle.hm_base.specs.Written.{Written};

    ghost Value = { Written };

    ghost view = { λ t. record { items = take t.len t.room.items } };

    ghost invariant = { λ t. t.len ≤ length t.room.items };
}

impl Text {
    /// The empty text. It takes no memory.
    pub fn new(alloc: Global) -> Text
        ensures { result.items ≡ [] }
    {
        Text {
            room: Vec::new(alloc),
            len: 0,
        }
    }

    /// How many bytes there are.
    #[inline(always)]
    pub fn len(&self) -> usize
        ensures { result ≡ length self.now.items }
    {
        self.len
    }

    /// The bytes.
    #[inline(always)]
    pub fn as_slice(&self) -> &[u8]
        ensures { result.now ≡ self.now.items }
    {
        &self.room[..self.len]
    }

    /// Takes all bytes away; the room stays.
    #[inline(always)]
    pub fn clear(&mut self)
        ensures { self.new.items ≡ [] }
    {
        self.len = 0;
    }

    /// Takes the bytes from a place on away.
    #[inline(always)]
    pub fn truncate(&mut self, len: usize)
        ensures { self.new.items ≡ take len self.old.items }
    {
        if len < self.len {
            self.len = len;
        }
    }

    /// Appends a byte. After want of memory nothing has changed, here and in the next call.
    #[inline(always)]
    pub fn push(&mut self, byte: u8) -> Result<(), NoMemory>
        ensures ok { OnOk result (self.new.items ≡ self.old.items ++ byte ∷ []) }
        ensures err { OnErr result (self.new.items ≡ self.old.items) }
    {
        self.put(&[byte])
    }

    /// Appends bytes.
    #[inline(always)]
    pub fn put(&mut self, bytes: &[u8]) -> Result<(), NoMemory>
        ensures ok { OnOk result (self.new.items ≡ self.old.items ++ bytes.now) }
        ensures err { OnErr result (self.new.items ≡ self.old.items) }
    {
        if self.room.len() - self.len < bytes.len() {
            return self.put_in_more_room(bytes);
        }
        let end = self.len + bytes.len();
        self.room[self.len..end].copy_from_slice(bytes);
        self.len = end;
        Ok(())
    }

    /// Makes room and appends bytes.
    #[cold]
    #[inline(never)]
    fn put_in_more_room(&mut self, bytes: &[u8]) -> Result<(), NoMemory>
        ensures ok { OnOk result (self.new.items ≡ self.old.items ++ bytes.now) }
        ensures err { OnErr result (self.new.items ≡ self.old.items) }
    {
        make_room(&mut self.room, self.len, bytes.len())?;
        let end = self.len + bytes.len();
        self.room[self.len..end].copy_from_slice(bytes);
        self.len = end;
        Ok(())
    }
}

/// Has room for so many bytes more behind the first `len` ones, which stay.
#[cold]
#[inline(never)]
fn make_room(room: &mut Vec<u8>, len: usize, more: usize) -> Result<(), NoMemory>
    requires { len ≤ length room.old.items }
    ensures same { take len room.new.items ≡ take len room.old.items }
    ensures within { len ≤ length room.new.items }
    ensures ok { OnOk result (len + more ≤ length room.new.items) }
{
    while room.len() - len < more {
        room.extend_from_slice(&[0; MORE_ROOM])?;
    }
    Ok(())
}
