ghost use Rattle.std.specs.Prelude.{◌≡◌, ◌≤◌, ◌↔◌, [], length, IsSome, IfSome};
ghost use Rattle.hm_codec.specs.Writing.{Adds};

use std::marker::Model;

/// How many bytes a datagram or a frame carries at most.
pub const MAX_LEN: usize = 2048;

/// At most `N` bytes, which lie in the value itself. Contracts see their list.
#[derive(Drop)]
pub struct Buf<const N: usize> {
    room: [u8; N],
    len: usize,
}

impl<const N: usize> Model for Buf<N> {
    ghost use Rattle.std.specs.Prelude.{List, ℕ, take, length, ◌≤◌, ◌≡◌};

    ghost Value = { List ℕ };

    ghost view = { λ b. take b.len b.room };

    ghost invariant = { λ b. (b.len ≤ N) × (length b.room ≡ N) };
}

impl<const N: usize> Buf<N> {
    /// A buffer that holds no bytes.
    pub fn new() -> Buf<N>
        ensures { result ≡ [] }
    {
        Buf {
            room: [0; N],
            len: 0,
        }
    }

    /// A buffer that holds these bytes. None exactly above `N` bytes.
    pub fn from_slice(bytes: &[u8]) -> Option<Buf<N>>
        ensures fits { IsSome result ↔ (length bytes.now ≤ N) }
        ensures same { IfSome result (λ b. b ≡ bytes.now) }
    {
        if bytes.len() > N {
            return None;
        }
        let mut buf = Buf::new();
        buf.push(bytes);
        Some(buf)
    }

    /// The bytes.
    #[inline(always)]
    pub fn as_slice(&self) -> &[u8]
        ensures same { result.now ≡ self.now }
        ensures fits { length result.now ≤ N }
    {
        &self.room[..self.len]
    }

    /// How many bytes there are.
    #[inline(always)]
    pub(crate) fn len(&self) -> usize
        ensures value { result ≡ length self.now }
        ensures fits { result ≤ N }
    {
        self.len
    }

    /// Takes all bytes out.
    #[inline(always)]
    pub(crate) fn clear(&mut self)
        ensures { self.new ≡ [] }
    {
        self.len = 0;
    }

    /// Puts bytes behind the others, where there is room for them.
    #[inline(always)]
    pub(crate) fn push(&mut self, bytes: &[u8])
        ensures { Adds N self.old self.new bytes.now }
    {
        if bytes.len() <= N - self.len {
            let end = self.len + bytes.len();
            let room = &mut self.room[..];
            room[self.len..end].copy_from_slice(bytes);
            self.len = end;
        }
    }
}
