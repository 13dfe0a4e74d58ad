ghost use Rattle.std.specs.Prelude.{◌≡◌, ◌<◌, ◌≤◌, ◌↔◌, [], ◌∷◌, ◌++◌, length, All, flat_map, IsOk, OnOk, OnErr};
ghost use Rattle.hm_packet.specs.Steps.{max_outs};
ghost use Rattle.hm_wire.specs.Packets.{spelling, HasSpelling};
ghost use Rattle.hm_codec.specs.Rows.{ends_from};

use crate::buf::Buf;
use crate::encode::push_packet;
use crate::laws::{row_is_short, row_tells_its_packets};
use arrayvec::ArrayVec;
use hm_packet::acted::MAX_OUTS;
use hm_packet::packet::Packet;
use hm_wire::laws::spelling_is_short;
use std::marker::Model;

/// How many bytes the longest spelling has.
pub const MAX_SPELLING_LEN: usize = 1533;

/// How many bytes the packets of one step have at most.
pub const MAX_OUTS_LEN: usize = MAX_OUTS * MAX_SPELLING_LEN;

/// The packets that a step sends, in order, at most [`MAX_OUTS`] of them, kept as their spellings. Contracts see the list of the
/// packets.
#[derive(Drop)]
pub struct Outs {
    spelled: Buf<MAX_OUTS_LEN>,
    ends: ArrayVec<u32, MAX_OUTS>,
}

/// The list has as many items as it may have.
#[derive(Clone, Copy, Debug, PartialEq, Eq)]
pub struct ListFull;

impl Model for Outs {
    ghost use Rattle.std.specs.Prelude.{List};
    ghost use Rattle.hm_packet.specs.Messages.{Message};
    ghost use Rattle.hm_codec.specs.Rows.{told_from, IsRow};

    ghost Value = { List Message };

    ghost view = { λ o. told_from 0 o.ends.items o.spelled };

    ghost invariant = { λ o. IsRow o.ends.items o.spelled (told_from 0 o.ends.items o.spelled) };
}

impl Outs {
    /// The empty list.
    pub fn new() -> Outs
        ensures { result ≡ [] }
    {
        Outs {
            spelled: Buf::new(),
            ends: ArrayVec::new(),
        }
    }

    /// Forgets all packets.
    #[inline(always)]
    pub fn clear(&mut self)
        ensures { self.new ≡ [] }
    {
        self.spelled.clear();
        self.ends.clear();
    }

    /// Puts a packet behind the others. Refused exactly where the list is full; then nothing changes.
    #[inline(always)]
    pub fn try_push(&mut self, packet: &Packet) -> Result<(), ListFull>
        ensures room { IsOk result ↔ (length self.old < max_outs) }
        ensures ok { OnOk result (self.new ≡ self.old ++ packet.now ∷ []) }
        ensures err { OnErr result (self.new ≡ self.old) }
    {
        if self.ends.is_full() {
            return Err(ListFull);
        }
        spelling_is_short();
        row_is_short();
        row_tells_its_packets();
        push_packet(packet, &mut self.spelled);
        self.ends.push(self.spelled.len() as u32);
        Ok(())
    }

    /// How many packets there are.
    pub fn len(&self) -> u32
        ensures value { result ≡ length self.now }
        ensures few { result ≤ max_outs }
    {
        self.ends.len() as u32
    }

    /// The packets' spellings, one behind the other.
    #[inline(always)]
    pub fn bytes(&self) -> &[u8]
        ensures value { result.now ≡ flat_map spelling self.now }
        ensures lawful { All HasSpelling self.now }
    {
        self.spelled.as_slice()
    }

    /// Where each packet's spelling ends among the bytes.
    #[inline(always)]
    pub fn ends(&self) -> &[u32]
        ensures { result.now ≡ ends_from 0 self.now }
    {
        self.ends.as_slice()
    }
}
