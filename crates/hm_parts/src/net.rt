ghost use Rattle.std.specs.Prelude.{◌≡◌, ◌<◌, ◌≤◌, ◌+◌, ◌++◌, ◌∷◌, [], length, slice_get, Some, None, All, if◌then◌else◌, OnOk, OnErr};
ghost use Rattle.std.specs.Option.{option_copied, option_map};
ghost use Rattle.hm_packet.specs.Steps.{max_outs};
ghost use Rattle.hm_schedule.specs.Limits.{max_packets};
ghost use Rattle.hm_wire.specs.Packets.{spelling, HasSpelling};

use hm_base::entries::PageRoom;
use hm_base::memory::NoMemory;
use hm_codec::outs::Outs;
use hm_codec::spellings::Spellings;
use hm_packet::packet::Packet;
use std::alloc::Global;
use std::marker::Model;

/// Every packet ever sent, and how many of them the cursor has passed. Contracts see the packets, the cursor, and how many
/// packets there may be before room is made again.
#[derive(Drop)]
pub struct Net {
    packets: Spellings,
    cursor: u32,
}

impl Model for Net {
    ghost use Rattle.hm_parts.specs.Seen.{Posted};

    ghost Value = { Posted };

    ghost use Rattle.hm_parts.specs.NetFields.{posted_of, IsKept};

    ghost view = { posted_of };

    ghost invariant = { IsKept };
}

impl Net {
    /// The net before the first packet. It takes no memory.
    pub fn new(alloc: Global) -> Net
        ensures { result ≡ record { packets = []; cursor = 0; limit = 0 } }
    {
        Net {
            packets: Spellings::new(alloc),
            cursor: 0,
        }
    }

    /// How many packets were sent.
    #[inline(always)]
    pub fn len(&self) -> u32
        ensures count { result ≡ length self.now.packets }
        ensures few { result ≤ max_packets }
        ensures within { result ≤ self.now.limit }
    {
        self.packets.len()
    }

    /// The spelling of the packet at a place, counted from 0. None exactly from `len()` on.
    #[inline(always)]
    pub fn at(&self, place: u32) -> Option<&[u8]>
        ensures spelled { option_copied result ≡ option_map spelling (slice_get self.now.packets place) }
        ensures lawful { All HasSpelling self.now.packets }
    {
        self.packets.get(place)
    }

    /// Reads the packet at a place, counted from 0, into its place, and its page, if it has one, into the room. False exactly from
    /// `len()` on.
    #[inline(never)]
    pub fn read<'a>(&self, place: u32, room: &'a mut PageRoom, packet: &mut Packet<'a>) -> bool
        ensures { (if result then Some packet.new else None) ≡ slice_get self.now.packets place }
    {
        self.packets.read(place, room, packet)
    }

    /// How many packets the cursor has passed.
    #[inline(always)]
    pub fn cursor(&self) -> u32
        ensures { result ≡ self.now.cursor }
    {
        self.cursor
    }

    /// The cursor passes over a packet.
    #[inline(always)]
    pub fn pass(&mut self)
        requires { self.old.cursor < length self.old.packets }
        ensures { self.new ≡ record self.old { cursor = self.old.cursor + 1 } }
    {
        let _count = self.packets.len();
        self.cursor += 1;
    }

    /// Makes room for the packets of one step.
    #[inline(always)]
    pub fn reserve(&mut self) -> Result<(), NoMemory>
        requires { self.old.limit + max_outs ≤ max_packets }
        ensures within { length self.old.packets ≤ self.old.limit }
        ensures ok { OnOk result (self.new ≡ record self.old { limit = length self.old.packets + max_outs }) }
        ensures err { OnErr result (self.new ≡ self.old) }
    {
        self.packets.reserve()
    }

    /// Puts a packet behind the others.
    pub fn post(&mut self, packet: &Packet)
        requires { length self.old.packets < self.old.limit }
        ensures { self.new ≡ record self.old { packets = self.old.packets ++ packet.now ∷ [] } }
    {
        self.packets.push(packet);
    }

    /// Puts packets behind the others, in order.
    pub fn post_all(&mut self, outs: &Outs)
        requires { length self.old.packets + length outs.now ≤ self.old.limit }
        ensures { self.new ≡ record self.old { packets = self.old.packets ++ outs.now } }
    {
        self.packets.push_all(outs);
    }
}
