ghost use Rattle.std.specs.Prelude.{◌≡◌, ◌<◌, ◌≤◌, ◌+◌, ◌*◌, ◌^◌, [], ◌∷◌, ◌++◌, length, map, All, slice_get, slice_index, vec_len, vec_capacity, Some, None, if◌then◌else◌, OnOk, OnErr};
ghost use Rattle.std.specs.Option.{option_copied, option_map};
ghost use Rattle.hm_packet.specs.Steps.{max_outs};
ghost use Rattle.hm_wire.specs.Packets.{HasSpelling, spelling, max_spelling_len};
ghost use Rattle.hm_codec.specs.Spelled.{max_spellings};

use crate::buf::Buf;
use crate::decode::decode;
use crate::encode::push_packet;
use crate::laws::{row_is_short, row_tells_its_packets};
use crate::outs::{MAX_OUTS_LEN, MAX_SPELLING_LEN, Outs};
use hm_base::entries::PageRoom;
use hm_base::memory::NoMemory;
use hm_packet::acted::MAX_OUTS;
use hm_packet::packet::Packet;
use hm_wire::laws::{spelling_has_no_fault, spelling_is_short, spelling_tells_the_packet};
use std::alloc::Global;
use std::marker::Model;

/// How many packets may be kept as spellings at most, so that 32 bits tell where each ends.
pub const MAX_SPELLINGS: u32 = 2_097_152;

/// How many bytes are taken at first.
const FIRST_LEN: usize = 1 << 20;

/// Packets, kept as their spellings in memory that grows. Contracts see the packets, and how many there may be before room is made
/// again.
#[derive(Drop)]
pub struct Spellings {
    bytes: Vec<u8>,
    ends: Vec<u32>,
    limit: u32,
    one: Buf<MAX_SPELLING_LEN>,
}

impl Model for Spellings {
    ghost use Rattle.hm_codec.specs.Spelled.{Spelled, spelled_of, IsKept};

    ghost Value = { Spelled };

    ghost view = { spelled_of };

    ghost invariant = { IsKept };
}

impl Spellings {
    /// No packets. It takes no memory.
    pub fn new(alloc: Global) -> Spellings
        ensures { result ≡ record { packets = []; limit = 0 } }
    {
        Spellings {
            bytes: Vec::new(alloc),
            ends: Vec::new(alloc),
            limit: 0,
            one: Buf::new(),
        }
    }

    /// How many packets there are.
    #[inline(always)]
    pub fn len(&self) -> u32
        ensures count { result ≡ length self.now.packets }
        ensures within { result ≤ self.now.limit }
    {
        self.ends.len() as u32
    }

    /// Makes room for the packets of one step.
    #[inline(always)]
    pub fn reserve(&mut self) -> Result<(), NoMemory>
        requires { self.old.limit + max_outs ≤ max_spellings }
        ensures within { length self.old.packets ≤ self.old.limit }
        ensures ok { OnOk result (self.new ≡ record self.old { limit = length self.old.packets + max_outs }) }
        ensures err { OnErr result (self.new ≡ self.old) }
    {
        row_is_short();
        make_room(&mut self.bytes)?;
        self.ends.reserve(MAX_OUTS)?;
        self.limit = self.ends.len() as u32 + MAX_OUTS as u32;
        Ok(())
    }

    /// Puts a packet behind the others.
    pub fn push(&mut self, packet: &Packet)
        requires { length self.old.packets < self.old.limit }
        ensures { self.new ≡ record self.old { packets = self.old.packets ++ packet.now ∷ [] } }
    {
        spelling_is_short();
        row_is_short();
        row_tells_its_packets();
        self.one.clear();
        push_packet(packet, &mut self.one);
        append(&mut self.bytes, self.one.as_slice());
        append_end(&mut self.ends, self.bytes.len() as u32);
    }

    /// Puts a step's packets behind the others, in order.
    pub fn push_all(&mut self, outs: &Outs)
        requires { length self.old.packets + length outs.now ≤ self.old.limit }
        ensures { self.new ≡ record self.old { packets = self.old.packets ++ outs.now } }
    {
        row_is_short();
        row_tells_its_packets();
        let base = self.bytes.len() as u32;
        append(&mut self.bytes, outs.bytes());
        append_ends(&mut self.ends, base, outs.ends());
    }

    /// The spelling of the packet at a place, counted from 0. None exactly from `len()` on.
    #[inline(always)]
    pub fn get(&self, place: u32) -> Option<&[u8]>
        ensures spelled { option_copied result ≡ option_map spelling (slice_get self.now.packets place) }
        ensures lawful { All HasSpelling self.now.packets }
    {
        let place = place as usize;
        if place >= self.ends.len() {
            return None;
        }
        let first = begin_of(self.ends.as_slice(), place);
        Some(&self.bytes[first as usize..self.ends[place] as usize])
    }

    /// Reads the packet at a place, counted from 0, into its place, and its page, if it has one, into the room. False exactly from
    /// `len()` on.
    #[inline(always)]
    pub fn read<'a>(&self, place: u32, room: &'a mut PageRoom, packet: &mut Packet<'a>) -> bool
        ensures { (if result then Some packet.new else None) ≡ slice_get self.now.packets place }
    {
        let _bytes = &self.bytes;
        spelling_has_no_fault();
        spelling_tells_the_packet();
        match self.get(place) {
            Some(bytes) => decode(bytes, room, packet).is_ok(),
            None => false,
        }
    }
}

/// Makes room for the bytes of one step.
#[inline(always)]
fn make_room(bytes: &mut Vec<u8>) -> Result<(), NoMemory>
    requires { vec_len bytes.old < 2 ^ 32 }
    ensures items { bytes.new.items ≡ bytes.old.items }
    ensures ok { OnOk result (vec_len bytes.new + max_outs * max_spelling_len ≤ vec_capacity bytes.new) }
    ensures capacity { vec_capacity bytes.old ≤ vec_capacity bytes.new }
{
    if bytes.capacity() - bytes.len() < MAX_OUTS_LEN {
        bytes.reserve((4 * bytes.len()).max(FIRST_LEN))?;
    }
    Ok(())
}

/// Where the packet at a place begins.
#[inline(always)]
fn begin_of(ends: &[u32], place: usize) -> u32
    requires { place < length ends.now }
    ensures { result ≡ slice_index (0 ∷ ends.now) place }
{
    if place == 0 { 0 } else { ends[place - 1] }
}

/// Appends bytes, into room that is there.
#[inline(always)]
fn append(bytes: &mut Vec<u8>, more: &[u8])
    requires { vec_len bytes.old + length more.now ≤ vec_capacity bytes.old }
    ensures items { bytes.new.items ≡ bytes.old.items ++ more.now }
    ensures room { vec_capacity bytes.old ≤ vec_capacity bytes.new }
{
    let added: Result<_, _> = bytes.extend_from_slice(more);
    added.unwrap();
}

/// Appends an end, into room that is there.
#[inline(always)]
fn append_end(ends: &mut Vec<u32>, end: u32)
    requires { vec_len ends.old < vec_capacity ends.old }
    ensures items { ends.new.items ≡ ends.old.items ++ end ∷ [] }
    ensures room { vec_capacity ends.old ≤ vec_capacity ends.new }
{
    let added: Result<_, _> = ends.push(end);
    added.unwrap();
}

/// Appends the ends of a row that begins at a base, into room that is there.
fn append_ends(ends: &mut Vec<u32>, base: u32, more: &[u32])
    requires room { vec_len ends.old + length more.now ≤ vec_capacity ends.old }
    requires small { All (λ e. base + e < 2 ^ 32) more.now }
    ensures items { ends.new.items ≡ ends.old.items ++ map (λ e. base + e) more.now }
    ensures room { vec_capacity ends.old ≤ vec_capacity ends.new }
{
    for end in more {
        append_end(ends, base + *end);
    }
}
