ghost use Rattle.std.specs.Prelude.{◌≡◌, ◌<◌, ◌≤◌, ◌↔◌, ◌⊎◌, ◌++◌, [], Some, Contains, IsErr, IfOk, length, take, drop, min};
ghost use Rattle.hm_outside.specs.Faults.{Counts, one_more};
ghost use Rattle.hm_frame.specs.Links.{IsWithin, TakesNext, CountsTaken, Keeps, Sends, max_datagram_len};
ghost use Rattle.hm_frame.specs.Wires.{GivesItem};

use crate::datagram::{Item, Posted, Taken};
use crate::link::Link;
use hm_base::memory::NoMemory;
use hm_base::node::Node;
use hm_codec::buf::Buf;
use hm_outside::device::Failed;
use std::alloc::Global;
use std::marker::Model;

/// Copies as much of the bytes as the buffer has room for to its front, and answers how many.
pub(crate) fn copy_front(bytes: &[u8], buf: &mut [u8]) -> usize
    ensures count { result ≡ min (length bytes.now) (length buf.old) }
    ensures copied { buf.new ≡ take result bytes.now ++ drop result buf.old }
{
    let count = bytes.len().min(buf.len());
    buf[..count].copy_from_slice(&bytes[..count]);
    count
}

/// Copies what comes into the buffer, and answers what it is.
pub(crate) fn give(item: &Item, buf: &mut [u8]) -> Taken
    ensures { GivesItem result item.now buf.new }
{
    match item {
        Item::Datagram(bytes) => Taken::Datagram(copy_front(bytes.as_slice(), buf)),
        Item::Quiet => Taken::Quiet,
    }
}

/// A link in memory, whose calls with the listed numbers fail, counted from 1 over all calls. A datagram past its room, or of
/// more bytes than a datagram has, is a fault, too. After the last item it is ended. Contracts see a [`Wire`].
#[derive(Drop)]
pub struct MemoryLink {
    coming: Vec<Item>,
    at: usize,
    sent: Vec<Posted>,
    room: u32,
    fails: Vec<u64>,
    calls: u64,
    faults: u64,
}

impl Model for MemoryLink {
    ghost use Rattle.std.specs.Prelude.{◌≤◌, drop, length, vec_capacity};
    ghost use Rattle.hm_frame.specs.Wires.{Wire};

    ghost Value = { Wire };

    ghost view = { λ s. record { coming = drop s.at s.coming.items; sent = s.sent.items; room = s.room; fails = s.fails.items; calls = s.calls; faults = s.faults } };

    ghost invariant = { λ s. (s.at ≤ length s.coming.items) × (length s.sent.items ≤ s.room) × (s.room ≤ vec_capacity s.sent) };
}

impl MemoryLink {
    /// The link to which these items come, with room for so many datagrams sent.
    pub fn open(
        alloc: Global,
        coming: Vec<Item>,
        room: u32,
        fails: Vec<u64>,
    ) -> Result<MemoryLink, NoMemory>
        ensures { IfOk result (λ link. link ≡ record { coming = coming.items; sent = []; room = room; fails = fails.items; calls = 0; faults = 0 }) }
    {
        let sent = Vec::with_capacity(alloc, room as usize)?;
        Ok(MemoryLink {
            coming,
            at: 0,
            sent,
            room,
            fails,
            calls: 0,
            faults: 0,
        })
    }

    /// What was sent.
    pub fn sent(&self) -> &[Posted]
        ensures { result.now ≡ self.now.sent }
    {
        self.sent.as_slice()
    }
}

impl Link for MemoryLink {
    ghost coming = { λ s. Some s.coming };

    ghost sent = { λ s. Some s.sent };

    ghost faults = { λ s. s.faults };

    fn take(&mut self, buf: &mut [u8]) -> Taken
        ensures bound { IsWithin result (length buf.new) }
        ensures next { TakesNext result buf.new (Some self.old.coming) (Some self.new.coming) }
        ensures unsent { Keeps (Some self.old.sent) (Some self.new.sent) }
        ensures counted { CountsTaken result self.old.faults self.new.faults }
        ensures calls { self.new.calls ≡ one_more self.old.calls }
        ensures fails { self.new.fails ≡ self.old.fails }
        ensures room { self.new.room ≡ self.old.room }
        ensures listed { (result ≡ Taken.Failed) ↔ Contains self.old.fails (one_more self.old.calls) }
    {
        self.calls = self.calls.saturating_add(1);
        if self.fails.contains(&self.calls) {
            self.faults = self.faults.saturating_add(1);
            return Taken::Failed;
        }
        match self.coming.get(self.at) {
            Some(item) => {
                self.at += 1;
                give(item, buf)
            }
            None => Taken::Ended,
        }
    }

    fn send(&mut self, dst: Node, bytes: &[u8]) -> Result<(), Failed>
        ensures sent { Sends result dst bytes.now (Some self.old.sent) (Some self.new.sent) }
        ensures untaken { Keeps (Some self.old.coming) (Some self.new.coming) }
        ensures counted { Counts self.old.faults self.new.faults result }
        ensures calls { self.new.calls ≡ one_more self.old.calls }
        ensures fails { self.new.fails ≡ self.old.fails }
        ensures room { self.new.room ≡ self.old.room }
        ensures listed { IsErr result ↔ ((Contains self.old.fails (one_more self.old.calls)) ⊎ (self.old.room ≤ length self.old.sent) ⊎ (max_datagram_len < length bytes.now)) }
    {
        self.calls = self.calls.saturating_add(1);
        let fails = self.fails.contains(&self.calls) || self.sent.len() >= self.room as usize;
        match Buf::from_slice(bytes) {
            Some(bytes) if !fails => {
                let pushed: Result<_, _> = self.sent.push(Posted { dst, bytes });
                pushed.unwrap();
                Ok(())
            }
            _ => {
                self.faults = self.faults.saturating_add(1);
                Err(Failed)
            }
        }
    }
}
