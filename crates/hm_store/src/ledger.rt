ghost use Rattle.std.specs.Prelude.{◌≡◌, ◌<◌, ◌≤◌, ◌↔◌, [], ◌∷◌, ◌++◌, length, slice_get, IsOk, IsTrue, IfOk, OnOk, OnErr, vec_len, vec_capacity, None, drop, take};
ghost use Rattle.hm_base.specs.Lists.{IsPrefix};
ghost use Rattle.hm_base.specs.Logs.{last_write, written, end_stamp, page};
ghost use Rattle.hm_store.specs.Indexed.{written_object};
ghost use Rattle.hm_store.specs.Log.{applied_entries, last_stamp, max_log_len};

use crate::last_places::LastPlaces;
use hm_base::entries::{Entries, MAX_PAGE_LEN};
use hm_base::entry::{Act, Entry};
use hm_base::memory::NoMemory;
use hm_base::stamp::Stamp;
use hm_base::value::Value;
use std::alloc::Global;
use std::marker::Model;

/// The greatest number of entries that a log may have.
pub const MAX_LOG_LEN: u32 = 16_384;

/// A replicated log, the length of its applied prefix, and the last write of each object in both. All memory is taken at
/// opening. Contracts see the list of its entries, the applied length and the capacity.
#[derive(Drop)]
pub struct Ledger {
    entries: Vec<Entry>,
    applied_len: u32,
    cap: u32,
    /// The object that each entry writes, at the entry's place.
    writes: LastPlaces,
}

/// The log has as many entries as it may have.
#[derive(Clone, Copy, Debug, PartialEq, Eq)]
pub struct LogFull;

impl Model for Ledger {
    ghost use Rattle.hm_store.specs.Log.{Log};

    ghost Value = { Log };

    ghost use Rattle.hm_store.specs.Indexed.{log_of, IsIndexed};

    ghost view = { log_of };

    ghost invariant = { IsIndexed };
}

impl Ledger {
    /// The empty log, with room for `cap` entries.
    pub fn open(alloc: Global, cap: u32) -> Result<Ledger, NoMemory>
        requires { cap ≤ max_log_len }
        ensures { IfOk result (λ l. (l.entries ≡ []) × (l.applied ≡ 0) × (l.cap ≡ cap)) }
    {
        Ok(Ledger {
            entries: Vec::with_capacity(alloc, cap as usize)?,
            applied_len: 0,
            cap,
            writes: LastPlaces::open(alloc, cap)?,
        })
    }

    /// How many entries the log has.
    pub fn len(&self) -> u32
        ensures len { result ≡ length self.now.entries }
        ensures within { result ≤ self.now.cap }
        ensures applied { self.now.applied ≤ result }
    {
        self.entries.len() as u32
    }

    /// How many entries the log may have.
    pub fn cap(&self) -> u32
        ensures { result ≡ self.now.cap }
    {
        self.cap
    }

    /// Whether the log has no entry.
    pub fn is_empty(&self) -> bool
        ensures { IsTrue result ↔ (self.now.entries ≡ []) }
    {
        self.entries.is_empty()
    }

    /// How many of its first entries are applied.
    pub fn applied_len(&self) -> u32
        ensures len { result ≡ self.now.applied }
        ensures within { result ≤ length self.now.entries }
    {
        self.applied_len
    }

    /// Puts an entry behind the others. LogFull exactly at `cap` entries; then nothing changes.
    pub fn push(&mut self, entry: Entry) -> Result<(), LogFull>
        ensures room { IsOk result ↔ (length self.old.entries < self.old.cap) }
        ensures ok { OnOk result (self.new ≡ record self.old { entries = self.old.entries ++ entry ∷ [] }) }
        ensures err { OnErr result (self.new ≡ self.old) }
    {
        if self.entries.len() >= self.cap as usize {
            return Err(LogFull);
        }
        self.writes.push(written_object(&entry));
        put(&mut self.entries, entry);
        Ok(())
    }

    /// Applies the log up to `k` entries.
    pub fn apply_to(&mut self, k: u32)
        requires rises { self.old.applied ≤ k }
        requires within { k ≤ length self.old.entries }
        ensures { self.new ≡ record self.old { applied = k } }
    {
        self.applied_len = k;
    }

    /// Keeps the first `k` entries, all of the applied ones among them.
    pub fn truncate(&mut self, k: u32)
        requires applied { self.old.applied ≤ k }
        requires within { k ≤ length self.old.entries }
        ensures { self.new ≡ record self.old { entries = take k self.old.entries } }
    {
        self.entries.truncate(k as usize);
        self.writes.truncate(k);
    }

    /// The stamp and value of the object's last write in the log. None exactly where it has none.
    pub fn latest(&self, object: u32) -> Option<(Stamp, Value)>
        ensures { result ≡ last_write self.now.entries object }
    {
        self.latest_below(object, self.entries.len() as u32)
    }

    /// The same in the applied prefix.
    pub fn applied(&self, object: u32) -> Option<(Stamp, Value)>
        ensures { result ≡ last_write (applied_entries self.now) object }
    {
        self.latest_below(object, self.applied_len)
    }

    /// The same in the first `end` entries.
    fn latest_below(&self, object: u32, end: u32) -> Option<(Stamp, Value)>
        requires { end ≤ length self.now.entries }
        ensures { result ≡ last_write (take end self.now.entries) object }
    {
        match self.writes.last_below(object, end) {
            Some(i) => write_of(&self.entries[i as usize]),
            None => None,
        }
    }

    /// The entry at a place, counted from 0. None exactly from `len()` on.
    pub fn entry(&self, i: u32) -> Option<Entry>
        ensures { result ≡ slice_get self.now.entries i }
    {
        self.entries.get(i as usize).copied()
    }

    /// The page of the log from a place on, empty from `len()` on.
    pub fn page(&self, from: u32) -> Entries<'_>
        ensures { result ≡ page self.now.entries from }
    {
        let end = self.entries.len();
        let first = end.min(from as usize);
        let last = end.min(first + MAX_PAGE_LEN);
        Entries::of(&self.entries[first..last])
    }

    /// The entries from one place up to another.
    pub fn entries(&self, from: u32, to: u32) -> &[Entry]
        requires rises { from ≤ to }
        requires within { to ≤ length self.now.entries }
        ensures { result.now ≡ drop from (take to self.now.entries) }
    {
        &self.entries[from as usize..to as usize]
    }

    /// The last applied entry's stamp. None exactly where none is applied.
    pub fn last_applied(&self) -> Option<Stamp>
        ensures { result ≡ last_stamp (applied_entries self.now) }
    {
        last_stamp_of(&self.entries[..self.applied_len as usize])
    }

    /// The last entry's stamp, 0.0 for an empty log.
    pub fn last(&self) -> Stamp
        ensures { result ≡ end_stamp self.now.entries }
    {
        match self.entries.last() {
            Some(entry) => entry.stamp,
            None => Stamp::LEAST,
        }
    }
}

/// Puts an entry into room that is there.
fn put(entries: &mut Vec<Entry>, entry: Entry)
    requires { vec_len entries.old < vec_capacity entries.old }
    ensures items { entries.new.items ≡ entries.old.items ++ entry ∷ [] }
    ensures room { vec_capacity entries.old ≤ vec_capacity entries.new }
{
    let _act = entry.act;
    entries.push_reserved(entry);
}

/// The object that an entry writes. None exactly for a logged read.
fn written_object(entry: &Entry) -> Option<u32>
    ensures { result ≡ written_object entry.now }
{
    if entry.is_write() {
        Some(entry.object)
    } else {
        None
    }
}

/// The stamp and value of a write. None exactly for a logged read.
fn write_of(entry: &Entry) -> Option<(Stamp, Value)>
    ensures { result ≡ written None entry.now.stamp entry.now.act }
{
    match &entry.act {
        Act::Put(value) => Some((entry.stamp, *value)),
        Act::Look => None,
    }
}

/// The stamp of the last of some entries, if there are any.
fn last_stamp_of(entries: &[Entry]) -> Option<Stamp>
    ensures { result ≡ last_stamp entries.now }
{
    match entries.last() {
        Some(entry) => Some(entry.stamp),
        None => None,
    }
}
