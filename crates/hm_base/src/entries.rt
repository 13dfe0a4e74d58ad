ghost use Rattle.hm_base.specs.Logs.{max_page_len};
ghost use Rattle.arrayvec.specs.ArrayVec.{array_vec_len};
ghost use Rattle.std.specs.Prelude.{◌≡◌, ◌<◌, ◌≤◌, ◌↔◌, [], ◌∷◌, ◌++◌, length, slice_get, ◌+◌, IsOk, OnOk, OnErr};

use crate::entry::Entry;
use arrayvec::ArrayVec;
use std::marker::Model;

/// How many entries a page has at most.
pub const MAX_PAGE_LEN: usize = 16;

/// Room for the entries of a page that is read off bytes, at most [`MAX_PAGE_LEN`] of them. Contracts see a list.
#[derive(Drop)]
pub struct PageRoom {
    list: ArrayVec<Entry, MAX_PAGE_LEN>,
}

/// The page has as many entries as it may have.
#[derive(Clone, Copy, Debug, PartialEq, Eq)]
pub struct PageFull;

impl Model for PageRoom {
    ghost use Rattle.std.specs.Prelude.{List};
    ghost use Rattle.hm_base.specs.declared.entry.Entry.{Entry};

    ghost Value = { List Entry };

    ghost view = { λ a. a.list.items };
}

impl PageRoom {
    /// The empty list.
    pub fn new() -> PageRoom
        ensures { result ≡ [] }
    {
        PageRoom {
            list: ArrayVec::new(),
        }
    }

    /// Puts an entry behind the others. Refused exactly where the page is full; then nothing changes.
    pub fn try_push(&mut self, entry: Entry) -> Result<(), PageFull>
        ensures room { IsOk result ↔ (length self.old < max_page_len) }
        ensures ok { OnOk result (self.new ≡ self.old ++ entry ∷ []) }
        ensures err { OnErr result (self.new ≡ self.old) }
    {
        if self.list.is_full() {
            return Err(PageFull);
        }
        let _act = entry.act;
        self.list.push(entry);
        Ok(())
    }

    /// Takes all entries out.
    pub fn clear(&mut self)
        ensures { self.new ≡ [] }
    {
        self.list.clear();
    }

    /// The page of these entries.
    pub fn entries(&self) -> Entries<'_>
        ensures { result ≡ self.now }
    {
        Entries {
            list: self.list.as_slice(),
        }
    }
}

/// The entries of a page, at most [`MAX_PAGE_LEN`] of them, where they lie: in a log or in a [`PageRoom`]. Contracts see a list.
#[derive(Drop)]
pub struct Entries<'a> {
    list: &'a [Entry],
}

impl<'a> Model for Entries<'a> {
    ghost use Rattle.std.specs.Prelude.{List, ◌≤◌, length};
    ghost use Rattle.hm_base.specs.declared.entry.Entry.{Entry};
    ghost use Rattle.hm_base.specs.Logs.{max_page_len};

    ghost Value = { List Entry };

    ghost view = { λ a. a.list.now };

    ghost invariant = { λ a. length a.list.now ≤ max_page_len };
}

impl<'a> Entries<'a> {
    /// The page of these entries.
    pub fn of(list: &'a [Entry]) -> Entries<'a>
        requires { length list.now ≤ max_page_len }
        ensures { result ≡ list.now }
    {
        Entries { list }
    }

    /// How many entries there are.
    pub fn len(&self) -> u32
        ensures { result ≡ length self.now }
    {
        self.list.len() as u32
    }

    /// The entry at a place, counted from 0. None exactly from `len()` on.
    pub fn get(&self, i: u32) -> Option<Entry>
        ensures { result ≡ slice_get self.now i }
    {
        self.list.get(i as usize).copied()
    }

    /// The entries.
    pub fn as_slice(&self) -> &'a [Entry]
        ensures same { result.now ≡ self.now }
        ensures fits { length result.now ≤ max_page_len }
    {
        self.list
    }

    /// An equal page.
    pub fn copy(&self) -> Entries<'a>
        ensures { result ≡ self.now }
    {
        Entries { list: self.list }
    }
}
