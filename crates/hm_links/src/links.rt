ghost use Rattle.std.specs.Prelude.{◌≡◌, ◌<◌, ◌≤◌, ℕ, [], ◌∷◌, ◌++◌, true, false, length, slice_index, slice_get, IfOk};
ghost use Rattle.hm_links.specs.Linked.{is_linked, others};

use hm_base::memory::NoMemory;
use std::alloc::Global;
use std::marker::Model;

/// The greatest number of cells that a list may be threaded through.
pub const MAX_CELLS: u32 = 16_384;

/// A doubly linked list of distinct indices below `cells`. All memory is taken at opening, and each call takes the same
/// few steps whatever the list's length. Contracts see the list, front first.
///
/// The array has one cell more than there are indices: from this last cell the list is closed to a ring, and an index
/// outside the list leads to itself.
#[derive(Drop)]
pub struct Links {
    next: Vec<u32>,
    previous: Vec<u32>,
    cells: u32,
}

impl Model for Links {
    ghost use Rattle.hm_links.specs.Linked.{Linked};

    ghost Value = { Linked };

    ghost use Rattle.hm_links.specs.Ring.{linked_of, IsSound};

    ghost view = { linked_of };

    ghost invariant = { IsSound };
}

impl Links {
    /// The empty list.
    pub fn open(alloc: Global, cells: u32) -> Result<Links, NoMemory>
        requires { cells ≤ MAX_CELLS }
        ensures items { IfOk result (λ l. l.items ≡ []) }
        ensures cells { IfOk result (λ l. l.cells ≡ cells) }
    {
        Ok(Links {
            next: own_loops(alloc, cells + 1)?,
            previous: own_loops(alloc, cells + 1)?,
            cells,
        })
    }

    /// Whether the index is in the list.
    pub fn contains(&self, i: u32) -> bool
        requires { i < self.now.cells }
        ensures { result ≡ is_linked i self.now.items }
    {
        self.next[i as usize] != i
    }

    /// The first index of the list. None exactly where it is empty.
    pub fn front(&self) -> Option<u32>
        ensures { result ≡ slice_get self.now.items 0 }
    {
        let first = self.next[self.cells as usize];
        if first == self.cells {
            None
        } else {
            Some(first)
        }
    }

    /// Puts an index behind the others.
    pub fn push_back(&mut self, i: u32)
        requires within { i < self.old.cells }
        requires apart { is_linked i self.old.items ≡ false }
        ensures items { self.new.items ≡ self.old.items ++ i ∷ [] }
        ensures cells { self.new.cells ≡ self.old.cells }
    {
        let end = self.cells;
        let last = self.previous[end as usize];
        self.next[last as usize] = i;
        self.next[i as usize] = end;
        self.previous[end as usize] = i;
        self.previous[i as usize] = last;
    }

    /// Takes an index out of the list. The order of the others stays.
    pub fn unlink(&mut self, i: u32)
        requires { is_linked i self.old.items ≡ true }
        ensures items { self.new.items ≡ others i self.old.items }
        ensures cells { self.new.cells ≡ self.old.cells }
    {
        let before = self.previous[i as usize];
        let after = self.next[i as usize];
        self.next[before as usize] = after;
        self.previous[after as usize] = before;
        self.next[i as usize] = i;
    }
}

/// Cells that each lead to itself.
fn own_loops(alloc: Global, count: u32) -> Result<Vec<u32>, NoMemory>
    ensures count { IfOk result (λ v. length v.items ≡ count) }
    ensures loops { IfOk result (λ v. (k : ℕ) → k < count → slice_index v.items k ≡ k) }
{
    let mut cells = Vec::with_capacity(alloc, count as usize)?;
    for i in 0..count {
        cells.push(i)?;
    }
    Ok(cells)
}
