ghost use Rattle.std.specs.Prelude.{◌≡◌, ◌<◌, ◌≤◌, ◌+◌, [], ◌∷◌, ◌++◌, length, IfOk, vec_len, vec_capacity};
ghost use Rattle.hm_store.specs.Log.{max_log_len};

use hm_base::entry::Entry;
use hm_base::memory::NoMemory;
use std::alloc::Global;
use std::marker::Model;

/// The entries that are to stand behind a log's applied prefix once all of them are there. All memory is taken at opening.
/// Contracts see the list of the entries and the capacity.
#[derive(Drop)]
pub struct Staged {
    entries: Vec<Entry>,
    cap: u32,
}

impl Model for Staged {
    ghost use Rattle.std.specs.Prelude.{◌≤◌, length, vec_capacity};
    ghost use Rattle.hm_store.specs.Log.{Behind, max_log_len};

    ghost Value = { Behind };

    ghost view = { λ s. record { entries = s.entries.items; cap = s.cap } };

    ghost invariant = { λ s. (length s.entries.items ≤ s.cap) × (s.cap ≤ vec_capacity s.entries) × (s.cap ≤ max_log_len) };
}

impl Staged {
    /// The empty list, with room for `cap` entries.
    pub fn open(alloc: Global, cap: u32) -> Result<Staged, NoMemory>
        requires { cap ≤ max_log_len }
        ensures { IfOk result (λ s. s ≡ record { entries = []; cap = cap }) }
    {
        Ok(Staged {
            entries: Vec::with_capacity(alloc, cap as usize)?,
            cap,
        })
    }

    /// How many entries there are.
    pub fn len(&self) -> u32
        ensures { result ≡ length self.now.entries }
    {
        self.entries.len() as u32
    }

    /// The entries.
    pub fn as_slice(&self) -> &[Entry]
        ensures { result.now ≡ self.now.entries }
    {
        &self.entries
    }

    /// Takes all entries out.
    pub fn clear(&mut self)
        ensures { self.new ≡ record self.old { entries = [] } }
    {
        self.entries.clear();
    }

    /// Puts entries behind the others.
    pub fn extend(&mut self, entries: &[Entry])
        requires { length self.old.entries + length entries.now ≤ self.old.cap }
        ensures { self.new ≡ record self.old { entries = self.old.entries ++ entries.now } }
    {
        let copied: Result<_, _> = self.entries.extend_from_slice(entries);
        copied.unwrap();
    }
}
