ghost use Rattle.std.specs.Prelude.{◌≡◌, ◌<◌, ◌≤◌, ◌↔◌, [], ◌∷◌, ◌++◌, length, slice_get, IsOk, IsSome, IfSome, OnOk, OnErr};
ghost use Rattle.hm_base.specs.Rising.{IsMembers, CanFollow};

use arrayvec::ArrayVec;
use std::marker::Model;

/// How many replicas a group has at most: their numbers are 0 to 6.
pub const MAX_REPLICAS: usize = 7;

/// The members of a group: one to seven replica numbers of at most 6, in strictly rising order. Contracts see a list.
#[derive(Drop)]
pub struct Members {
    list: ArrayVec<u8, MAX_REPLICAS>,
}

/// The replica is above 6, or not above the last one.
#[derive(Clone, Copy, Debug, PartialEq, Eq)]
pub struct NotRising;

impl Model for Members {
    ghost use Rattle.std.specs.Prelude.{List, ℕ};
    ghost use Rattle.hm_base.specs.Rising.{IsMembers};

    ghost Value = { List ℕ };

    ghost view = { λ a. a.list.items };

    ghost invariant = { λ a. IsMembers a.list.items };
}

impl Members {
    /// The list of one replica. None exactly above 6.
    pub fn first(replica: u8) -> Option<Members>
        ensures some { IsSome result ↔ (replica ≤ 6) }
        ensures value { IfSome result (λ m. m ≡ replica ∷ []) }
    {
        if replica > 6 {
            return None;
        }
        let mut list = ArrayVec::new();
        list.push(replica);
        Some(Members { list })
    }

    /// How many members there are, 1 to 7.
    pub fn len(&self) -> u32
        ensures len { result ≡ length self.now }
        ensures lawful { IsMembers self.now }
    {
        self.list.len() as u32
    }

    /// The replica at a place, counted from 0. None exactly from `len()` on.
    pub fn get(&self, i: u32) -> Option<u8>
        ensures item { result ≡ slice_get self.now i }
        ensures within { IfSome result (λ m. m ≤ 6) }
    {
        self.list.as_slice().get(i as usize).copied()
    }

    /// The replicas.
    pub fn as_slice(&self) -> &[u8]
        ensures same { result.now ≡ self.now }
        ensures lawful { IsMembers result.now }
    {
        self.list.as_slice()
    }

    /// Puts a replica behind the others. Refused exactly above 6 or where it isn't above the last one; then nothing changes.
    pub fn try_push(&mut self, replica: u8) -> Result<(), NotRising>
        ensures ok { OnOk result (self.new ≡ self.old ++ replica ∷ []) }
        ensures err { OnErr result (self.new ≡ self.old) }
        ensures fits { IsOk result ↔ CanFollow self.old replica }
    {
        let last = self.list[self.list.len() - 1];
        if replica > 6 || replica <= last {
            return Err(NotRising);
        }
        self.list.push(replica);
        Ok(())
    }

    /// An equal list.
    pub fn copy(&self) -> Members
        ensures { result ≡ self.now }
    {
        let mut list = ArrayVec::new();
        let _ = list.try_extend_from_slice(self.list.as_slice());
        Members { list }
    }
}
