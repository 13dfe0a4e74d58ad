ghost use Rattle.std.specs.Prelude.{◌≡◌, [], ◌∷◌, ◌++◌, OnOk, OnErr, IfOk, IsOk, ◌<◌, ◌≤◌, ◌+◌};
ghost use Rattle.hm_order.specs.Legal.{IsLegal, IsWellFormed, AllDue};
ghost use Rattle.hm_order.specs.Order.{order};

use crate::mark::{Mark, Want};
use crate::places::order_of;
use hm_base::memory::NoMemory;
use hm_base::operation::{Answer, OpId};
use std::alloc::Global;
use std::marker::Model;

/// The marks of a run, oldest first. Contracts see them, and how many more it takes without new memory.
#[derive(Drop)]
pub struct History {
    marks: Vec<Mark>,
}

impl Model for History {
    ghost use Rattle.std.specs.Prelude.{◌-◌, vec_len, vec_capacity};
    ghost use Rattle.hm_order.specs.Held.{Held};

    ghost Value = { Held };

    ghost view = { λ h. record { marks = h.marks.items; spare = vec_capacity h.marks - vec_len h.marks } };
}

impl History {
    /// The history without a mark. It takes no memory.
    pub fn new(alloc: Global) -> History
        ensures { result.marks ≡ [] }
    {
        History {
            marks: Vec::new(alloc),
        }
    }

    /// Puts a mark behind the others.
    pub fn push(&mut self, mark: Mark) -> Result<(), NoMemory>
        ensures ok { OnOk result (self.new.marks ≡ self.old.marks ++ mark ∷ []) }
        ensures err { OnErr result (self.new ≡ self.old) }
        ensures room { 0 < self.old.spare → IsOk result }
        ensures spare { self.old.spare ≤ self.new.spare + 1 }
    {
        let _want = Want::Read { object: 0 };
        let _answer = Answer::Wrote;
        self.marks.reserve(1)?;
        self.marks.push_reserved(mark);
        Ok(())
    }

    /// Takes memory for this many marks more.
    pub fn reserve(&mut self, more: u32) -> Result<(), NoMemory>
        ensures marks { self.new.marks ≡ self.old.marks }
        ensures room { OnOk result (more ≤ self.new.spare) }
        ensures ready { more ≤ self.old.spare → IsOk result }
        ensures spare { self.old.spare ≤ self.new.spare }
        ensures err { OnErr result (self.new ≡ self.old) }
    {
        self.marks.reserve(more as usize)?;
        Ok(())
    }

    /// The marks, oldest first.
    pub fn marks(&self) -> &[Mark]
        ensures { result.now ≡ self.now.marks }
    {
        self.marks.as_slice()
    }

    /// The operations in the order that explains the history as one object store's (Herlihy and Wing's linearization).
    pub fn order(&self, alloc: Global) -> Result<Vec<OpId>, NoMemory>
        ensures order { IfOk result (λ ops. ops.items ≡ order self.now.marks) }
        ensures legal { IsWellFormed self.now.marks → AllDue self.now.marks → IfOk result (λ ops. IsLegal self.now.marks ops.items) }
    {
        order_of(alloc, self.marks.as_slice())
    }
}
