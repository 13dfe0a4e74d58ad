ghost use Rattle.std.specs.Prelude.{◌≡◌, ◌≤◌, [], false};
ghost use Rattle.hm_rules.specs.Numbers.{stands_in, with_number};

use hm_base::members::MAX_REPLICAS;
use std::marker::Model;

/// Who refused a switch, marked by number. Contracts see the rising list of their numbers.
#[derive(Drop)]
pub struct Refusers {
    marks: [bool; MAX_REPLICAS],
}

impl Model for Refusers {
    ghost use Rattle.std.specs.Prelude.{List, ℕ};
    ghost use Rattle.hm_reconfig.specs.Marks.{marked_from};

    ghost Value = { List ℕ };

    ghost view = { λ r. marked_from 0 r.marks };
}

impl Refusers {
    /// Nobody refused it.
    pub fn none() -> Refusers
        ensures { result ≡ [] }
    {
        Refusers {
            marks: [false; MAX_REPLICAS],
        }
    }

    /// An equal list.
    pub fn copy(&self) -> Refusers
        ensures { result ≡ self.now }
    {
        Refusers { marks: self.marks }
    }

    /// Whether a replica refused it.
    pub fn holds(&self, replica: u8) -> bool
        requires within { replica ≤ 6 }
        ensures { result ≡ stands_in replica self.now }
    {
        self.marks[replica as usize]
    }

    /// One more replica refused it.
    pub fn note(&mut self, replica: u8)
        requires within { replica ≤ 6 }
        requires fresh { stands_in replica self.old ≡ false }
        ensures { self.new ≡ with_number replica self.old }
    {
        self.marks[replica as usize] = true;
    }
}
