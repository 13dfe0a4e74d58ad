ghost use Rattle.std.specs.Prelude.{◌≡◌, ◌+◌, ◌<◌, IfOk, OnOk, OnErr};
ghost use Rattle.hm_rules.specs.Happens as rules;
ghost use Rattle.hm_rules.specs.Runs.{slotted_after};
ghost use Rattle.hm_rules.specs.Service as service;
ghost use Rattle.hm_rules.specs.World as rule;
ghost use Rattle.hm_schedule.specs.Limits.{max_events};

use crate::fault::{bar_of, start_bar_of};
use crate::replica_events::is_in;
use crate::state::State;
use arrayvec::ArrayVec;
use hm_base::members::MAX_REPLICAS;
use hm_base::memory::NoMemory;
use hm_codec::acted::Acted;
use hm_packet::outcome::{Bar, Outcome};
use hm_replica::group::is_member;

impl State {
    ghost use Rattle.hm_world.specs.StateFields.{world_of, slotted_of, IsKept, IsBegun, Quietly};

    /// A stopped member is removed from the group, and the new epoch is told.
    pub(crate) fn remove(&mut self, number: u8, acted: &mut Acted) -> Outcome
        requires { IsBegun self.old }
        ensures { Quietly self.old self.new result (rules.removal (world_of self.old) number) }
    {
        let runs = is_member(self.service.members(), number) && !is_in(number, &self.stopped);
        if runs && !self.group.is_fixed() {
            return Outcome::NotAllowed(Bar::Live);
        }
        let first = self.net.len() + 1;
        match self.service.remove(number, &mut acted.outs) {
            Ok(()) => {
                let count = acted.outs.len();
                self.net.post_all(&acted.outs);
                Outcome::Ok { first, count }
            }
            Err(fault) => Outcome::NotAllowed(bar_of(fault)),
        }
    }

    /// Each member is asked to take nothing more of the newest switch.
    pub(crate) fn retire(&mut self, acted: &mut Acted) -> Outcome
        requires { IsBegun self.old }
        ensures { Quietly self.old self.new result (rules.serviced (world_of self.old) (service.retires self.old.service)) }
    {
        let first = self.net.len() + 1;
        self.service.retire(&mut acted.outs);
        let count = acted.outs.len();
        self.net.post_all(&acted.outs);
        Outcome::Ok { first, count }
    }

    /// The next switch is started, once each live member has refused the newest one. It takes its memory before anything changes, and
    /// needs no other room.
    pub(crate) fn start(&mut self) -> Result<Outcome, NoMemory>
        requires few { self.old.events < max_events }
        requires kept { IsKept self.old }
        ensures world { OnOk result (slotted_of self.new ≡ slotted_after (slotted_of self.old) (rules.start (world_of self.old)).world) }
        ensures outcome { IfOk result (λ o. o ≡ (rules.start (world_of self.old)).outcome) }
        ensures counted { OnOk result (self.new.events ≡ self.old.events + 1) }
        ensures kept { IsKept self.new }
        ensures err { OnErr result (slotted_of self.new ≡ slotted_of self.old) }
        ensures err_events { OnErr result (self.new.events ≡ self.old.events) }
    {
        let mut service = self.service.copy();
        let number = match service.start(self.live().as_slice()) {
            Ok(number) => number,
            Err(fault) => {
                self.events += 1;
                return Ok(Outcome::NotAllowed(start_bar_of(fault)));
            }
        };
        let setup = self.setup;
        let route = service.route();
        self.switches
            .start(number, setup.stages, setup.bits, setup.life, &route)?;
        self.service = service;
        self.events += 1;
        Ok(self.none_sent())
    }

    /// The replicas that aren't stopped, in rising order.
    fn live(&self) -> ArrayVec<u8, MAX_REPLICAS>
        ensures { result.items ≡ rule.live (world_of self.now) }
    {
        let mut live = ArrayVec::new();
        for number in 0..self.group.len() as u8 {
            if !is_in(number, &self.stopped) {
                live.push(number);
            }
        }
        live
    }
}
