ghost use Rattle.std.specs.Prelude.{◌≡◌, ◌<◌, ◌++◌, ◌∷◌, [], None, Some, IfOk, OnOk, OnErr, is_some, true};
ghost use Rattle.hm_base.specs.Slots.{no_slots};
ghost use Rattle.hm_rules.specs.Switch.{AbstractSwitch, opening};
ghost use Rattle.hm_schedule.specs.Limits.{max_events};
ghost use Rattle.hm_switch.specs.Faults.{switch_fault};
ghost use Rattle.hm_world.specs.Running.{IsTurn, started_in, switches_in, slots_in};

use crate::slotted::SlottedSwitch;
use hm_base::memory::NoMemory;
use hm_packet::packet::Packet;
use hm_packet::route::Route;
use hm_packet::turn::Turn;
use std::alloc::Global;
use std::marker::Model;

/// The switches that were started: the first has the number 1, and each goes on taking packets once others are started. Contracts
/// see the rules' switches, their dirty tables, and how many packets all of them handled.
#[derive(Drop)]
pub struct Switches {
    started: Vec<SlottedSwitch>,
    steps: u32,
}

impl Model for Switches {
    ghost use Rattle.hm_world.specs.Running.{Running};

    ghost Value = { Running };

    ghost use Rattle.hm_world.specs.SwitchesFields.{running_of, IsKept};

    ghost view = { running_of };

    ghost invariant = { IsKept };
}

impl Switches {
    /// Switch 1 alone, before its first packet.
    pub fn open(
        alloc: Global,
        stages: u8,
        bits: u8,
        life: u32,
        route: &Route,
    ) -> Result<Switches, NoMemory>
        requires { switch_fault 1 stages bits life ≡ None }
        ensures switches { IfOk result (λ s. switches_in s ≡ opening 1 stages life route.now ∷ []) }
        ensures slots { IfOk result (λ s. slots_in s ≡ no_slots stages bits ∷ []) }
        ensures steps { IfOk result (λ s. s.steps ≡ 0) }
    {
        let mut switches = Switches {
            started: Vec::new(alloc),
            steps: 0,
        };
        switches.start(1, stages, bits, life, route)?;
        Ok(switches)
    }

    /// Whether a switch was started.
    pub fn is_started(&self, number: u32) -> bool
        ensures { result ≡ is_some (started_in (switches_in self.now) number) }
    {
        number > 0 && number as usize <= self.started.len()
    }

    /// One more switch is started, before its first packet. All its memory is taken here; where that is wanting, nothing changes.
    pub fn start(
        &mut self,
        id: u32,
        stages: u8,
        bits: u8,
        life: u32,
        route: &Route,
    ) -> Result<(), NoMemory>
        requires { switch_fault id stages bits life ≡ None }
        ensures switches { OnOk result (switches_in self.new ≡ switches_in self.old ++ opening id stages life route.now ∷ []) }
        ensures slots { OnOk result (slots_in self.new ≡ slots_in self.old ++ no_slots stages bits ∷ []) }
        ensures steps { self.new.steps ≡ self.old.steps }
        ensures err { OnErr result (self.new ≡ self.old) }
    {
        let alloc = *self.started.allocator();
        let switch = SlottedSwitch::open(alloc, id, stages, bits, life, route)?;
        self.started.push(switch)?;
        Ok(())
    }

    /// A switch that was started handles a packet.
    pub fn step(&mut self, number: u32, packet: &Packet) -> Turn
        requires started { is_some (started_in (switches_in self.old) number) ≡ true }
        requires few { self.old.steps < max_events }
        ensures { (s : AbstractSwitch) → started_in (switches_in self.old) number ≡ Some s → IsTurn self.old self.new number result s packet.now }
    {
        self.steps += 1;
        self.started[number as usize - 1].step(packet)
    }
}
