ghost use Rattle.std.specs.Prelude.{◌≡◌, ◌<◌, ◌≤◌, ◌++◌, None, IfOk, vec_len, vec_capacity};
ghost use Rattle.hm_base.specs.Slots.{no_slots};
ghost use Rattle.hm_rules.specs.Switch as rule;
ghost use Rattle.hm_dirtyset.specs.Table.{slots_of};
ghost use Rattle.hm_schedule.specs.Limits.{max_events};
ghost use Rattle.hm_switch.specs.Faults.{switch_fault};
ghost use Rattle.hm_switch.specs.StandsFor.{slots_then};
ghost use Rattle.hm_world.specs.Slotted.{finds_full, put_objects};

use hm_base::memory::NoMemory;
use hm_packet::body::Body;
use hm_packet::packet::Packet;
use hm_packet::route::Route;
use hm_packet::turn::Turn;
use hm_schedule::limits::MAX_EVENTS;
use hm_switch::switch::Switch;
use std::alloc::Global;
use std::marker::Model;

/// A switch, and the objects of the writes that it numbered. Contracts see the rules' switch that it stands for, and its
/// dirty table.
#[derive(Drop)]
pub struct SlottedSwitch {
    switch: Switch,
    numbered: Vec<u32>,
}

impl Model for SlottedSwitch {
    ghost use Rattle.hm_world.specs.Slotted.{Seen};

    ghost Value = { Seen };

    ghost use Rattle.hm_world.specs.SlottedFields.{seen_of, IsKept};

    ghost view = { seen_of };

    ghost invariant = { IsKept };
}

impl SlottedSwitch {
    /// A switch before its first packet. All memory is taken here.
    pub fn open(
        alloc: Global,
        id: u32,
        stages: u8,
        bits: u8,
        life: u32,
        route: &Route,
    ) -> Result<SlottedSwitch, NoMemory>
        requires { switch_fault id stages bits life ≡ None }
        ensures switch { IfOk result (λ s. s.switch ≡ rule.opening id stages life route.now) }
        ensures slots { IfOk result (λ s. slots_of s.table ≡ no_slots stages bits) }
    {
        let Ok(switch) = Switch::open(alloc, id, stages, bits, life, route) else {
            return Err(NoMemory);
        };
        Ok(SlottedSwitch {
            switch,
            numbered: Vec::with_capacity(alloc, MAX_EVENTS as usize)?,
        })
    }

    /// One packet at the switch, which refuses a write exactly where its slots are full for the object.
    pub fn step(&mut self, packet: &Packet) -> Turn
        requires { self.old.switch.handled < max_events }
        ensures switch { self.new.switch ≡ (rule.switch_step (finds_full self.old packet.now.body) self.old.switch packet.now).switch }
        ensures turn { result ≡ (rule.switch_step (finds_full self.old packet.now.body) self.old.switch packet.now).turn }
        ensures slots { slots_of self.new.table ≡ slots_then (slots_of self.old.table) self.old.switch self.new.switch }
    {
        let turn = self.switch.step(packet);
        note_put(&mut self.numbered, &turn);
        turn
    }
}

/// Keeps the object of the write that was numbered in this turn, if one was.
fn note_put(numbered: &mut Vec<u32>, turn: &Turn)
    requires { vec_len numbered.old < vec_capacity numbered.old }
    ensures items { numbered.new.items ≡ numbered.old.items ++ put_objects turn.now }
    ensures room { vec_capacity numbered.old ≤ vec_capacity numbered.new }
{
    let Turn::Sent(packet) = turn else {
        return;
    };
    if let Body::Put(put) = &packet.body {
        let pushed: Result<_, _> = numbered.push(put.object);
        pushed.unwrap();
    }
}
