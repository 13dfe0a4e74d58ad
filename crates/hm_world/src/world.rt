ghost use Rattle.std.specs.Option.{option_map};
ghost use Rattle.hm_wire.specs.Packets.{spelling, HasSpelling};
ghost use Rattle.std.specs.Prelude.{All, option_copied, ◌≡◌, ◌<◌, ◌≤◌, ◌+◌, ◌⊎◌, ℕ, length, Some, None, IfOk, IfErr, OnOk, OnErr};
ghost use Rattle.hm_rules.specs.World as rule;
ghost use Rattle.hm_rules.specs.Runs.{slotted};
ghost use Rattle.hm_refusal_laws.specs.Slotting.{slot_happens, slot_step};
ghost use Rattle.hm_schedule.specs.Limits.{max_events, max_packets};

use crate::fault::WorldFault;
use crate::state::State;
use hm_base::entries::PageRoom;
use hm_base::memory::NoMemory;
use hm_codec::acted::Acted;
use hm_group_laws::groups::{group_stays_sound, sound_group_is_ready};
use hm_order::history::History;
use hm_packet::outcome::Outcome;
use hm_replica::acts::blank;
use hm_schedule::event::{Event, Setup};
use std::alloc::Global;
use std::marker::Model;

/// All nodes of one group, the net of all packets ever sent, the clients and the history. Contracts see the rules' world,
/// which is sound.
#[derive(Drop)]
pub struct World {
    state: State,
    acted: Acted,
    room: PageRoom,
}

impl Model for World {
    ghost use Rattle.hm_world.specs.WorldFields.{Held, held_of, IsKept};

    ghost Value = { Held };

    ghost view = { held_of };

    ghost invariant = { IsKept };
}

impl World {
    ghost use Rattle.hm_schedule.specs.Setups.{setup_of, event_of};
    ghost use Rattle.hm_world.specs.Setups.{setup_fault};
    ghost use Rattle.hm_world.specs.WorldFields.{with_slots};

    /// A world before its first event: switch 1 is started, and nothing was sent. The faults come exactly where that part of
    /// the setup is the first out of its range, and NoMemory where memory is wanting.
    pub fn open(alloc: Global, setup: &Setup) -> Result<World, WorldFault>
        ensures opened { IfOk result (λ w. with_slots w ≡ slotted (rule.opens (setup_of setup.now))) }
        ensures events { IfOk result (λ w. w.events ≡ 0) }
        ensures lawful { OnOk result (setup_fault setup.now ≡ None) }
        ensures fault { IfErr result (λ f. (f ≡ WorldFault.NoMemory) ⊎ (setup_fault setup.now ≡ Some f)) }
    {
        group_stays_sound();
        Ok(World {
            state: State::open(alloc, setup)?,
            acted: blank(),
            room: PageRoom::new(),
        })
    }

    /// One event, with its bars in order. A switch refuses a write exactly where its slots are full for the object. A barred
    /// event changes nothing, and neither does want of memory.
    #[inline(always)]
    pub fn event(&mut self, event: &Event) -> Result<Outcome, NoMemory>
        requires { self.old.events < max_events }
        ensures world { OnOk result (with_slots self.new ≡ slot_step (with_slots self.old) (event_of event.now)) }
        ensures outcome { IfOk result (λ o. o ≡ (slot_happens (with_slots self.old) (event_of event.now)).outcome) }
        ensures counted { OnOk result (self.new.events ≡ self.old.events + 1) }
        ensures err { OnErr result (with_slots self.new ≡ with_slots self.old) }
        ensures err_events { OnErr result (self.new.events ≡ self.old.events) }
    {
        group_stays_sound();
        sound_group_is_ready();
        self.state.event(event, &mut self.acted, &mut self.room)
    }

    /// How many events were answered since opening, otherwise than by want of memory.
    pub fn events(&self) -> u32
        ensures { result ≡ self.now.events }
    {
        self.state.events()
    }

    /// How many packets were sent.
    pub fn sent_count(&self) -> u32
        ensures count { result ≡ length self.now.world.net }
        ensures few { result ≤ max_packets }
    {
        self.state.sent_count()
    }

    /// The spelling of the packet of this number, from 1. None exactly where no packet of this number was sent.
    pub fn sent(&self, i: u32) -> Option<&[u8]>
        ensures spelled { option_copied result ≡ option_map spelling (rule.sent_at self.now.world i) }
        ensures lawful { All HasSpelling self.now.world.net }
    {
        self.state.sent(i)
    }

    /// The history of the clients' operations.
    pub fn history(&self) -> &History
        ensures { result.now.marks ≡ self.now.world.history }
    {
        self.state.history()
    }
}
