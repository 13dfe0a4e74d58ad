ghost use Rattle.std.specs.Option.{option_map};
ghost use Rattle.hm_wire.specs.Packets.{spelling, HasSpelling};
ghost use Rattle.std.specs.Prelude.{All, option_copied, ◌≡◌, ◌≢◌, ◌<◌, ◌≤◌, ◌+◌, length, slice_get, true, Some, None, IfOk, OnOk, OnErr, IfErr, ◌⊎◌};
ghost use Rattle.hm_rules.specs.Runs.{slotted};
ghost use Rattle.hm_refusal_laws.specs.Slotting.{slot_happens, slot_step};
ghost use Rattle.hm_rules.specs.World as rule;
ghost use Rattle.hm_schedule.specs.Limits.{max_events, max_packets};

use crate::fault::{WorldFault, fault_of};
use crate::group::Group;
use crate::switches::Switches;
use hm_base::entries::PageRoom;
use hm_base::memory::NoMemory;
use hm_codec::acted::Acted;
use hm_order::history::History;
use hm_order::mark::Want;
use hm_packet::outcome::{Bar, Outcome};
use hm_parts::clients::Clients;
use hm_parts::net::Net;
use hm_parts::observer::Observer;
use hm_reconfig::service::Service;
use hm_schedule::event::{Event, Setup};
use std::alloc::Global;

/// All nodes of one group, the net of all packets ever sent, the clients and what an observer writes down. The rules' world
/// for it is `world_of`.
#[derive(Drop)]
pub struct State {
    pub(crate) setup: Setup,
    pub(crate) net: Net,
    pub(crate) switches: Switches,
    pub(crate) group: Group,
    pub(crate) stopped: Vec<u8>,
    pub(crate) service: Service,
    pub(crate) clients: Clients,
    pub(crate) observer: Observer,
    pub(crate) events: u32,
}

impl State {
    ghost use Rattle.hm_schedule.specs.Setups.{setup_of, event_of};
    ghost use Rattle.hm_world.specs.Setups.{setup_fault};
    ghost use Rattle.hm_world.specs.StateFields.{world_of, slotted_of, IsReady, IsKept, IsBegun, Ends};

    /// The state before the first event. The faults are as those of the world.
    pub(crate) fn open(alloc: Global, setup: &Setup) -> Result<State, WorldFault>
        ensures opened { IfOk result (λ s. slotted_of s ≡ slotted (rule.opens (setup_of setup.now))) }
        ensures events { IfOk result (λ s. s.events ≡ 0) }
        ensures kept { IfOk result (λ s. IsKept s) }
        ensures lawful { OnOk result (setup_fault setup.now ≡ None) }
        ensures fault { IfErr result (λ f. (f ≡ WorldFault.NoMemory) ⊎ (setup_fault setup.now ≡ Some f)) }
    {
        if let Some(fault) = fault_of(setup) {
            return Err(fault);
        }
        let service = Service::open(setup.kind, setup.size);
        let route = service.route();
        let group = Group::open(alloc, setup.kind, setup.cap, service.members())?;
        Ok(State {
            setup: *setup,
            net: Net::new(alloc),
            switches: Switches::open(alloc, setup.stages, setup.bits, setup.life, &route)?,
            group,
            stopped: Vec::new(alloc),
            service,
            clients: Clients::new(alloc),
            observer: Observer::open(alloc, setup.cap)?,
            events: 0,
        })
    }

    /// One event, with its bars in order.
    #[inline(always)]
    pub(crate) fn event(
        &mut self,
        event: &Event,
        acted: &mut Acted,
        room: &mut PageRoom,
    ) -> Result<Outcome, NoMemory>
        requires few { self.old.events < max_events }
        requires kept { IsKept self.old }
        requires ready { IsReady (world_of self.old) }
        ensures world { OnOk result (slotted_of self.new ≡ slot_step (slotted_of self.old) (event_of event.now)) }
        ensures outcome { IfOk result (λ o. o ≡ (slot_happens (slotted_of self.old) (event_of event.now)).outcome) }
        ensures counted { OnOk result (self.new.events ≡ self.old.events + 1) }
        ensures kept { IsKept self.new }
        ensures err { OnErr result (slotted_of self.new ≡ slotted_of self.old) }
        ensures err_events { OnErr result (self.new.events ≡ self.old.events) }
    {
        if let Event::Start = event {
            return self.start();
        }
        if self.finds_no_packet(event) {
            self.events += 1;
            return Ok(Outcome::NotAllowed(Bar::NoPacket));
        }
        self.begin()?;
        Ok(self.take(event, acted, room))
    }

    /// Whether an event is a `next` that finds no packet: it gives nothing, and so needs no room.
    #[inline(always)]
    fn finds_no_packet(&self, event: &Event) -> bool
        ensures { result ≡ true → (event.now ≡ Event.Next) × (None ≡ slice_get self.now.net.packets self.now.net.cursor) }
    {
        matches!(event, Event::Next) && self.net.cursor() >= self.net.len()
    }

    /// Takes all the room that one event may need, and counts the event.
    #[inline(always)]
    fn begin(&mut self) -> Result<(), NoMemory>
        requires few { self.old.events < max_events }
        requires kept { IsKept self.old }
        requires ready { IsReady (world_of self.old) }
        ensures same { slotted_of self.new ≡ slotted_of self.old }
        ensures begun { OnOk result (IsBegun self.new) }
        ensures counted { OnOk result (self.new.events ≡ self.old.events + 1) }
        ensures err { OnErr result (IsKept self.new) }
        ensures err_events { OnErr result (self.new.events ≡ self.old.events) }
    {
        self.clients.reserve()?;
        self.observer.reserve(self.group.cap())?;
        self.stopped.reserve(1)?;
        self.net.reserve()?;
        self.events += 1;
        Ok(())
    }

    /// What an event does once there is room for it. A start takes its own room.
    #[inline(always)]
    fn take(&mut self, event: &Event, acted: &mut Acted, room: &mut PageRoom) -> Outcome
        requires begun { IsBegun self.old }
        requires other { event.now ≢ Event.Start }
        ensures { Ends self.old self.new result (slot_happens (slotted_of self.old) (event_of event.now)) }
    {
        match event {
            Event::Write {
                client,
                object,
                value,
                switch,
            } => {
                let want = Want::Write {
                    object: *object,
                    value: *value,
                };
                self.invoke(*client, want, *switch)
            }
            Event::Read {
                client,
                object,
                switch,
            } => self.invoke(*client, Want::Read { object: *object }, *switch),
            Event::Resend { client, switch } => self.resend(*client, *switch),
            Event::Deliver { packet } => self.deliver_again(*packet, acted, room),
            Event::Next => self.next(acted, room),
            Event::Drop => self.lose_next(),
            Event::Tick { replica } => self.tick(*replica, acted),
            Event::Stop { replica } => self.stop(*replica),
            Event::Remove { replica } => self.remove(*replica, acted),
            Event::Timeout { replica } => self.timeout(*replica, acted),
            Event::Retire => self.retire(acted),
            Event::Start => unreachable!(),
        }
    }

    /// How many events were answered since opening, otherwise than by want of memory.
    pub(crate) fn events(&self) -> u32
        ensures { result ≡ self.now.events }
    {
        self.events
    }

    /// How many packets were sent.
    pub(crate) fn sent_count(&self) -> u32
        ensures count { result ≡ length self.now.net.packets }
        ensures few { result ≤ max_packets }
    {
        self.net.len()
    }

    /// The spelling of the packet of this number, from 1. None exactly where no packet of this number was sent.
    pub(crate) fn sent(&self, i: u32) -> Option<&[u8]>
        ensures spelled { option_copied result ≡ option_map spelling (rule.sent_at (world_of self.now) i) }
        ensures lawful { All HasSpelling self.now.net.packets }
    {
        let _any = self.net.at(0);
        if i == 0 {
            return None;
        }
        self.net.at(i - 1)
    }

    /// The history of the clients' operations.
    pub(crate) fn history(&self) -> &History
        ensures { result.now.marks ≡ self.now.observer.history }
    {
        self.observer.history()
    }

    /// An event that was taken and sent nothing.
    pub(crate) fn none_sent(&self) -> Outcome
        ensures { result ≡ Outcome.Ok (length self.now.net.packets + 1) 0 }
    {
        Outcome::Ok {
            first: self.net.len() + 1,
            count: 0,
        }
    }
}
