ghost use Rattle.std.specs.Prelude.{◌≡◌, ◌<◌, ◌≤◌, ◌⊎◌, ◌%◌, if◌then◌else◌, length, slice_index, is_some, Some, None, IfOk, OnOk, IfErr};
ghost use Rattle.hm_base.specs.Slots.{no_slots, is_full};
ghost use Rattle.hm_packet.specs.Messages.{IsLawfulNode};
ghost use Rattle.hm_rules.specs.Senders.{same_node};
ghost use Rattle.hm_rules.specs.Switch as rule;
ghost use Rattle.hm_rules.specs.Switch.{AbstractSwitch};
ghost use Rattle.hm_dirtyset.specs.Table.{slots_of, live_number};
ghost use Rattle.hm_switch.specs.State.{sent_from, put_from, answer_from};
ghost use Rattle.hm_switch.specs.StandsFor.{StandsFor, TurnsTo, refuses};
ghost use Rattle.hm_switch.specs.Faults.{switch_fault};

use crate::fault::SwitchFault;
use hm_base::node::Node;
use hm_base::operation::Answer;
use hm_base::stamp::Stamp;
use hm_base::steps::{Steps, Uncounted};
use hm_base::why::Why;
use hm_dirtyset::dirty_set::{DirtySet, MAX_BITS, MAX_STAGES};
use hm_packet::body::{Body, Done, FastRead, NormalRead, Put, Read, Reply, Write};
use hm_packet::packet::Packet;
use hm_packet::route::Route;
use hm_packet::turn::Turn;
use std::alloc::Global;
use std::marker::Model;

/// The greatest number of packets that a switch may handle.
pub const MAX_LIFE: u32 = 4_194_304;

/// A switch (Harmonia, Zhu and others, PVLDB 13, 2019). All memory is taken at opening. Contracts see its dirty set, whose
/// greatest number is the switch's counter and whose point is its last committed point, its counts and its route; clauses
/// speak of every switch of the rules that it stands for.
#[derive(Drop)]
pub struct Switch {
    id: u32,
    dirty: DirtySet,
    stamped: u32,
    handled: u32,
    route: Route,
    life: u32,
}

impl Model for Switch {
    ghost use Rattle.hm_switch.specs.State.{SwitchState};

    ghost Value = { SwitchState };

    ghost use Rattle.hm_switch.specs.Fields.{state_of, IsInBounds};

    ghost view = { state_of };

    ghost invariant = { IsInBounds };
}

impl Switch {
    /// A switch before its first packet. The faults come exactly where that argument is the first out of its range, and
    /// NoMemory where memory is wanting.
    pub fn open(
        alloc: Global,
        id: u32,
        stages: u8,
        bits: u8,
        life: u32,
        route: &Route,
    ) -> Result<Switch, SwitchFault>
        ensures opened { IfOk result (λ s. StandsFor s (rule.opening id stages life route.now)) }
        ensures slots { IfOk result (λ s. slots_of s.dirty ≡ no_slots stages bits) }
        ensures lawful { OnOk result (switch_fault id stages bits life ≡ None) }
        ensures fault { IfErr result (λ f. (f ≡ SwitchFault.NoMemory) ⊎ (switch_fault id stages bits life ≡ Some f)) }
    {
        if let Some(fault) = fault_of(id, stages, bits, life) {
            return Err(fault);
        }
        // The shape is within its ranges, so that memory alone can be wanting.
        let Ok(dirty) = DirtySet::open(alloc, stages, bits) else {
            return Err(SwitchFault::NoMemory);
        };
        Ok(Switch {
            id,
            dirty,
            stamped: 0,
            handled: 0,
            route: route.copy(),
            life,
        })
    }

    /// One packet at the switch: it does what the rules say of every switch that it stands for, and refuses a write exactly
    /// where its slots are full for the object. It takes no memory.
    pub fn step(&mut self, packet: &Packet) -> Turn
        ensures { (s : AbstractSwitch) → StandsFor self.old s → TurnsTo self.old self.new result s (rule.switch_step (refuses self.old packet.now) s packet.now) }
    {
        if self.handled >= self.life {
            return Turn::Spent;
        }
        self.handled += 1;
        self.on_packet(packet)
    }

    /// Whether it stamps reads: a write of its own was completed.
    pub fn active(&self) -> bool
        ensures { (s : AbstractSwitch) → StandsFor self.now s → result ≡ rule.is_active s }
    {
        self.dirty.point() > 0
    }

    /// Its number and its last committed point. None exactly before its first own completion.
    pub fn stamp(&self) -> Option<Stamp>
        ensures { (s : AbstractSwitch) → StandsFor self.now s → result ≡ (if rule.is_active s then Some (rule.own_stamp s s.point) else None) }
    {
        if self.active() {
            Some(Stamp {
                switch: self.id,
                seq: self.dirty.point(),
            })
        } else {
            None
        }
    }

    /// Whether a write of the object is outstanding.
    pub fn dirty(&self, object: u32) -> bool
        ensures number { result ≡ is_some (live_number self.now.dirty object) }
        ensures dirty { (s : AbstractSwitch) → StandsFor self.now s → result ≡ rule.is_dirty s object }
    {
        let mut steps: Steps<Uncounted> = Steps::new();
        self.dirty.get(object, &mut steps).is_some()
    }

    /// How many packets it handled.
    pub fn turns(&self) -> u32
        ensures { (s : AbstractSwitch) → StandsFor self.now s → result ≡ s.handled }
    {
        self.handled
    }

    /// A packet that counts already.
    fn on_packet(&mut self, packet: &Packet) -> Turn
        requires counted { self.old.dirty.greatest < self.old.handled }
        requires stamps { self.old.stamped < self.old.handled }
        ensures { (s : AbstractSwitch) → StandsFor self.old s → TurnsTo self.old self.new result s (rule.on_packet (refuses self.old packet.now) s packet.now) }
    {
        if !is_node(packet.dst, self.id) {
            return Turn::Ignored(Why::NotForMe);
        }
        match &packet.body {
            Body::Read(read) => match packet.src {
                Node::Client(client) => self.on_read(client, read),
                _ => Turn::Ignored(Why::Foreign),
            },
            Body::Write(write) => match packet.src {
                Node::Client(client) => self.on_write(client, write),
                _ => Turn::Ignored(Why::Foreign),
            },
            Body::Done(done) => match packet.src {
                Node::Replica(_) => self.on_done(done),
                _ => Turn::Ignored(Why::Foreign),
            },
            Body::Route(route) => match packet.src {
                Node::Replica(_) | Node::Config => self.on_route(route),
                _ => Turn::Ignored(Why::Foreign),
            },
            _ => Turn::Ignored(Why::Kind),
        }
    }

    /// A packet from this switch.
    fn sent(&self, dst: Node, body: Body<'static>) -> Turn
        requires { IsLawfulNode dst }
        ensures { result ≡ sent_from self.now.id dst body.entry }
    {
        Turn::Sent(Packet {
            src: Node::Switch(self.id),
            dst,
            body,
        })
    }

    /// A read is stamped where the switch is active and the object isn't dirty.
    fn on_read(&mut self, client: u32, read: &Read) -> Turn
        requires { self.old.stamped < self.old.handled }
        ensures { (s : AbstractSwitch) → StandsFor self.old s → TurnsTo self.old self.new result s (rule.on_read s client read.now) }
    {
        let seq = self.dirty.point();
        if seq > 0 && !self.dirty(read.object) {
            let stamp = Stamp {
                switch: self.id,
                seq,
            };
            let member = self.member_in_turn();
            self.stamped += 1;
            self.sent(
                Node::Replica(member),
                Body::FastRead(FastRead {
                    stamp,
                    client,
                    request: read.request,
                    object: read.object,
                }),
            )
        } else {
            self.sent(
                Node::Replica(self.route.normal),
                Body::NormalRead(NormalRead {
                    client,
                    request: read.request,
                    object: read.object,
                }),
            )
        }
    }

    /// The member that answers the next stamped read.
    fn member_in_turn(&self) -> u8
        ensures member { result ≡ slice_index self.now.route.members (self.now.stamped % length self.now.route.members) }
        ensures within { result ≤ 6 }
    {
        let members = &self.route.members;
        match members.get(self.stamped % members.len()) {
            Some(member) => member,
            None => unreachable!(),
        }
    }

    /// A write gets the next number, if there is a slot for it.
    fn on_write(&mut self, client: u32, write: &Write) -> Turn
        requires { self.old.dirty.greatest < self.old.handled }
        ensures { (s : AbstractSwitch) → StandsFor self.old s → TurnsTo self.old self.new result s (rule.on_write (is_full (slots_of self.old.dirty) self.old.dirty.point write.now.object) s client write.now) }
    {
        let seq = self.dirty.greatest() + 1;
        match self.dirty.put(write.object, seq) {
            Ok(()) => self.pass_on(seq, client, write),
            Err(_) => Turn::Full,
        }
    }

    /// A write with its number, to the entry node.
    fn pass_on(&self, seq: u64, client: u32, write: &Write) -> Turn
        ensures { result ≡ put_from self.now.id seq self.now.route client write.now }
    {
        self.sent(
            Node::Replica(self.route.entry),
            Body::Put(Put {
                stamp: Stamp {
                    switch: self.id,
                    seq,
                },
                client,
                request: write.request,
                object: write.object,
                value: write.value,
            }),
        )
    }

    /// A completion of its own raises the point; each goes on to the client.
    fn on_done(&mut self, done: &Done) -> Turn
        ensures { (s : AbstractSwitch) → StandsFor self.old s → TurnsTo self.old self.new result s (rule.on_done s done.now) }
    {
        if done.stamp.switch != self.id {
            return self.answer(done);
        }
        if done.stamp.seq == 0 || self.dirty.greatest() < done.stamp.seq {
            return Turn::Ignored(Why::Foreign);
        }
        let point = self.dirty.point().max(done.stamp.seq);
        let mut steps: Steps<Uncounted> = Steps::new();
        self.dirty.clean_to(point, &mut steps);
        self.answer(done)
    }

    /// The reply to a completed write.
    fn answer(&self, done: &Done) -> Turn
        ensures { result ≡ answer_from self.now.id done.now }
    {
        self.sent(
            Node::Client(done.client),
            Body::Reply(Reply {
                request: done.request,
                version: done.stamp,
                answer: Answer::Wrote,
            }),
        )
    }

    /// A route of a later view is taken.
    fn on_route(&mut self, route: &Route) -> Turn
        ensures { (s : AbstractSwitch) → StandsFor self.old s → TurnsTo self.old self.new result s (rule.on_route s route.now) }
    {
        if route.view <= self.route.view {
            return Turn::Ignored(Why::Epoch);
        }
        self.route = route.copy();
        Turn::Noted
    }
}

/// The first argument of an opening that is out of its range, if any is.
fn fault_of(id: u32, stages: u8, bits: u8, life: u32) -> Option<SwitchFault>
    ensures { result ≡ switch_fault id stages bits life }
{
    if id == 0 {
        Some(SwitchFault::Id)
    } else if stages < 1 || stages > MAX_STAGES {
        Some(SwitchFault::Stages)
    } else if bits > MAX_BITS {
        Some(SwitchFault::Bits)
    } else if life < 1 || life > MAX_LIFE {
        Some(SwitchFault::Life)
    } else {
        None
    }
}

/// Whether a node is the switch of this number.
fn is_node(node: Node, id: u32) -> bool
    ensures { result ≡ same_node node (Node.Switch id) }
{
    match node {
        Node::Switch(number) => number == id,
        _ => false,
    }
}
