ghost use Rattle.std.specs.Prelude.{◌≡◌, ◌≤◌, map, Some, None, IfOk, IfErr, OnOk, OnErr};
ghost use Rattle.hm_packet.specs.Messages.{IsLawfulNode};
ghost use Rattle.hm_rules.specs.Numbers.{stands_in};
ghost use Rattle.hm_rules.specs.Service as rules;
ghost use Rattle.hm_reconfig.specs.Groups.{config_of, request_of, remove_fault, start_fault};

use crate::fault::{RemoveFault, StartFault};
use crate::groups::{first_members, without};
use crate::refusers::Refusers;
use hm_base::members::Members;
use hm_base::node::{GroupKind, Node};
use hm_base::why::Why;
use hm_codec::outs::Outs;
use hm_packet::acted::Did;
use hm_packet::body::{Body, Config, Refuse, Refused};
use hm_packet::packet::Packet;
use hm_packet::route::Route;
use hm_replica::acts::push;
use hm_replica::group::{first_member, is_member, last_member};
use std::marker::Model;

/// The configuration service of one group, the master of van Renesse and Schneider: it keeps the members, the epoch, the number
/// of the newest switch, and, while that is being replaced, who refused it. Contracts see the service of the rules.
#[derive(Drop)]
pub struct Service {
    kind: GroupKind,
    members: Members,
    epoch: u32,
    newest: u32,
    retiring: bool,
    refused: Refusers,
}

impl Model for Service {
    ghost use Rattle.hm_rules.specs.Service as rules;
    ghost use Rattle.hm_reconfig.specs.Groups.{service_of, IsKept};

    ghost Value = { rules.Service };

    ghost view = { service_of };

    ghost invariant = { IsKept };
}

impl Service {
    /// The service before its first call: the members are 0 to `size` - 1, of 1 to 7, the epoch is 0, and the switch 1.
    pub fn open(kind: GroupKind, size: u8) -> Service
        requires some { 1 ≤ size }
        requires few { size ≤ 7 }
        ensures { result ≡ rules.served kind size }
    {
        Service {
            kind,
            members: first_members(size),
            epoch: 0,
            newest: 1,
            retiring: false,
            refused: Refusers::none(),
        }
    }

    /// An equal service, to try a call on.
    pub fn copy(&self) -> Service
        ensures { result ≡ self.now }
    {
        Service {
            kind: self.kind,
            members: self.members.copy(),
            epoch: self.epoch,
            newest: self.newest,
            retiring: self.retiring,
            refused: self.refused.copy(),
        }
    }

    /// Removes a member, which has to be stopped for good: the epoch rises by one, and in `outs`, in place of what stood
    /// there, comes what to send: the new epoch to each member that is left, in rising order, and the route to the newest
    /// switch. Refused, with nothing changed, exactly where the group is fixed, as in Viewstamped Replication, where the
    /// replica is no member, or the only one.
    pub fn remove(&mut self, replica: u8, outs: &mut Outs) -> Result<(), RemoveFault>
        ensures fault { IfErr result (λ f. remove_fault self.old replica ≡ Some f) }
        ensures allowed { OnOk result (remove_fault self.old replica ≡ None) }
        ensures service { OnOk result (self.new ≡ (rules.removes self.old replica).service) }
        ensures outs { OnOk result (outs.new ≡ (rules.removes self.old replica).outs) }
        ensures err { OnErr result (self.new ≡ self.old) }
        ensures unsent { OnErr result (outs.new ≡ outs.old) }
    {
        if self.kind == GroupKind::Vr {
            return Err(RemoveFault::Fixed);
        }
        if !is_member(&self.members, replica) {
            return Err(RemoveFault::NotMember);
        }
        if self.members.len() == 1 {
            return Err(RemoveFault::Last);
        }
        let Some(rest) = without(&self.members, replica) else {
            unreachable!()
        };
        self.members = rest;
        self.epoch += 1;
        self.announce(outs);
        Ok(())
    }

    /// Begins to replace the newest switch: in `outs`, in place of what stood there, comes the request to take nothing more of it,
    /// to each member in rising order. Called again, it asks again, and keeps who refused.
    pub fn retire(&mut self, outs: &mut Outs)
        ensures service { self.new ≡ (rules.retires self.old).service }
        ensures outs { outs.new ≡ (rules.retires self.old).outs }
    {
        self.retiring = true;
        requests(self.newest, &self.members, outs);
    }

    /// A packet that arrives at the service. It is noted that a member takes nothing more of the newest switch, while that is being
    /// replaced. Ignored, with nothing changed, exactly by the first of these that holds: NotForMe where it goes to another node,
    /// Kind where it isn't Refused, Foreign where its sender is no member, Status where no switch is being replaced or it names
    /// another one, and Repeat where that member has refused already.
    pub fn on_refused(&mut self, packet: &Packet) -> Did
        ensures service { self.new ≡ (rules.service_step self.old packet.now).service }
        ensures did { result ≡ (rules.service_step self.old packet.now).did }
    {
        match (packet.dst, &packet.body) {
            (Node::Config, Body::Refused(refused)) => self.take(packet.src, refused),
            (Node::Config, _) => Did::Ignored(Why::Kind),
            _ => Did::Ignored(Why::NotForMe),
        }
    }

    /// The number of the next switch, which is the newest from now on: nobody has refused it, and it isn't being replaced. `live`
    /// lists the replicas that may still answer; that it holds all of these is the caller's part. Refused, with nothing changed,
    /// exactly where the newest switch isn't being replaced, where a listed member hasn't refused it, with the lowest of these, or
    /// where the newest switch has the last number.
    pub fn start(&mut self, live: &[u8]) -> Result<u32, StartFault>
        ensures fault { IfErr result (λ f. start_fault self.old live.now ≡ Some f) }
        ensures allowed { OnOk result (rules.start_fault self.old live.now ≡ None) }
        ensures service { OnOk result (self.new ≡ rules.starts self.old) }
        ensures number { IfOk result (λ n. n ≡ self.new.newest) }
        ensures err { OnErr result (self.new ≡ self.old) }
    {
        if !self.retiring {
            return Err(StartFault::NotRetired);
        }
        if let Some(replica) = self.awaited(live) {
            return Err(StartFault::NotRefused { replica });
        }
        if self.newest == u32::MAX {
            return Err(StartFault::NoNumber);
        }
        self.newest += 1;
        self.retiring = false;
        self.refused = Refusers::none();
        Ok(self.newest)
    }

    /// Where the newest switch is to send.
    pub fn route(&self) -> Route
        ensures { result ≡ rules.service_route self.now }
    {
        Route {
            view: self.epoch,
            entry: first_member(&self.members),
            normal: self.normal_node(),
            members: self.members.copy(),
        }
    }

    /// The members, in rising order.
    pub fn members(&self) -> &Members
        ensures { result.now ≡ self.now.members }
    {
        &self.members
    }

    /// The number of the newest switch.
    pub fn newest(&self) -> u32
        ensures { result ≡ self.now.newest }
    {
        self.newest
    }

    /// The member that answers reads which carry no stamp.
    fn normal_node(&self) -> u8
        ensures value { result ≡ rules.normal_node self.now.kind self.now.members }
        ensures within { result ≤ 6 }
    {
        match self.kind {
            GroupKind::Chain => last_member(&self.members),
            GroupKind::Primary | GroupKind::Vr => first_member(&self.members),
        }
    }

    /// The present epoch, to each member and to the newest switch.
    fn announce(&self, outs: &mut Outs)
        ensures { outs.new ≡ (rules.announces self.now).outs }
    {
        configs(self.epoch, &self.members, outs);
        let route = Body::Route(self.route());
        push(outs, &from_service(Node::Switch(self.newest), route));
    }

    /// A sender's word that it takes nothing more of a switch.
    fn take(&mut self, src: Node, refused: &Refused) -> Did
        ensures service { self.new ≡ (rules.on_refused self.old src (Body.Refused refused.now)).service }
        ensures did { result ≡ (rules.on_refused self.old src (Body.Refused refused.now)).did }
    {
        let members = self.members.as_slice();
        match src {
            Node::Replica(replica) if is_in(replica, members) => self.note(replica, refused),
            _ => Did::Ignored(Why::Foreign),
        }
    }

    /// A member's word that it takes nothing more of a switch.
    fn note(&mut self, replica: u8, refused: &Refused) -> Did
        requires { replica ≤ 6 }
        ensures service { self.new ≡ (rules.notes_refused self.old replica refused.now).service }
        ensures did { result ≡ (rules.notes_refused self.old replica refused.now).did }
    {
        if !(self.retiring && refused.switch == self.newest) {
            return Did::Ignored(Why::Status);
        }
        if self.refused.holds(replica) {
            return Did::Ignored(Why::Repeat);
        }
        self.refused.note(replica);
        Did::Done
    }

    /// The lowest listed member that hasn't refused the newest switch, if there is one.
    fn awaited(&self, live: &[u8]) -> Option<u8>
        ensures { result ≡ rules.awaited self.now live.now }
    {
        for member in self.members.as_slice() {
            if is_in(*member, live) && !self.refused.holds(*member) {
                return Some(*member);
            }
        }
        None
    }
}

/// Puts the epoch, to each of its members, in the place of what stood in `outs`.
fn configs(epoch: u32, members: &Members, outs: &mut Outs)
    ensures { outs.new ≡ map (config_of epoch members.now) members.now }
{
    outs.clear();
    for member in members.as_slice() {
        let config = Config {
            view: epoch,
            members: members.copy(),
        };
        push(
            outs,
            &from_service(Node::Replica(*member), Body::Config(config)),
        );
    }
}

/// Puts the request to take nothing more of a switch, to each member, in the place of what stood in `outs`.
fn requests(switch: u32, members: &Members, outs: &mut Outs)
    ensures { outs.new ≡ map (request_of switch) members.now }
{
    outs.clear();
    for member in members.as_slice() {
        let request = Body::Refuse(Refuse { switch });
        push(outs, &from_service(Node::Replica(*member), request));
    }
}

/// Whether a number stands in a list.
fn is_in(number: u8, list: &[u8]) -> bool
    ensures { result ≡ stands_in number list.now }
{
    list.iter().any(|other| *other == number)
}

/// A packet from the service.
fn from_service(dst: Node, body: Body<'static>) -> Packet<'static>
    requires { IsLawfulNode dst }
    ensures { result ≡ rules.from_service dst body.entry }
{
    Packet {
        src: Node::Config,
        dst,
        body,
    }
}
