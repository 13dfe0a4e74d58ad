ghost use Rattle.std.specs.Prelude.{◌≡◌, [], IfOk, OnErr};
ghost use Rattle.hm_frame.specs.Links.{Keeps};
ghost use Rattle.hm_outside.specs.Faults.{Counts};
ghost use Rattle.hm_rules.specs.Service as rules;
ghost use Rattle.hm_schedule.specs.Schedules.{IsLawfulGroup};
ghost use Rattle.hm_worker.specs.Heard.{Heard};
ghost use Rattle.hm_worker.specs.Posts.{Says};
ghost use Rattle.hm_desk.specs.Deeds.{Deed, does, hearing, outcome_line, route_to_newest};
ghost use Rattle.hm_desk.specs.Steps.{Carries, Goes, Tells};

use crate::outcome::{Outcome, noted, write_line};
use hm_base::buffer::Text;
use hm_base::entries::PageRoom;
use hm_base::node::{GroupKind, Node};
use hm_codec::buf::MAX_LEN;
use hm_codec::decode::decode;
use hm_codec::outs::Outs;
use hm_daemon::posts::send_all;
use hm_daemon::status::NodeStatus;
use hm_frame::datagram::Taken;
use hm_frame::link::Link;
use hm_frame::link_law::link_calls_add_up;
use hm_operator::live::Live;
use hm_operator::order::Order;
use hm_outside::device::{Failed, Sink, put_all};
use hm_packet::body::Body;
use hm_packet::packet::Packet;
use hm_reconfig::service::Service;
use hm_replica::acts::push;
use std::alloc::Global;

/// The configuration service at its orders: what the present one sends, and its line.
#[derive(Drop)]
pub(crate) struct Desk {
    service: Service,
    outs: Outs,
    text: Text,
}

impl Desk {
    /// The service of a group of this size before its first order.
    pub(crate) fn open(alloc: Global, kind: GroupKind, size: u8) -> Desk
        requires { IsLawfulGroup kind size }
        ensures { result.service ≡ rules.served kind size }
    {
        Desk {
            service: Service::open(kind, size),
            outs: Outs::new(),
            text: Text::new(alloc),
        }
    }

    /// Carries an order out, sends what results, and writes the line of what it came to. A status is where that ends the service.
    pub(crate) fn serve<L: Link, K: Sink>(
        &mut self,
        order: &Order,
        link: &mut L,
        sink: &mut K,
    ) -> Result<(), NodeStatus>
        ensures { Goes result order.now self.old.service self.new.service
            (record { coming = L.coming link.old; sent = L.sent link.old; faults = L.faults link.old })
            (record { coming = L.coming link.new; sent = L.sent link.new; faults = L.faults link.new })
            (record { held = K.held sink.old; faults = K.faults sink.old })
            (record { held = K.held sink.new; faults = K.faults sink.new }) }
    {
        link_calls_add_up();
        let outcome = match self.carry_out(order, link) {
            Ok(outcome) => outcome,
            Err(_) => return Err(NodeStatus::LinkFault),
        };
        match send_all(&self.outs, link) {
            Ok(()) => self.tell(outcome, sink),
            Err(_) => Err(NodeStatus::LinkFault),
        }
    }

    /// Carries an order out. What it sends is in `outs` then.
    fn carry_out<L: Link>(&mut self, order: &Order, link: &mut L) -> Result<Outcome, Failed>
        ensures ok { IfOk result (λ outcome. Carries order.now self.old.service self.new.service self.new.outs outcome (L.coming link.old) (L.coming link.new)) }
        ensures err { OnErr result ((order.now ≡ Order.Take) × Keeps (L.coming link.old) (L.coming link.new)) }
        ensures unsent { Keeps (L.sent link.old) (L.sent link.new) }
        ensures counted { Counts (L.faults link.old) (L.faults link.new) result }
    {
        self.outs.clear();
        match order {
            Order::Remove(replica) => Ok(self.remove(*replica)),
            Order::Retire => {
                self.service.retire(&mut self.outs);
                Ok(Outcome::Retired)
            }
            Order::Take => self.take(link),
            Order::Start(live) => Ok(self.start(live)),
        }
    }

    /// Removes a member.
    fn remove(&mut self, replica: u8) -> Outcome
        requires { self.old.outs ≡ [] }
        ensures { does self.old.service (Deed.Removes replica) ≡ record { service = self.new.service; outs = self.new.outs; came_to = result } }
    {
        match self.service.remove(replica, &mut self.outs) {
            Ok(()) => Outcome::Removed,
            Err(fault) => Outcome::NotRemoved(fault),
        }
    }

    /// Takes what comes next over the link.
    fn take<L: Link>(&mut self, link: &mut L) -> Result<Outcome, Failed>
        requires { self.old.outs ≡ [] }
        ensures ok { IfOk result (λ outcome. Carries Order.Take self.old.service self.new.service self.new.outs outcome (L.coming link.old) (L.coming link.new)) }
        ensures err { OnErr result (Keeps (L.coming link.old) (L.coming link.new)) }
        ensures unsent { Keeps (L.sent link.old) (L.sent link.new) }
        ensures counted { Counts (L.faults link.old) (L.faults link.new) result }
    {
        let mut buf = [0; MAX_LEN];
        match link.take(&mut buf) {
            Taken::Datagram(len) => Ok(self.hear(&buf[..len])),
            Taken::Quiet => Ok(Outcome::Quiet),
            Taken::Ended => Ok(Outcome::Ended),
            Taken::Failed => Err(Failed),
        }
    }

    /// A datagram came.
    fn hear(&mut self, bytes: &[u8]) -> Outcome
        requires { self.old.outs ≡ [] }
        ensures { (heard : Heard) × Says bytes.now heard × (hearing self.old.service heard ≡ record { service = self.new.service; outs = self.new.outs; came_to = result }) }
    {
        let mut room = PageRoom::new();
        let mut packet = Packet::blank();
        match decode(bytes, &mut room, &mut packet) {
            Ok(()) => noted(self.service.on_refused(&packet)),
            Err(_) => Outcome::Malformed,
        }
    }

    /// Starts the next switch, which is told where to send.
    fn start(&mut self, live: &Live) -> Outcome
        requires { self.old.outs ≡ [] }
        ensures { does self.old.service (Deed.Starts live.now) ≡ record { service = self.new.service; outs = self.new.outs; came_to = result } }
    {
        match self.service.start(live.as_slice()) {
            Ok(number) => {
                let route = self.route();
                push(&mut self.outs, &route);
                Outcome::Started(number)
            }
            Err(fault) => Outcome::NotStarted(fault),
        }
    }

    /// What tells the newest switch where to send.
    fn route(&self) -> Packet<'static>
        ensures { result ≡ route_to_newest self.now.service }
    {
        Packet {
            src: Node::Config,
            dst: Node::Switch(self.service.newest()),
            body: Body::Route(self.service.route()),
        }
    }

    /// Writes the line of what an order came to.
    fn tell<K: Sink>(&mut self, outcome: Outcome, sink: &mut K) -> Result<(), NodeStatus>
        ensures told { Tells result (outcome_line outcome) (record { held = K.held sink.old; faults = K.faults sink.old }) (record { held = K.held sink.new; faults = K.faults sink.new }) }
        ensures same { self.new.service ≡ self.old.service }
    {
        self.text.clear();
        if write_line(outcome, &mut self.text).is_err() {
            return Err(NodeStatus::NoMemory);
        }
        match put_all(sink, self.text.as_slice()) {
            Ok(()) => Ok(()),
            Err(_) => Err(NodeStatus::WriteFault),
        }
    }
}
