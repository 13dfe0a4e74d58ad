ghost use Rattle.std.specs.Prelude.{◌≡◌, slice_get};
ghost use Rattle.hm_base.specs.Lists.{IsIn};
ghost use Rattle.hm_rules.specs.World as rule;
ghost use Rattle.hm_rules.specs.Deliveries as arrival;
ghost use Rattle.hm_rules.specs.Happens as rules;
ghost use Rattle.hm_rules.specs.Service as service;

use crate::state::State;
use hm_base::entries::PageRoom;
use hm_base::node::Node;
use hm_base::why::Why;
use hm_codec::acted::Acted;
use hm_packet::acted::Did;
use hm_packet::outcome::{Bar, Outcome};
use hm_packet::packet::Packet;
use hm_packet::turn::Turn;

impl State {
    ghost use Rattle.hm_world.specs.StateFields.{world_of, delivered, passed_on, arrives, switched, IsBegun, Quietly, Ends};

    /// The packet of this number arrives, whether or not it did before.
    pub(crate) fn deliver_again(
        &mut self,
        number: u32,
        acted: &mut Acted,
        room: &mut PageRoom,
    ) -> Outcome
        requires { IsBegun self.old }
        ensures { Ends self.old self.new result (delivered self.old (rule.sent_at (world_of self.old) number)) }
    {
        if number == 0 {
            return Outcome::NotAllowed(Bar::NoPacket);
        }
        let mut packet = Packet::blank();
        if !self.net.read(number - 1, room, &mut packet) {
            return Outcome::NotAllowed(Bar::NoPacket);
        }
        self.deliver(&packet, acted)
    }

    /// The packet at the cursor arrives, if there is one.
    pub(crate) fn next(&mut self, acted: &mut Acted, room: &mut PageRoom) -> Outcome
        requires { IsBegun self.old }
        ensures { Ends self.old self.new result (passed_on self.old (slice_get self.old.net.packets self.old.net.cursor)) }
    {
        let mut packet = Packet::blank();
        if !self.net.read(self.net.cursor(), room, &mut packet) {
            return Outcome::NotAllowed(Bar::NoPacket);
        }
        self.net.pass();
        self.deliver(&packet, acted)
    }

    /// The cursor passes over a packet, which doesn't arrive.
    pub(crate) fn lose_next(&mut self) -> Outcome
        requires { IsBegun self.old }
        ensures { Quietly self.old self.new result (rules.drops (world_of self.old) (slice_get self.old.net.packets self.old.net.cursor)) }
    {
        if self.net.cursor() >= self.net.len() {
            return Outcome::NotAllowed(Bar::NoPacket);
        }
        self.net.pass();
        self.none_sent()
    }

    /// A packet that was sent arrives at the node that it is addressed to.
    fn deliver(&mut self, packet: &Packet, acted: &mut Acted) -> Outcome
        requires begun { IsBegun self.old }
        requires sent { IsIn packet.now self.old.net.packets }
        ensures { Ends self.old self.new result (arrives self.old packet.now packet.now.dst) }
    {
        match packet.dst {
            Node::Client(number) => self.to_client(number, &packet.body),
            Node::Switch(number) => self.to_switch(number, packet),
            Node::Replica(number) => self.to_replica(number, packet, acted),
            Node::Config => self.to_service(packet),
        }
    }

    /// A packet arrives at a switch.
    fn to_switch(&mut self, number: u32, packet: &Packet) -> Outcome
        requires { IsBegun self.old }
        ensures { Ends self.old self.new result (switched self.old packet.now number) }
    {
        if !self.switches.is_started(number) {
            return Outcome::Ignored(Why::Gone);
        }
        let first = self.net.len() + 1;
        match self.switches.step(number, packet) {
            Turn::Sent(sent) => {
                self.net.post(&sent);
                Outcome::Ok { first, count: 1 }
            }
            Turn::Noted => Outcome::Ok { first, count: 0 },
            Turn::Ignored(why) => Outcome::Ignored(why),
            Turn::Full => Outcome::Full,
            Turn::Spent => Outcome::Spent,
        }
    }

    /// A packet arrives at the service.
    fn to_service(&mut self, packet: &Packet) -> Outcome
        requires { IsBegun self.old }
        ensures { Quietly self.old self.new result (arrival.to_service (world_of self.old) (service.service_step self.old.service packet.now)) }
    {
        match self.service.on_refused(packet) {
            Did::Done => self.none_sent(),
            Did::Ignored(why) => Outcome::Ignored(why),
            Did::LogFull => Outcome::Ignored(Why::Status),
        }
    }
}
