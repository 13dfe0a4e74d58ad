ghost use Rattle.std.specs.Prelude.{◌≡◌, ◌<◌, ◌++◌, ◌∷◌, [], length, slice_get, Some, vec_len, vec_capacity, false, take};
ghost use Rattle.hm_base.specs.Lists.{IsIn};
ghost use Rattle.hm_rules.specs.Numbers.{stands_in};
ghost use Rattle.hm_rules.specs.Replica.{Replica};
ghost use Rattle.hm_rules.specs.Deliveries as arrival;
ghost use Rattle.hm_rules.specs.Happens as rules;
ghost use Rattle.hm_rules.specs.World as rule;
ghost use Rattle.hm_world.specs.Settled.{settled, live_bar};

use crate::state::State;
use hm_base::node::Node;
use hm_base::why::Why;
use hm_codec::acted::Acted;
use hm_packet::acted::Did;
use hm_packet::outcome::{Bar, Outcome};
use hm_packet::packet::Packet;
use hm_schedule::event::Event;

impl State {
    ghost use Rattle.hm_schedule.specs.Setups.{event_of};
    ghost use Rattle.hm_world.specs.StateFields.{world_of, HasRoom, IsBegun, Quietly};

    /// A packet arrives at a replica.
    pub(crate) fn to_replica(&mut self, number: u8, packet: &Packet, acted: &mut Acted) -> Outcome
        requires begun { IsBegun self.old }
        requires sent { IsIn packet.now self.old.net.packets }
        requires here { packet.now.dst ≡ Node.Replica number }
        ensures { Quietly self.old self.new result (arrival.to_replica (world_of self.old) packet.now number (slice_get self.old.group.replicas number)) }
    {
        if self.bar_at(number).is_some() {
            return Outcome::Ignored(Why::Gone);
        }
        self.group.step(number, packet, acted);
        self.settle(number, acted)
    }

    /// A replica's clock ticks.
    pub(crate) fn tick(&mut self, number: u8, acted: &mut Acted) -> Outcome
        requires { IsBegun self.old }
        ensures { Quietly self.old self.new result (rules.happens (world_of self.old) (event_of (Event.Tick number)) false) }
    {
        if let Some(bar) = self.bar_at(number) {
            return Outcome::NotAllowed(bar);
        }
        self.group.tick(number, acted);
        self.settle(number, acted)
    }

    /// A replica has waited too long for its leader.
    pub(crate) fn timeout(&mut self, number: u8, acted: &mut Acted) -> Outcome
        requires { IsBegun self.old }
        ensures { Quietly self.old self.new result (rules.happens (world_of self.old) (event_of (Event.Timeout number)) false) }
    {
        if !self.group.is_fixed() {
            return Outcome::NotAllowed(Bar::NotVr);
        }
        if let Some(bar) = self.bar_at(number) {
            return Outcome::NotAllowed(bar);
        }
        self.group.timeout(number, acted);
        self.settle(number, acted)
    }

    /// A replica stops for good.
    pub(crate) fn stop(&mut self, number: u8) -> Outcome
        requires { IsBegun self.old }
        ensures { Quietly self.old self.new result (rules.happens (world_of self.old) (event_of (Event.Stop number)) false) }
    {
        if let Some(bar) = self.bar_at(number) {
            return Outcome::NotAllowed(bar);
        }
        put(&mut self.stopped, number);
        self.none_sent()
    }

    /// Why a replica can't act, if it can't: it isn't there, or it is stopped.
    fn bar_at(&self, number: u8) -> Option<Bar>
        ensures { result ≡ live_bar (world_of self.now) number }
    {
        if number as usize >= self.group.len() {
            Some(Bar::Member)
        } else if is_in(number, &self.stopped) {
            Some(Bar::Stopped)
        } else {
            None
        }
    }

    /// What a replica's step gave: what it declared joins the declared list, and what it sent the net.
    fn settle(&mut self, number: u8, acted: &Acted) -> Outcome
        requires room { HasRoom self.old }
        requires there { number < length self.old.group.replicas }
        requires front { (r : Replica)
            → slice_get self.old.group.replicas number ≡ Some r
            → acted.now.did ≡ Did.Done
            → length self.old.observer.declared < acted.now.declared.to
            → take (length self.old.observer.declared) r.log ≡ self.old.observer.declared }
        ensures { (r : Replica) → slice_get self.old.group.replicas number ≡ Some r → Quietly self.old self.new result (settled (world_of self.old) r.log acted.now acted.now.did) }
    {
        let first = self.net.len() + 1;
        match acted.did {
            Did::Done => {
                let count = acted.outs.len();
                let log = self.group.log(number);
                self.observer.declare(log, acted.declared.to);
                self.net.post_all(&acted.outs);
                Outcome::Ok { first, count }
            }
            Did::Ignored(why) => Outcome::Ignored(why),
            Did::LogFull => Outcome::LogFull,
        }
    }
}

/// Puts a number into room that is there.
fn put(numbers: &mut Vec<u8>, number: u8)
    requires { vec_len numbers.old < vec_capacity numbers.old }
    ensures items { numbers.new.items ≡ numbers.old.items ++ number ∷ [] }
{
    let pushed: Result<_, _> = numbers.push(number);
    pushed.unwrap();
}

/// Whether a number stands in a list.
pub(crate) fn is_in(number: u8, list: &[u8]) -> bool
    ensures { result ≡ stands_in number list.now }
{
    list.iter().any(|other| *other == number)
}
