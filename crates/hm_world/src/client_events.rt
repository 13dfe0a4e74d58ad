ghost use Rattle.std.specs.Prelude.{◌≡◌, false};
ghost use Rattle.hm_rules.specs.World as rule;
ghost use Rattle.hm_rules.specs.Deliveries as arrival;
ghost use Rattle.hm_rules.specs.Happens as rules;

use crate::client::{fits, request_to};
use crate::state::State;
use hm_base::operation::OpId;
use hm_base::why::Why;
use hm_order::mark::{Mark, Want};
use hm_packet::body::{Body, Reply};
use hm_packet::outcome::{Bar, Outcome};
use hm_parts::clients::ClientState;
use hm_schedule::event::Event;

impl State {
    ghost use Rattle.hm_schedule.specs.Setups.{event_of};
    ghost use Rattle.hm_world.specs.StateFields.{world_of, IsBegun, Quietly};

    /// A client invokes an operation and sends it to a switch.
    pub(crate) fn invoke(&mut self, number: u32, want: Want, switch: u32) -> Outcome
        requires { IsBegun self.old }
        ensures { Quietly self.old self.new result (rules.invokes (world_of self.old) (rule.client_of (world_of self.old) number) want switch) }
    {
        if !self.switches.is_started(switch) {
            return Outcome::NotAllowed(Bar::NoSwitch);
        }
        let before = self.clients.get(number);
        if before.outstanding.is_some() {
            return Outcome::NotAllowed(Bar::Busy);
        }
        let first = self.net.len() + 1;
        let op = OpId {
            client: number,
            request: before.request + 1,
        };
        let client = ClientState {
            request: op.request,
            outstanding: Some(want),
        };
        self.clients.keep(number, client);
        self.observer.mark(Mark::Invoke { op, want });
        self.net.post(&request_to(op, &want, switch));
        Outcome::Ok { first, count: 1 }
    }

    /// A client sends its outstanding request once more.
    pub(crate) fn resend(&mut self, number: u32, switch: u32) -> Outcome
        requires { IsBegun self.old }
        ensures { Quietly self.old self.new result (rules.happens (world_of self.old) (event_of (Event.Resend number switch)) false) }
    {
        if !self.switches.is_started(switch) {
            return Outcome::NotAllowed(Bar::NoSwitch);
        }
        let client = self.clients.get(number);
        let outstanding = client.outstanding;
        match outstanding {
            None => Outcome::NotAllowed(Bar::Idle),
            Some(want) => {
                let first = self.net.len() + 1;
                let op = OpId {
                    client: number,
                    request: client.request,
                };
                self.net.post(&request_to(op, &want, switch));
                Outcome::Ok { first, count: 1 }
            }
        }
    }

    /// A client takes the reply to its outstanding request.
    pub(crate) fn to_client(&mut self, number: u32, body: &Body) -> Outcome
        requires { IsBegun self.old }
        ensures { Quietly self.old self.new result (arrival.to_client (world_of self.old) (rule.client_of (world_of self.old) number) body.now) }
    {
        match body {
            Body::Reply(reply) => self.take_reply(number, reply),
            _ => Outcome::Ignored(Why::Foreign),
        }
    }

    /// The reply is taken where it answers the client's outstanding request.
    fn take_reply(&mut self, number: u32, reply: &Reply) -> Outcome
        requires { IsBegun self.old }
        ensures { Quietly self.old self.new result (arrival.on_reply (world_of self.old) (rule.client_of (world_of self.old) number) reply.now (rule.client_of (world_of self.old) number).outstanding) }
    {
        let client = self.clients.get(number);
        let outstanding = client.outstanding;
        match outstanding {
            None => Outcome::Ignored(Why::Repeat),
            Some(want) => {
                if client.request != reply.request {
                    return Outcome::Ignored(Why::Repeat);
                }
                if !fits(&want, &reply.answer) {
                    return Outcome::Ignored(Why::Foreign);
                }
                let op = OpId {
                    client: number,
                    request: reply.request,
                };
                let answered = ClientState {
                    request: client.request,
                    outstanding: None,
                };
                self.clients.keep(number, answered);
                self.observer.mark(Mark::Reply {
                    op,
                    version: reply.version,
                    answer: reply.answer,
                });
                self.none_sent()
            }
        }
    }
}
