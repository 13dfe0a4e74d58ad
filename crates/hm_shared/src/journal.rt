ghost use Rattle.std.specs.Prelude.{◌≡◌};
ghost use Rattle.hm_shared.specs.Journal.{call_of, sent_form, kept_answer, record_of};

use hm_base::node::Node;
use hm_base::stamp::Stamp;
use hm_base::why::Why;
use hm_packet::body::{Body, Done, Read, Write};
use hm_packet::packet::Packet;
use hm_packet::route::Route;
use hm_packet::turn::Turn;

/// What a packet asked of a switch. Of a packet that no switch takes the code of its kind alone is kept.
#[derive(Drop)]
pub enum Call {
    Read(Read),
    Write(Write),
    Done(Done),
    Route(Route),
    Other { kind: u8 },
}

impl Call {
    /// The form in which a packet's body is kept.
    pub fn of(body: &Body) -> Call
        ensures { result ≡ call_of body.now }
    {
        match body {
            Body::Read(read) => Call::Read(*read),
            Body::Write(write) => Call::Write(*write),
            Body::Done(done) => Call::Done(*done),
            Body::Route(route) => Call::Route(route.copy()),
            Body::Put(_) => Call::Other { kind: 3 },
            Body::FastRead(_) => Call::Other { kind: 4 },
            Body::NormalRead(_) => Call::Other { kind: 5 },
            Body::Reply(_) => Call::Other { kind: 7 },
            Body::Feed(_) => Call::Other { kind: 8 },
            Body::FeedAck(_) => Call::Other { kind: 9 },
            Body::Ask(_) => Call::Other { kind: 10 },
            Body::Known(_) => Call::Other { kind: 11 },
            Body::StartViewChange(_) => Call::Other { kind: 12 },
            Body::Vote(_) => Call::Other { kind: 13 },
            Body::Pull(_) => Call::Other { kind: 14 },
            Body::Page(_) => Call::Other { kind: 15 },
            Body::Config(_) => Call::Other { kind: 16 },
            Body::Refuse(_) => Call::Other { kind: 18 },
            Body::Refused(_) => Call::Other { kind: 19 },
        }
    }

    /// An equal call.
    pub fn copy(&self) -> Call
        ensures { result ≡ self.now }
    {
        match self {
            Call::Read(read) => Call::Read(*read),
            Call::Write(write) => Call::Write(*write),
            Call::Done(done) => Call::Done(*done),
            Call::Route(route) => Call::Route(route.copy()),
            Call::Other { kind } => Call::Other { kind: *kind },
        }
    }
}

/// What a switch made of a packet, as far as the call doesn't tell it: what it sent follows from the call, the node that it went
/// to and its stamp.
#[derive(Clone, Copy, Debug, PartialEq, Eq)]
pub enum Turned1 {
    /// It sent a numbered write, a stamped read or a reply.
    Sent { dst: Node, stamp: Stamp },
    /// It sent a read that goes the protocol's normal way.
    Plain { dst: Node },
    Noted,
    Ignored(Why),
    Full,
}

impl Turned1 {
    /// The form in which a turn's answer is kept. None exactly for a switch that is spent, which made no turn.
    pub fn of(turn: &Turn) -> Option<Turned1>
        ensures { result ≡ kept_answer turn.now }
    {
        match turn {
            Turn::Sent(packet) => Some(sent_form(packet.dst, &packet.body)),
            Turn::Noted => Some(Turned1::Noted),
            Turn::Ignored(why) => Some(Turned1::Ignored(*why)),
            Turn::Full => Some(Turned1::Full),
            Turn::Spent => None,
        }
    }
}

/// The form in which a packet that was sent is kept.
fn sent_form(dst: Node, body: &Body) -> Turned1
    ensures { result ≡ sent_form dst body.now }
{
    match body {
        Body::Put(put) => Turned1::Sent {
            dst,
            stamp: put.stamp,
        },
        Body::FastRead(read) => Turned1::Sent {
            dst,
            stamp: read.stamp,
        },
        Body::Reply(reply) => Turned1::Sent {
            dst,
            stamp: reply.version,
        },
        _ => Turned1::Plain { dst },
    }
}

/// A turn of a switch as the journal keeps it: who made it, between which nodes the packet went, what the packet asked, and what
/// the switch made of it.
#[derive(Drop)]
pub struct Record {
    pub seat: u8,
    pub src: Node,
    pub dst: Node,
    pub call: Call,
    pub turn: Turned1,
}

const _: () = prove!(std::mem::size_of::<Record>() <= 256);

impl Record {
    /// The record of a turn. None exactly where the switch was spent.
    pub fn of(seat: u8, packet: &Packet, turn: &Turn) -> Option<Record>
        ensures { result ≡ record_of (record { seat = seat; packet = packet.now; answer = turn.now }) }
    {
        let turn = Turned1::of(turn)?;
        Some(Record {
            seat,
            src: packet.src,
            dst: packet.dst,
            call: Call::of(&packet.body),
            turn,
        })
    }

    /// An equal record.
    pub fn copy(&self) -> Record
        ensures { result ≡ self.now }
    {
        Record {
            seat: self.seat,
            src: self.src,
            dst: self.dst,
            call: self.call.copy(),
            turn: self.turn,
        }
    }
}
