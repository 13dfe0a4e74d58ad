ghost use Rattle.std.specs.Prelude.{◌≡◌, ◌≤◌};
ghost use Rattle.hm_base.specs.declared.node.Node.TheVariants as node;
ghost use Rattle.hm_packet.specs.declared.body.Body.TheVariants as body;
ghost use Rattle.hm_packet.specs.Messages.{IsLawfulNode};
ghost use Rattle.hm_rules.specs.ReplicaSteps as steps;

use hm_base::entry::{Act, Entry};
use hm_base::node::Node;
use hm_packet::body::{Body, Done, FastRead, NormalRead, Put, Reply};
use hm_packet::packet::Packet;

/// A packet from a replica.
#[inline(always)]
pub fn packet_from<'a>(me: u8, dst: Node, body: Body<'a>) -> Packet<'a>
    requires me { me ≤ 6 }
    requires dst { IsLawfulNode dst }
    ensures { result ≡ record { src = node.Replica me; dst = dst; body = body.entry } }
{
    Packet {
        src: Node::Replica(me),
        dst,
        body,
    }
}

/// The completion of a logged write, to the switch whose stamps are taken.
#[inline(always)]
pub fn done_packet(me: u8, accepted: u32, entry: &Entry) -> Packet<'static>
    requires { me ≤ 6 }
    ensures { result ≡ record { src = node.Replica me; dst = node.Switch accepted; body = body.Done (record { stamp = entry.now.stamp; client = entry.now.client; request = entry.now.request }) } }
{
    let done = Done {
        stamp: entry.stamp,
        client: entry.client,
        request: entry.request,
    };
    packet_from(me, Node::Switch(accepted), Body::Done(done))
}

/// The reply to a client.
#[inline(always)]
pub fn reply_packet(me: u8, client: u32, reply: Reply) -> Packet<'static>
    requires { me ≤ 6 }
    ensures { result ≡ record { src = node.Replica me; dst = node.Client client; body = body.Reply reply } }
{
    packet_from(me, Node::Client(client), Body::Reply(reply))
}

/// The entry of a write that an entry node takes.
#[inline(always)]
pub fn entry_of(put: &Put) -> Entry
    ensures { result ≡ steps.entry_of put.now }
{
    Entry {
        stamp: put.stamp,
        client: put.client,
        request: put.request,
        object: put.object,
        act: Act::Put(put.value),
    }
}

/// The normal read that a stamped read becomes where the test on its stamp fails.
pub fn as_normal(read: &FastRead) -> NormalRead
    ensures { result ≡ steps.as_normal read.now }
{
    NormalRead {
        client: read.client,
        request: read.request,
        object: read.object,
    }
}
