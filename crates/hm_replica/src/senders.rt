ghost use Rattle.std.specs.Prelude.{◌≡◌};
ghost use Rattle.hm_base.specs.declared.node.Node.TheVariants as nodes;
ghost use Rattle.hm_replica.specs.Refusals as refusals;
ghost use Rattle.hm_rules.specs.Senders as rules;
ghost use Rattle.hm_rules.specs.ReplicaSteps as steps;

use hm_base::node::Node;
use hm_base::why::Why;
use hm_packet::body::Body;
use hm_packet::packet::Packet;

/// Why a replica takes no notice of a packet whatever it says: another node is addressed, its protocol has no row for the
/// kind, or the sender may not send it.
pub fn refusal(me: u8, takes: bool, packet: &Packet) -> Option<Why>
    ensures { result ≡ refusals.refusal me takes packet.now }
{
    if !is_replica(packet.dst, me) {
        Some(Why::NotForMe)
    } else if !takes {
        Some(Why::Kind)
    } else if is_foreign(me, packet.src, &packet.body) {
        Some(Why::Foreign)
    } else {
        None
    }
}

/// A client's, switch's or replica's number.
pub fn number(node: Node) -> u32
    ensures { result ≡ rules.number node }
{
    match node {
        Node::Client(number) | Node::Switch(number) => number,
        Node::Replica(number) => u32::from(number),
        Node::Config => 0,
    }
}

/// Whether a body may not come from a node to this replica.
fn is_foreign(me: u8, src: Node, body: &Body) -> bool
    ensures { result ≡ refusals.is_foreign_from me src body.now }
{
    !may_send(src, body) || !is_of_its_switch(src, body) || is_replica(src, me)
}

/// Whether the node is this replica.
fn is_replica(node: Node, me: u8) -> bool
    ensures { result ≡ rules.same_node node (nodes.Replica me) }
{
    match node {
        Node::Replica(number) => number == me,
        _ => false,
    }
}

/// Whether the node is this switch.
fn is_switch(node: Node, switch: u32) -> bool
    ensures { result ≡ rules.same_node node (nodes.Switch switch) }
{
    match node {
        Node::Switch(number) => number == switch,
        _ => false,
    }
}

/// Whether a numbered write or a stamped read comes from the switch that its stamp names.
fn is_of_its_switch(src: Node, body: &Body) -> bool
    ensures { result ≡ steps.is_of_its_switch src body.now }
{
    match body {
        Body::Put(put) => is_switch(src, put.stamp.switch),
        Body::FastRead(read) => is_switch(src, read.stamp.switch),
        _ => true,
    }
}

/// Whether a node of this kind sends such bodies.
fn may_send(src: Node, body: &Body) -> bool
    ensures { result ≡ rules.may_send src body.now }
{
    match src {
        Node::Client(_) => matches!(body, Body::Read(_) | Body::Write(_)),
        Node::Switch(_) => matches!(
            body,
            Body::Put(_) | Body::FastRead(_) | Body::NormalRead(_) | Body::Reply(_)
        ),
        Node::Replica(_) => !matches!(
            body,
            Body::Read(_)
                | Body::Write(_)
                | Body::Put(_)
                | Body::FastRead(_)
                | Body::Config(_)
                | Body::Refuse(_)
        ),
        Node::Config => matches!(body, Body::Config(_) | Body::Route(_) | Body::Refuse(_)),
    }
}
