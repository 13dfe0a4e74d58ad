ghost use Rattle.std.specs.Prelude.{◌≡◌};
ghost use Rattle.hm_rules.specs.Deliveries as arrival;
ghost use Rattle.hm_rules.specs.Happens as rules;

use hm_base::node::Node;
use hm_base::operation::{Answer, OpId};
use hm_order::mark::Want;
use hm_packet::body::{Body, Read, Write};
use hm_packet::packet::Packet;

/// Whether an answer is one that the operation can have: a write is answered by Wrote, a read by anything else.
pub(crate) fn fits(want: &Want, answer: &Answer) -> bool
    ensures { result ≡ arrival.fits want.now answer.now }
{
    match (want, answer) {
        (Want::Read { .. }, Answer::Wrote) => false,
        (Want::Read { .. }, _) => true,
        (Want::Write { .. }, Answer::Wrote) => true,
        (Want::Write { .. }, _) => false,
    }
}

/// A client's request to a switch.
pub(crate) fn request_to(op: OpId, want: &Want, switch: u32) -> Packet
    ensures { result ≡ record { src = Node.Client op.client; dst = Node.Switch switch; body = rules.asks op.request want.now } }
{
    let request = op.request;
    Packet {
        src: Node::Client(op.client),
        dst: Node::Switch(switch),
        body: match want {
            Want::Read { object } => Body::Read(Read {
                request,
                object: *object,
            }),
            Want::Write { object, value } => Body::Write(Write {
                request,
                object: *object,
                value: *value,
            }),
        },
    }
}
