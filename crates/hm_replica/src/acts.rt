ghost use Rattle.std.specs.Prelude.{◌≡◌, ◌<◌, ◌≤◌, ◌+◌, ◌^◌, max, [], ◌∷◌, ◌++◌, length};
ghost use Rattle.hm_base.specs.declared.node.Node.TheVariants as node;
ghost use Rattle.hm_packet.specs.Steps.{max_outs};
ghost use Rattle.hm_packet.specs.declared.body.Body.TheVariants as body;
ghost use Rattle.hm_rules.specs.ReplicaSteps.{nothing};
ghost use Rattle.hm_replica.specs.Steps.{ignored_act, log_full_act, sends_act};

use crate::packets::packet_from;
use hm_base::node::Node;
use hm_base::why::Why;
use hm_codec::acted::Acted;
use hm_codec::outs::Outs;
use hm_packet::acted::{Declared, Did};
use hm_packet::body::{Body, Refused};
use hm_packet::packet::Packet;
use hm_shim::shim::Shim;

/// The empty range of a log.
const NOTHING: Declared = Declared { from: 0, to: 0 };

/// A step that has sent nothing yet.
pub fn blank() -> Acted
    ensures { result ≡ sends_act [] }
{
    Acted {
        outs: Outs::new(),
        declared: NOTHING,
        did: Did::Done,
    }
}

/// No notice is taken of a packet.
#[inline(always)]
pub fn ignore(acted: &mut Acted, why: Why)
    ensures { acted.new ≡ ignored_act why }
{
    end(acted, Did::Ignored(why));
}

/// The log has no room for a packet.
#[inline(always)]
pub fn log_full(acted: &mut Acted)
    ensures { acted.new ≡ log_full_act }
{
    end(acted, Did::LogFull);
}

/// A step that sends and declares nothing.
#[inline(always)]
pub fn send_none(acted: &mut Acted)
    ensures { acted.new ≡ sends_act [] }
{
    end(acted, Did::Done);
}

/// A step that sends one packet and declares nothing.
#[inline(always)]
pub fn send_one(acted: &mut Acted, packet: &Packet)
    ensures { acted.new ≡ sends_act (packet.now ∷ []) }
{
    send_none(acted);
    push(&mut acted.outs, packet);
}

/// Nothing more is taken of a switch and of those before it, which is told to the service each time that it asks.
pub fn refuse(acted: &mut Acted, me: u8, shim: &mut Shim, switch: u32)
    requires me { me ≤ 6 }
    requires next { switch + 1 < 2 ^ 32 }
    ensures shim { shim.new ≡ record shim.old { accepted = max shim.old.accepted (switch + 1) } }
    ensures acted { acted.new ≡ sends_act (record { src = node.Replica me; dst = node.Config; body = body.Refused (record { switch = switch }) } ∷ []) }
{
    let _ = shim.refuse(switch);
    let refused = Body::Refused(Refused { switch });
    send_one(acted, &packet_from(me, Node::Config, refused));
}

/// A step that sends and declares nothing ends so.
#[inline(always)]
fn end(acted: &mut Acted, did: Did)
    ensures { acted.new ≡ record { outs = []; declared = nothing; did = did } }
{
    acted.outs.clear();
    acted.declared = NOTHING;
    acted.did = did;
}

/// Puts a packet behind the others, where there is room for it.
#[inline(always)]
pub fn push(outs: &mut Outs, packet: &Packet)
    requires { length outs.old < max_outs }
    ensures { outs.new ≡ outs.old ++ packet.now ∷ [] }
{
    let _ = outs.try_push(packet);
}
