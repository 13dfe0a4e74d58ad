ghost use Rattle.std.specs.Prelude.{◌≡◌, ◌<◌, ◌≤◌, ◌+◌, ◌++◌, length};
ghost use Rattle.hm_base.specs.declared.node.Node.TheVariants as node;
ghost use Rattle.hm_base.specs.Logs.{page};
ghost use Rattle.hm_packet.specs.declared.body.Body.TheVariants as body;
ghost use Rattle.hm_rules.specs.Votes as votes;
ghost use Rattle.hm_rules.specs.ViewChange as rules;
ghost use Rattle.hm_viewchange.specs.Parts.{bare};

use crate::group::primary_of;
use crate::vr_core::VrCore;
use hm_base::node::Node;
use hm_codec::outs::Outs;
use hm_packet::body::{Body, Page, Pull, StartViewChange, Vote};
use hm_packet::packet::Packet;
use hm_replica::acts::push;
use hm_replica::packets::packet_from;

/// What this replica votes.
pub(crate) fn own_vote(core: &VrCore) -> Vote
    ensures value { result ≡ votes.own_vote (bare core.now) }
    ensures room { result.len ≤ core.now.shim.cap }
{
    Vote {
        view: core.view,
        normal: core.normal,
        len: core.shim.log().len(),
        commit: core.shim.log().applied_len(),
    }
}

/// This replica's vote, to the primary of its view.
pub(crate) fn vote_packet(core: &VrCore) -> Packet<'static>
    requires me { core.now.me < core.now.size }
    requires size { core.now.size ≤ 7 }
    ensures { result ≡ rules.vote_to_primary (bare core.now) }
{
    let primary = primary_of(core, core.view);
    packet_from(core.me, Node::Replica(primary), Body::Vote(own_vote(core)))
}

/// The chosen replica is asked for its log from a length on.
pub(crate) fn pull_packet(core: &VrCore, chosen: u8, held: u32) -> Packet<'static>
    requires me { core.now.me ≤ 6 }
    requires chosen { chosen ≤ 6 }
    ensures { result ≡ record { src = node.Replica core.now.me; dst = node.Replica chosen; body = body.Pull (record { view = core.now.view; first = held }) } }
{
    let pull = Pull {
        view: core.view,
        first: held,
    };
    packet_from(core.me, Node::Replica(chosen), Body::Pull(pull))
}

/// The page of the log from a place on, to the primary of the view.
pub(crate) fn page_packet(core: &VrCore, primary: u8, first: u32) -> Packet<'_>
    requires me { core.now.me ≤ 6 }
    requires primary { primary ≤ 6 }
    ensures { result ≡ record { src = node.Replica core.now.me; dst = node.Replica primary; body = body.Page (record { view = core.now.view; first = first; entries = page core.now.shim.entries first }) } }
{
    let sent = Page {
        view: core.view,
        first,
        entries: core.shim.log().page(first),
    };
    packet_from(core.me, Node::Replica(primary), Body::Page(sent))
}

/// Puts behind the packets, for each other replica, that this one enters the view.
pub(crate) fn push_starts(core: &VrCore, outs: &mut Outs)
    requires me { core.now.me < core.now.size }
    requires size { core.now.size ≤ 7 }
    requires room { length outs.old ≤ 8 }
    ensures value { outs.new ≡ outs.old ++ rules.start_to_others (bare core.now) }
    ensures few { length outs.new ≤ length outs.old + 7 }
{
    for other in 0..core.size {
        if other != core.me {
            push(outs, &start_packet(core, other));
        }
    }
}

/// This replica enters its view.
fn start_packet(core: &VrCore, other: u8) -> Packet<'static>
    requires me { core.now.me ≤ 6 }
    requires other { other ≤ 6 }
    ensures { result ≡ record { src = node.Replica core.now.me; dst = node.Replica other; body = body.StartViewChange (record { view = core.now.view }) } }
{
    let start = StartViewChange { view: core.view };
    packet_from(core.me, Node::Replica(other), Body::StartViewChange(start))
}
