ghost use Rattle.std.specs.Prelude.{◌≡◌, List, OnOk, OnErr};
ghost use Rattle.hm_base.specs.Lists.{IsPrefix};
ghost use Rattle.hm_worker.specs.Posts.{posts_of};
ghost use Rattle.hm_frame.specs.Links.{Gets, Keeps};
ghost use Rattle.hm_outside.specs.Faults.{Counts};
ghost use Rattle.hm_packet.specs.Messages.{Message};
ghost use Rattle.hm_wire.specs.Packets.{spelling, HasSpelling};

use hm_base::node::Node;
use hm_codec::outs::Outs;
use hm_frame::link::Link;
use hm_frame::link_law::link_calls_add_up;
use hm_outside::device::Failed;
use hm_wire::head::head_at;
use hm_wire::laws::spelling_is_read_back;

/// Where a packet goes, read off its spelling.
fn destination(spelled: &[u8]) -> Node
    ensures { (m : Message) → HasSpelling m → spelled.now ≡ spelling m → result ≡ m.dst }
{
    spelling_is_read_back();
    match head_at(spelled) {
        Ok((head, _)) => head.dst,
        Err(_) => Node::Config,
    }
}

/// Sends packets in order, each as a datagram to its destination. Where a send fails, those before it were sent.
pub fn send_all<L: Link>(outs: &Outs, link: &mut L) -> Result<(), Failed>
    ensures ok { OnOk result (Gets (L.sent link.old) (L.sent link.new) (posts_of outs.now)) }
    ensures err { OnErr result ((front : List Message) × IsPrefix front outs.now × Gets (L.sent link.old) (L.sent link.new) (posts_of front)) }
    ensures untaken { Keeps (L.coming link.old) (L.coming link.new) }
    ensures counted { Counts (L.faults link.old) (L.faults link.new) result }
{
    link_calls_add_up();
    let bytes = outs.bytes();
    let mut begin = 0;
    for end in outs.ends() {
        let spelled = &bytes[begin..*end as usize];
        link.send(destination(spelled), spelled)?;
        begin = *end as usize;
    }
    Ok(())
}
