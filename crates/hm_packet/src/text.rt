ghost use Rattle.std.specs.Prelude.{◌≡◌, [], ◌∷◌, ◌++◌, OnOk, OnErr};
ghost use Rattle.hm_base.specs.Lists.{IsPrefix};
ghost use Rattle.hm_base.specs.Spellings.{joined, node_text};
ghost use Rattle.hm_packet.specs.Texts.{packet_text};

use crate::packet::Packet;
use crate::words::write_body;
use hm_base::buffer::Text;
use hm_base::memory::NoMemory;
use hm_base::node::Node;
use hm_base::text::write_node;

/// Appends a packet's source and destination. After want of memory `out` begins with what it held.
pub fn write_ends(src: Node, dst: Node, out: &mut Text) -> Result<(), NoMemory>
    ensures ok { OnOk result (out.new.items ≡ out.old.items ++ joined (node_text src ∷ node_text dst ∷ [])) }
    ensures err { OnErr result (IsPrefix out.old.items out.new.items) }
{
    write_node(src, out)?;
    out.push(b' ')?;
    write_node(dst, out)
}

/// Appends a packet's text, or some of it.
fn push_packet(packet: &Packet, out: &mut Text) -> Result<(), NoMemory>
    ensures ok { OnOk result (out.new.items ≡ out.old.items ++ packet_text packet.now) }
    ensures err { OnErr result (IsPrefix out.old.items out.new.items) }
{
    write_ends(packet.src, packet.dst, out)?;
    write_body(&packet.body, out)
}

/// Appends a packet's text. After want of memory `out` is as before.
pub fn write_packet(packet: &Packet, out: &mut Text) -> Result<(), NoMemory>
    ensures ok { OnOk result (out.new.items ≡ out.old.items ++ packet_text packet.now) }
    ensures err { OnErr result (out.new.items ≡ out.old.items) }
{
    let len = out.len();
    let written = push_packet(packet, out);
    if written.is_err() {
        out.truncate(len);
    }
    written
}
