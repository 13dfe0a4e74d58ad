ghost use Rattle.std.specs.Prelude.{◌≡◌, ◌≤◌, ◌++◌, length, IfOk, IfErr};
ghost use Rattle.hm_base.specs.Lists.{IsPrefix};
ghost use Rattle.hm_wire.specs.Reading.{Gives, packet_of};
ghost use Rattle.hm_wire_text.specs.Worded.{told, Tells};

use crate::words::body_words;
use hm_base::buffer::Text;
use hm_base::memory::NoMemory;
use hm_packet::text::write_ends;
use hm_wire::fault::{Fault, malformed};
use hm_wire::head::head_at;
use hm_wire::laws::reading_is_exact;
use hm_wire::malformed::{Malformed, Reason};

/// Appends the text of the packet that the bytes spell, or answers their first fault and leaves `out` as it was. No packet is made
/// of them. After want of memory `out` begins with what it held.
pub fn write_spelled(bytes: &[u8], out: &mut Text) -> Result<Result<(), Malformed>, NoMemory>
    ensures tells { IfOk result (λ r. Tells r bytes.now out.old.items out.new.items) }
    ensures place { IfOk result (λ r. IfErr r (λ m. m.at ≤ length bytes.now)) }
    ensures front { IsPrefix out.old.items out.new.items }
{
    reading_is_exact();
    let len = out.len();
    match packet_words(bytes, out)? {
        Ok(()) => Ok(Ok(())),
        Err(fault) => {
            out.truncate(len);
            Ok(Err(malformed(bytes.len(), fault)))
        }
    }
}

/// Reads a packet, and appends its text. What is appended where a fault is found is a part of it.
fn packet_words(bytes: &[u8], out: &mut Text) -> Result<Result<(), Fault>, NoMemory>
    ensures text { IfOk result (λ r. Gives (λ u. out.new.items) r (told out.old.items (packet_of bytes.now))) }
    ensures front { IsPrefix out.old.items out.new.items }
{
    match head_at(bytes) {
        Ok((head, rest)) => {
            write_ends(head.src, head.dst, out)?;
            match body_words(head.code, rest, out)? {
                Ok([]) => Ok(Ok(())),
                Ok(rest) => Ok(Err(Fault {
                    left: rest.len(),
                    reason: Reason::Rest,
                })),
                Err(fault) => Ok(Err(fault)),
            }
        }
        Err(fault) => Ok(Err(fault)),
    }
}
