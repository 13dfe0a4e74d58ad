ghost use Rattle.std.specs.Prelude.{◌≡◌, ◌≤◌, [], ◌∷◌, ◌++◌, OnOk, IfOk};
ghost use Rattle.hm_rules.specs.RunText.{packet_lines, too_long_text};
ghost use Rattle.hm_show.specs.Steps.{TakesLine};
ghost use Rattle.hm_show.specs.Shows.{max_frames, reason_text, end_text, bad_frame_text, closing_text};

use crate::verdict::Verdict;
use hm_base::buffer::Text;
use hm_base::memory::NoMemory;
use hm_base::text::{write_bytes, write_number};
use hm_frame::frame::Unframer;
use hm_wire::malformed::{Malformed, Reason};

/// Takes the next frame and appends its packet's line: its number, counted from 1, and the packet's text. False while the frame
/// isn't there to its end; then, and where it is at fault, `out` is as it was. After want of memory `out` may hold a part of what
/// was to be appended, here and in the other calls of this module.
pub fn write_next_line(
    unframer: &mut Unframer,
    number: u32,
    out: &mut Text,
) -> Result<Result<bool, Malformed>, NoMemory>
    ensures { IfOk result (λ r. TakesLine r number unframer.old unframer.new out.old.items out.new.items) }
{
    let len = out.len();
    write_bytes(b"packet ", out)?;
    write_number(u64::from(number), out)?;
    out.push(b' ')?;
    let taken = unframer.next_text(out)?;
    if let Ok(true) = taken {
        out.push(b'\n')?;
    } else {
        out.truncate(len);
    }
    Ok(taken)
}

/// Appends the last line where the input was frames to its end: how many.
fn write_end(count: u32, out: &mut Text) -> Result<(), NoMemory>
    ensures { OnOk result (out.new.items ≡ out.old.items ++ end_text count) }
{
    write_bytes(b"end ", out)?;
    write_number(u64::from(count), out)?;
    write_bytes(b"\n", out)
}

/// Appends the last line where a frame is at fault: its number, and the place and the reason of the fault.
fn write_bad_frame(number: u32, fault: Malformed, out: &mut Text) -> Result<(), NoMemory>
    ensures { OnOk result (out.new.items ≡ out.old.items ++ bad_frame_text number fault) }
{
    write_bytes(b"bad ", out)?;
    write_number(u64::from(number), out)?;
    write_bytes(b" ", out)?;
    write_number(u64::from(fault.at), out)?;
    write_bytes(b" ", out)?;
    write_bytes(reason_name(fault.reason).as_bytes(), out)?;
    write_bytes(b"\n", out)
}

/// Appends the last line where the input goes on past the limit: the number of the line or frame that is one too many.
pub fn write_too_long(number: u32, out: &mut Text) -> Result<(), NoMemory>
    ensures { OnOk result (out.new.items ≡ out.old.items ++ too_long_text number) }
{
    write_bytes(b"toolong ", out)?;
    write_number(u64::from(number), out)?;
    write_bytes(b"\n", out)
}

/// Appends the end of the text after so many packets.
pub(crate) fn write_closing(verdict: Verdict, count: u32, out: &mut Text) -> Result<(), NoMemory>
    requires { count ≤ max_frames }
    ensures { OnOk result (out.new.items ≡ out.old.items ++ closing_text verdict count) }
{
    match verdict {
        Verdict::Whole => write_end(count, out),
        Verdict::Bad(fault) => write_bad_frame(count + 1, fault, out),
        Verdict::Long => write_too_long(count + 1, out),
    }
}

/// The name of a reason for which bytes spell no packet.
fn reason_name(reason: Reason) -> &'static str
    ensures { result.now ≡ reason_text reason }
{
    match reason {
        Reason::Short => "Short",
        Reason::Version => "Version",
        Reason::Kind => "Kind",
        Reason::Node => "Node",
        Reason::Length => "Length",
        Reason::Range => "Range",
        Reason::Rest => "Rest",
    }
}
