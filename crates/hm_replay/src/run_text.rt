ghost use Rattle.std.specs.Prelude.{◌≡◌, [], ◌∷◌, ◌++◌, OnOk, flat_map, codes};
ghost use Rattle.hm_rules.specs.RunText.{bar_text, outcome_line, mark_line, packet_lines, order_text, place_line, bad_text, too_long_text};
ghost use Rattle.hm_packet.specs.Messages.{Message};
ghost use Rattle.hm_replay.specs.Replays.{refusal_text};
ghost use Rattle.hm_schedule.specs.Reasons.{reason_text};
ghost use Rattle.hm_wire.specs.Packets.{spelling, HasSpelling};

use hm_base::buffer::Text;
use hm_base::memory::NoMemory;
use hm_base::operation::OpId;
use hm_base::text::{write_answer, write_bytes, write_number, write_op, write_stamp};
use hm_order::mark::Mark;
use hm_packet::outcome::{Bar, Outcome};
use hm_schedule::line::LineReason;
use hm_schedule::refusal::Refusal;
use hm_wire::laws::{spelling_has_no_fault, spelling_tells_the_packet};
use hm_wire_text::text::write_spelled;

/// The name of a bar.
fn bar_name(bar: Bar) -> &'static str
    ensures { result.now ≡ bar_text bar }
{
    match bar {
        Bar::NoPacket => "NoPacket",
        Bar::NoSwitch => "NoSwitch",
        Bar::Busy => "Busy",
        Bar::Idle => "Idle",
        Bar::Stopped => "Stopped",
        Bar::Member => "Member",
        Bar::Live => "Live",
        Bar::Last => "Last",
        Bar::NotVr => "NotVr",
        Bar::Fixed => "Fixed",
        Bar::NotRetired => "NotRetired",
        Bar::NotRefused => "NotRefused",
        Bar::Forged => "Forged",
        Bar::Malformed => "Malformed",
    }
}

/// The name of a reason for refusing a line.
fn reason_name(reason: LineReason) -> &'static str
    ensures { result.now ≡ reason_text reason }
{
    match reason {
        LineReason::End => "End",
        LineReason::Long => "Long",
        LineReason::Byte => "Byte",
        LineReason::Word => "Word",
        LineReason::Header => "Header",
        LineReason::Count => "Count",
        LineReason::Number => "Number",
        LineReason::Range => "Range",
        LineReason::Value => "Value",
    }
}

/// Appends the line of an event: its number and how it ended. After want of memory `out` may hold a part of it, here and in
/// the other calls of this module.
pub fn write_outcome(number: u32, outcome: Outcome, out: &mut Text) -> Result<(), NoMemory>
    ensures { OnOk result (out.new.items ≡ out.old.items ++ outcome_line number outcome) }
{
    write_bytes(b"event ", out)?;
    write_number(u64::from(number), out)?;
    match outcome {
        Outcome::Ok { .. } => write_bytes(b" ok\n", out),
        Outcome::Ignored(why) => write_reason(b" ignored ", why.name(), out),
        Outcome::Full => write_bytes(b" full\n", out),
        Outcome::Spent => write_bytes(b" spent\n", out),
        Outcome::LogFull => write_bytes(b" logfull\n", out),
        Outcome::NotAllowed(bar) => write_bar(bar, out),
    }
}

/// Appends the end of a barred event's line. Most of them find no packet.
#[inline(always)]
fn write_bar(bar: Bar, out: &mut Text) -> Result<(), NoMemory>
    ensures { OnOk result (out.new.items ≡ out.old.items ++ (codes " barred " ++ (bar_text bar ++ codes "\n"))) }
{
    match bar {
        Bar::NoPacket => write_bytes(b" barred NoPacket\n", out),
        other => write_reason(b" barred ", bar_name(other), out),
    }
}

/// Appends the end of a line: a word, and a reason's name.
fn write_reason(word: &[u8], name: &str, out: &mut Text) -> Result<(), NoMemory>
    ensures { OnOk result (out.new.items ≡ out.old.items ++ (word.now ++ (name.now ++ codes "\n"))) }
{
    write_bytes(word, out)?;
    write_bytes(name.as_bytes(), out)?;
    write_bytes(b"\n", out)
}

/// Appends a mark's line.
pub fn write_mark(mark: &Mark, out: &mut Text) -> Result<(), NoMemory>
    ensures { OnOk result (out.new.items ≡ out.old.items ++ mark_line mark.now) }
{
    match mark {
        Mark::Invoke { op, want: _ } => {
            write_bytes(b"invoke ", out)?;
            write_op(*op, out)?;
        }
        Mark::Commit { op, stamp } => {
            write_bytes(b"commit ", out)?;
            write_op(*op, out)?;
            write_bytes(b" ", out)?;
            write_stamp(*stamp, out)?;
        }
        Mark::Reply {
            op,
            version,
            answer,
        } => {
            write_bytes(b"reply ", out)?;
            write_op(*op, out)?;
            write_bytes(b" ", out)?;
            write_stamp(*version, out)?;
            write_bytes(b" ", out)?;
            write_answer(answer, out)?;
        }
    }
    write_bytes(b"\n", out)
}

/// Appends the marks' lines.
pub fn write_marks(marks: &[Mark], out: &mut Text) -> Result<(), NoMemory>
    ensures { OnOk result (out.new.items ≡ out.old.items ++ flat_map mark_line marks.now) }
{
    for mark in marks {
        write_mark(mark, out)?;
    }
    Ok(())
}

/// Appends the line of the packet that the bytes spell: its number, counted from 1, and its text.
pub fn write_sent(number: u32, bytes: &[u8], out: &mut Text) -> Result<(), NoMemory>
    ensures { OnOk result ((packet : Message) → HasSpelling packet → spelling packet ≡ bytes.now → out.new.items ≡ out.old.items ++ packet_lines number (packet ∷ [])) }
{
    spelling_has_no_fault();
    spelling_tells_the_packet();
    write_bytes(b"packet ", out)?;
    write_number(u64::from(number), out)?;
    out.push(b' ')?;
    let _told = write_spelled(bytes, out)?;
    out.push(b'\n')?;
    Ok(())
}

/// Appends the end of a whole run's text: the operations in their order.
pub fn write_order(ops: &[OpId], out: &mut Text) -> Result<(), NoMemory>
    ensures { OnOk result (out.new.items ≡ out.old.items ++ order_text ops.now) }
{
    write_bytes(b"order ", out)?;
    write_number(ops.len() as u64, out)?;
    write_bytes(b"\n", out)?;
    for op in ops {
        write_place(*op, out)?;
    }
    write_bytes(b"end\n", out)
}

/// Appends the line of an operation in the order.
fn write_place(op: OpId, out: &mut Text) -> Result<(), NoMemory>
    ensures { OnOk result (out.new.items ≡ out.old.items ++ place_line op) }
{
    write_bytes(b"place ", out)?;
    write_op(op, out)?;
    write_bytes(b"\n", out)
}

/// Appends the last line of a run whose schedule is refused: the number of the line, counted from 1, and why.
pub fn write_refusal(line: u32, refusal: Refusal, out: &mut Text) -> Result<(), NoMemory>
    ensures { OnOk result (out.new.items ≡ out.old.items ++ refusal_text line refusal) }
{
    match refusal {
        Refusal::TooLong => write_too_long(line, out),
        Refusal::Bad(reason) => write_bad(line, reason, out),
    }
}

/// Appends the last line of a run whose schedule is too long.
fn write_too_long(line: u32, out: &mut Text) -> Result<(), NoMemory>
    ensures { OnOk result (out.new.items ≡ out.old.items ++ too_long_text line) }
{
    write_bytes(b"toolong ", out)?;
    write_number(u64::from(line), out)?;
    write_bytes(b"\n", out)
}

/// Appends the last line of a run whose schedule has a line outside the grammar.
fn write_bad(line: u32, reason: LineReason, out: &mut Text) -> Result<(), NoMemory>
    ensures { OnOk result (out.new.items ≡ out.old.items ++ bad_text line (reason_text reason)) }
{
    write_bytes(b"bad ", out)?;
    write_number(u64::from(line), out)?;
    write_bytes(b" ", out)?;
    write_bytes(reason_name(reason).as_bytes(), out)?;
    write_bytes(b"\n", out)
}
