ghost use Rattle.std.specs.Prelude.{◌≡◌, ◌↔◌, Some, Ok, Err, IfOk, IfSome};
ghost use Rattle.hm_schedule.specs.FirstReasons.{Anywhere, IsFirstReason};
ghost use Rattle.hm_schedule.specs.Schedules.{IsLawful, line_text};

use crate::event::Event;
use crate::fields::split_word;
use crate::keyword::keyword_of;
use crate::reads::read_fields;
use crate::reason::first_reason;
use hm_base::node::GroupKind;

/// A line of a schedule: the group, the dirty table, how many packets a switch handles, how many entries a log may have, or an
/// event.
#[derive(Clone, Copy, Debug, PartialEq, Eq)]
pub enum Line {
    Group { kind: GroupKind, size: u8 },
    Table { stages: u8, bits: u8 },
    Life(u32),
    Log(u32),
    Event(Event),
}

/// Why a line isn't one of a schedule.
#[derive(Clone, Copy, Debug, PartialEq, Eq)]
pub enum LineReason {
    /// The input ends within a line.
    End,
    /// The line has more bytes than a line may have.
    Long,
    /// A byte is no printable character.
    Byte,
    /// The first word is unknown.
    Word,
    /// The line doesn't stand here.
    Header,
    /// The line has another number of words.
    Count,
    /// A word is no number.
    Number,
    /// A number is outside its range.
    Range,
    /// A word is no value.
    Value,
}

/// The line that bytes spell, without its end. A refusal says the first reason why they spell none; it's never `End`, `Long` or
/// `Header`, which tell of a line among others.
pub fn read_line(bytes: &[u8]) -> Result<Line, LineReason>
    ensures ok { IfOk result (λ line. IsLawful line × (bytes.now ≡ line_text line)) }
    ensures only { (line : Line) → IsLawful line → bytes.now ≡ line_text line → result ≡ Ok line }
    ensures reason { (reason : LineReason) → (result ≡ Err reason) ↔ IsFirstReason Anywhere bytes.now reason }
{
    match line_of(bytes) {
        Some(line) => Ok(line),
        None => Err(first_reason(bytes, None)),
    }
}

/// The line that bytes spell. None exactly for any other bytes.
pub(crate) fn line_of(bytes: &[u8]) -> Option<Line>
    ensures some { IfSome result (λ line. IsLawful line × (bytes.now ≡ line_text line)) }
    ensures only { (line : Line) → IsLawful line → bytes.now ≡ line_text line → result ≡ Some line }
{
    let (word, fields) = split_word(bytes);
    let keyword = keyword_of(word)?;
    read_fields(keyword, fields)
}
