//! The first reason for which a line isn't one of a schedule.

ghost use Rattle.std.specs.Prelude.{◌≡◌, ◌≢◌, ◌↔◌, ℕ, List, length, All, IsTrue, IfSome, IfNone};
ghost use Rattle.hm_schedule.specs.FirstReasons.{AreWords, AllTake, Takes, FieldNeeds, FieldsNeed, WordsNeed, IsFirstReason, IsPrintable, fields_of, kind_in, small, wide};
ghost use Rattle.hm_schedule.specs.Schedules.{IsLawful, IsLawfulGroup, keyword_in, line_text};
ghost use Rattle.hm_schedule.specs.Stages.{Standing};
ghost use Rattle.hm_schedule.specs.declared.line.Line.{Line};

use crate::fields::{kind_of, next_word, split_word};
use crate::keyword::{Keyword, keyword_of};
use crate::line::LineReason;
use crate::stage::Stage;
use hm_base::node::GroupKind;
use hm_base::spelling::{read_number, read_value};
use hm_dirtyset::dirty_set::{MAX_BITS, MAX_STAGES};
use hm_store::ledger::MAX_LOG_LEN;
use hm_switch::switch::MAX_LIFE;

/// What a field of a line has to be.
#[derive(Clone, Copy, Debug, PartialEq, Eq)]
pub(crate) enum Field {
    /// The name of a protocol.
    Kind,
    /// The size of a group of this protocol.
    Size(Option<GroupKind>),
    /// A number below a bound, which its type sets, and in a range.
    Number { below: u64, least: u32, most: u32 },
    /// A value.
    Value,
}

impl Field {
    /// A number of eight bits in a range.
    fn small(least: u32, most: u32) -> Field
        ensures { result ≡ small least most }
    {
        Field::Number {
            below: 1 << 8,
            least,
            most,
        }
    }

    /// A number of 32 bits in a range.
    fn wide(least: u32, most: u32) -> Field
        ensures { result ≡ wide least most }
    {
        Field::Number {
            below: 1 << 32,
            least,
            most,
        }
    }

    /// The first reason for which a word isn't this field.
    fn fault(self, word: &[u8]) -> Option<LineReason>
        ensures some { IfSome result (λ r. FieldNeeds self word.now (λ later. ⊥) r) }
        ensures none { IfNone result (Takes self word.now) }
    {
        match self {
            Field::Kind => match kind_of(word) {
                Some(_) => None,
                None => Some(LineReason::Range),
            },
            Field::Size(kind) => size_fault(kind, word),
            Field::Number { below, least, most } => number_fault(below, least, most, word),
            Field::Value => match read_value(word) {
                Some(_) => None,
                None => Some(LineReason::Value),
            },
        }
    }
}

/// The first reason for which a word isn't the size of a group of this protocol.
fn size_fault(kind: Option<GroupKind>, word: &[u8]) -> Option<LineReason>
    ensures some { IfSome result (λ r. FieldNeeds (Field.Size kind) word.now (λ later. ⊥) r) }
    ensures none { IfNone result (Takes (Field.Size kind) word.now) }
{
    let Some(size) = read_number(word) else {
        return Some(LineReason::Number);
    };
    if size > u64::from(u8::MAX) {
        return Some(LineReason::Number);
    }
    let Some(kind) = kind else {
        return Some(LineReason::Range);
    };
    if has_size(kind, size as u8) {
        None
    } else {
        Some(LineReason::Range)
    }
}

/// The first reason for which a word isn't a number below a bound and in a range.
fn number_fault(below: u64, least: u32, most: u32, word: &[u8]) -> Option<LineReason>
    ensures some { IfSome result (λ r. FieldNeeds (Field.Number below least most) word.now (λ later. ⊥) r) }
    ensures none { IfNone result (Takes (Field.Number below least most) word.now) }
{
    let Some(number) = read_number(word) else {
        return Some(LineReason::Number);
    };
    if number >= below {
        return Some(LineReason::Number);
    }
    if number >= u64::from(least) && number <= u64::from(most) {
        None
    } else {
        Some(LineReason::Range)
    }
}

/// Whether groups of this protocol may have this size.
pub(crate) fn has_size(kind: GroupKind, size: u8) -> bool
    ensures { IsTrue result ↔ IsLawfulGroup kind size }
{
    match kind {
        GroupKind::Chain | GroupKind::Primary => size >= 1 && size <= 7,
        GroupKind::Vr => size % 2 == 1 && size <= 7,
    }
}

/// The first reason for which bytes are no line that may stand behind a schedule's front. By itself a line stands anywhere.
#[inline(never)]
pub(crate) fn first_reason(bytes: &[u8], stage: Option<Stage>) -> LineReason
    requires { (l : Line) → IsLawful l → Standing stage (keyword_in l) → bytes.now ≢ line_text l }
    ensures { IsFirstReason (Standing stage) bytes.now result }
{
    if !are_printable(bytes) {
        return LineReason::Byte;
    }
    let (word, fields) = split_word(bytes);
    let Some(keyword) = keyword_of(word) else {
        return LineReason::Word;
    };
    if !may_stand(stage, keyword) {
        return LineReason::Header;
    }
    fault_behind(keyword, fields).unwrap()
}

/// Whether all bytes are printable characters or spaces.
fn are_printable(bytes: &[u8]) -> bool
    ensures { IsTrue result ↔ All IsPrintable bytes.now }
{
    bytes.iter().all(|byte| is_printable(*byte))
}

/// Whether a byte is a printable character or a space.
fn is_printable(byte: u8) -> bool
    ensures { IsTrue result ↔ IsPrintable byte }
{
    byte >= b' ' && byte <= b'~'
}

/// Whether a line with this keyword may stand behind a schedule's front.
fn may_stand(stage: Option<Stage>, keyword: Keyword) -> bool
    ensures { IsTrue result ↔ Standing stage keyword }
{
    match stage {
        Some(stage) => stage.admits(keyword),
        None => true,
    }
}

/// The first reason for which the words behind a keyword aren't its fields.
fn fault_behind(keyword: Keyword, text: &[u8]) -> Option<LineReason>
    ensures some { IfSome result (λ r. (words : List (List ℕ)) → AreWords text.now words → WordsNeed (fields_of keyword words) words r) }
    ensures none { IfNone result ((words : List (List ℕ)) → AreWords text.now words → AllTake (fields_of keyword words) words) }
{
    let replica = Field::small(0, 6);
    let number = Field::wide(0, u32::MAX);
    let switch = Field::wide(1, u32::MAX);
    match keyword {
        Keyword::Group => fault_of(&[Field::Kind, Field::Size(first_kind(text))], text),
        Keyword::Table => fault_of(
            &[
                Field::small(1, u32::from(MAX_STAGES)),
                Field::small(0, u32::from(MAX_BITS)),
            ],
            text,
        ),
        Keyword::Life => fault_of(&[Field::wide(1, MAX_LIFE)], text),
        Keyword::Log => fault_of(&[Field::wide(1, MAX_LOG_LEN)], text),
        Keyword::Write => fault_of(&[number, number, Field::Value, switch], text),
        Keyword::Read => fault_of(&[number, number, switch], text),
        Keyword::Resend => fault_of(&[number, switch], text),
        Keyword::Deliver => fault_of(&[number], text),
        Keyword::Tick | Keyword::Stop | Keyword::Remove | Keyword::Timeout => {
            fault_of(&[replica], text)
        }
        Keyword::Next | Keyword::Drop | Keyword::Retire | Keyword::Start => fault_of(&[], text),
    }
}

/// The protocol that the first word names.
fn first_kind(text: &[u8]) -> Option<GroupKind>
    ensures { (words : List (List ℕ)) → AreWords text.now words → result ≡ kind_in words }
{
    match next_word(text) {
        Some((word, _)) => kind_of(word),
        None => None,
    }
}

/// The first reason for which the words of a text aren't these fields.
fn fault_of(fields: &[Field], text: &[u8]) -> Option<LineReason>
    ensures some { IfSome result (λ r. (words : List (List ℕ)) → AreWords text.now words → WordsNeed fields.now words r) }
    ensures none { IfNone result ((words : List (List ℕ)) → AreWords text.now words → AllTake fields.now words) }
{
    if !has_words(text, fields.len()) {
        return Some(LineReason::Count);
    }
    first_fault(fields, text)
}

/// Whether a text is so many words.
fn has_words(text: &[u8], count: usize) -> bool
    ensures { (words : List (List ℕ)) → AreWords text.now words → IsTrue result ↔ (length words ≡ count) }
{
    match next_word(text) {
        Some((_, rest)) => count > 0 && has_words(rest, count - 1),
        None => count == 0,
    }
}

/// The first reason for which words that are as many as the fields aren't these fields.
fn first_fault(fields: &[Field], text: &[u8]) -> Option<LineReason>
    ensures some { IfSome result (λ r. (words : List (List ℕ)) → AreWords text.now words → length words ≡ length fields.now → FieldsNeed fields.now words r) }
    ensures none { IfNone result ((words : List (List ℕ)) → AreWords text.now words → length words ≡ length fields.now → AllTake fields.now words) }
{
    let [field, more @ ..] = fields else {
        return None;
    };
    let Some((word, rest)) = next_word(text) else {
        return None;
    };
    match field.fault(word) {
        Some(reason) => Some(reason),
        None => first_fault(more, rest),
    }
}
