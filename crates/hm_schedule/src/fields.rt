ghost use Rattle.std.specs.Prelude.{◌≡◌, ◌≢◌, ◌^◌, ◌<◌, ◌≤◌, ℕ, List, ◌∷◌, ◌++◌, IfSome, IfNone, IsSomeAnd, IsTrue, ◌↔◌, decimal};
ghost use Rattle.hm_base.specs.Spellings.{value_text};
ghost use Rattle.hm_base.specs.declared.node.GroupKind.{GroupKind};
ghost use Rattle.hm_schedule.specs.LineWords.{IsDigit, IsWord, IsWordEnd, SplitsWord};
ghost use Rattle.hm_schedule.specs.Names.{kind_text, kind_named};
ghost use Rattle.hm_schedule.specs.Ranges.{IsValue};

use hm_base::node::GroupKind;
use hm_base::spelling::read_value;
use hm_base::value::Value;
use memchr::memchr;

/// A text's first word, up to a space or the end, and the rest from that space on.
pub(crate) fn split_word(text: &[u8]) -> (&[u8], &[u8])
    ensures { SplitsWord text.now result.0.now result.1.now }
{
    match memchr(b' ', text) {
        Some(len) => text.split_at(len),
        None => text.split_at(text.len()),
    }
}

/// The word behind a space, and the rest. None exactly where the text doesn't begin with a space.
pub(crate) fn next_word(text: &[u8]) -> Option<(&[u8], &[u8])>
    ensures some { IfSome result (λ found. (text.now ≡ 32 ∷ (found.0.now ++ found.1.now)) × IsWord found.0.now × IsWordEnd found.1.now) }
    ensures none { IfNone result ((rest : List ℕ) → text.now ≢ 32 ∷ rest) }
{
    match text {
        [b' ', rest @ ..] => Some(split_word(rest)),
        _ => None,
    }
}

/// The number of at most 32 bits whose one spelling a text begins with, and what is behind its digits. None only where no such
/// number is the text's first word.
fn cut_number(text: &[u8]) -> Option<(u32, &[u8])>
    ensures some { IfSome result (λ found. text.now ≡ decimal found.0 ++ found.1.now) }
    ensures only { (n : ℕ) → (rest : List ℕ) → n < 2 ^ 32 → IsWordEnd rest → text.now ≡ decimal n ++ rest
        → IsSomeAnd result (λ found. (found.0 ≡ n) × (found.1.now ≡ rest)) }
{
    if text.is_empty() || !is_digit(text[0]) {
        return None;
    }
    let mut number = u64::from(text[0] - b'0');
    if number == 0 {
        return Some((0, &text[1..]));
    }
    for place in 1..text.len() {
        if !is_digit(text[place]) {
            return Some((number as u32, &text[place..]));
        }
        number = 10 * number + u64::from(text[place] - b'0');
        if number > u64::from(u32::MAX) {
            return None;
        }
    }
    Some((number as u32, &text[text.len()..]))
}

/// Whether a byte is a decimal digit.
fn is_digit(byte: u8) -> bool
    ensures { IsTrue result ↔ IsDigit byte }
{
    byte >= b'0' && byte <= b'9'
}

/// The number of at most 32 bits behind a space, and what is behind its digits. None only where no such number is the word behind
/// the space.
pub(crate) fn next_number(text: &[u8]) -> Option<(u32, &[u8])>
    ensures some { IfSome result (λ found. text.now ≡ 32 ∷ (decimal found.0 ++ found.1.now)) }
    ensures only { (n : ℕ) → (rest : List ℕ) → n < 2 ^ 32 → IsWordEnd rest → text.now ≡ 32 ∷ (decimal n ++ rest)
        → IsSomeAnd result (λ found. (found.0 ≡ n) × (found.1.now ≡ rest)) }
{
    match text {
        [b' ', rest @ ..] => cut_number(rest),
        _ => None,
    }
}

/// The value behind a space, and the rest. None exactly for any other text.
pub(crate) fn next_value(text: &[u8]) -> Option<(Value, &[u8])>
    ensures some { IfSome result (λ found. (text.now ≡ 32 ∷ (value_text found.0 ++ found.1.now)) × IsValue found.0) }
    ensures only { (v : List ℕ) → (rest : List ℕ) → IsValue v → IsWordEnd rest → text.now ≡ 32 ∷ (value_text v ++ rest)
        → IsSomeAnd result (λ found. (found.0 ≡ v) × (found.1.now ≡ rest)) }
{
    match next_word(text) {
        Some((word, rest)) => match read_value(word) {
            Some(value) => Some((value, rest)),
            None => None,
        },
        None => None,
    }
}

/// The number of at most `most` behind a space, and what is behind its digits. None only where no such number is the word behind
/// the space.
pub(crate) fn next_small(text: &[u8], most: u8) -> Option<(u8, &[u8])>
    ensures some { IfSome result (λ found. (text.now ≡ 32 ∷ (decimal found.0 ++ found.1.now)) × (found.0 ≤ most)) }
    ensures only { (n : ℕ) → (rest : List ℕ) → n ≤ most → IsWordEnd rest → text.now ≡ 32 ∷ (decimal n ++ rest)
        → IsSomeAnd result (λ found. (found.0 ≡ n) × (found.1.now ≡ rest)) }
{
    match next_number(text) {
        Some((number, rest)) => {
            if number > u32::from(most) {
                return None;
            }
            Some((number as u8, rest))
        }
        None => None,
    }
}

/// The protocol that a word names. None exactly for any other word.
pub(crate) fn kind_of(word: &[u8]) -> Option<GroupKind>
    ensures { result ≡ kind_named word.now }
{
    if word == b"chain".as_slice() {
        Some(GroupKind::Chain)
    } else if word == b"primary".as_slice() {
        Some(GroupKind::Primary)
    } else if word == b"vr".as_slice() {
        Some(GroupKind::Vr)
    } else {
        None
    }
}

/// The protocol behind a space, and the rest. None exactly for any other text.
pub(crate) fn next_kind(text: &[u8]) -> Option<(GroupKind, &[u8])>
    ensures some { IfSome result (λ found. text.now ≡ 32 ∷ (kind_text found.0 ++ found.1.now)) }
    ensures only { (kind : GroupKind) → (rest : List ℕ) → IsWordEnd rest → text.now ≡ 32 ∷ (kind_text kind ++ rest)
        → IsSomeAnd result (λ found. (found.0 ≡ kind) × (found.1.now ≡ rest)) }
{
    match next_word(text) {
        Some((word, rest)) => match kind_of(word) {
            Some(kind) => Some((kind, rest)),
            None => None,
        },
        None => None,
    }
}
