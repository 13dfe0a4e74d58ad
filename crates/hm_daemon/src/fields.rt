ghost use Rattle.std.specs.Prelude.{◌≡◌, ℕ, ◌≤◌, ◌↔◌, List, [], ◌∷◌, map, All, IfSome, IfNone, IsTrue, IsSomeAnd, decimal, string_bytes};
ghost use Rattle.hm_base.specs.declared.node.GroupKind.{GroupKind};
ghost use Rattle.hm_daemon.specs.Addresses.{IsAddress};
ghost use Rattle.hm_schedule.specs.Names.{kind_text};
ghost use Rattle.hm_schedule.specs.Schedules.{IsLawfulGroup};

use crate::address::{is_address, number_within};
use hm_base::node::GroupKind;
use hm_schedule::group_words::read_group_words;

/// The first word, and the others. None exactly where there are none.
pub(crate) fn next_word(words: &[String]) -> Option<(&[u8], &[String])>
    ensures some { IfSome result (λ f. map string_bytes words.now ≡ f.0.now ∷ map string_bytes f.1.now) }
    ensures none { IfNone result (map string_bytes words.now ≡ []) }
{
    match words {
        [word, rest @ ..] => Some((word.as_bytes(), rest)),
        [] => None,
    }
}

/// The words behind this one. None exactly where another comes first, or none.
pub(crate) fn next_name<'a>(words: &'a [String], name: &str) -> Option<&'a [String]>
    ensures some { IfSome result (λ rest. map string_bytes words.now ≡ name.now ∷ map string_bytes rest.now) }
    ensures only { (rest : List (List ℕ)) → map string_bytes words.now ≡ name.now ∷ rest
        → IsSomeAnd result (λ others. map string_bytes others.now ≡ rest) }
{
    let (word, rest) = next_word(words)?;
    if word == name.as_bytes() {
        Some(rest)
    } else {
        None
    }
}

/// The number that the first word spells, and the other words. None exactly where it spells none within these limits.
pub(crate) fn next_number(words: &[String], least: u64, most: u64) -> Option<(u64, &[String])>
    ensures some { IfSome result (λ f. (map string_bytes words.now ≡ decimal f.0 ∷ map string_bytes f.1.now) × (least ≤ f.0) × (f.0 ≤ most)) }
    ensures only { (n : ℕ) (rest : List (List ℕ)) → least ≤ n → n ≤ most → map string_bytes words.now ≡ decimal n ∷ rest
        → IsSomeAnd result (λ f. (f.0 ≡ n) × (map string_bytes f.1.now ≡ rest)) }
{
    let (word, rest) = next_word(words)?;
    let number = number_within(word, least, most)?;
    Some((number, rest))
}

/// A protocol and a size, and the other words. None exactly where the first two words aren't those of a group.
pub(crate) fn next_group(words: &[String]) -> Option<(GroupKind, u8, &[String])>
    ensures some { IfSome result (λ f. (map string_bytes words.now ≡ kind_text f.0 ∷ decimal f.1 ∷ map string_bytes f.2.now) × IsLawfulGroup f.0 f.1) }
    ensures only { (kind : GroupKind) (size : ℕ) (rest : List (List ℕ)) → IsLawfulGroup kind size
        → map string_bytes words.now ≡ kind_text kind ∷ decimal size ∷ rest
        → IsSomeAnd result (λ f. (f.0 ≡ kind) × (f.1 ≡ size) × (map string_bytes f.2.now ≡ rest)) }
{
    let (kind, rest) = next_word(words)?;
    let (size, rest) = next_word(rest)?;
    let (kind, size) = read_group_words(kind, size)?;
    Some((kind, size, rest))
}

/// Whether each word tells where a node is.
pub(crate) fn are_addresses(words: &[String]) -> bool
    ensures { IsTrue result ↔ All IsAddress (map string_bytes words.now) }
{
    match next_word(words) {
        None => true,
        Some((word, rest)) => {
            if is_address(word) {
                are_addresses(rest)
            } else {
                false
            }
        }
    }
}
