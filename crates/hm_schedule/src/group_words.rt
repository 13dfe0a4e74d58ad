//! A group as two words.

ghost use Rattle.std.specs.Prelude.{◌≡◌, ◌≢◌, ◌≤◌, ℕ, Some, IfSome, IfNone, decimal};
ghost use Rattle.hm_base.specs.declared.node.GroupKind.{GroupKind};
ghost use Rattle.hm_schedule.specs.Names.{kind_text};
ghost use Rattle.hm_schedule.specs.Schedules.{IsLawfulGroup};

use crate::fields::kind_of;
use crate::reason::has_size;
use hm_base::node::GroupKind;
use hm_base::spelling::read_number;

/// The protocol and the size that two words spell. None exactly where they spell no group of one to seven members, of an odd
/// number in Viewstamped Replication.
pub fn read_group_words(kind: &[u8], size: &[u8]) -> Option<(GroupKind, u8)>
    ensures some { IfSome result (λ group. IsLawfulGroup group.0 group.1 × (kind.now ≡ kind_text group.0) × (size.now ≡ decimal group.1)) }
    ensures only { (k : GroupKind) → (n : ℕ) → IsLawfulGroup k n → kind.now ≡ kind_text k → size.now ≡ decimal n → result ≡ Some (k, n) }
{
    let kind = kind_of(kind)?;
    let size = small_size(read_number(size)?)?;
    if !has_size(kind, size) {
        return None;
    }
    Some((kind, size))
}

/// A size, where it is one of any group's.
fn small_size(size: u64) -> Option<u8>
    ensures some { IfSome result (λ n. (n ≡ size) × (n ≤ 7)) }
    ensures none { IfNone result ((n : ℕ) → n ≤ 7 → decimal n ≢ decimal size) }
{
    if size > 7 { None } else { Some(size as u8) }
}
