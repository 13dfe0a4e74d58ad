ghost use Rattle.std.specs.Prelude.{◌≡◌, ◌≤◌, ◌-◌, ◌==◌, length, slice_index};
ghost use Rattle.std.specs.List.{list_any};

use hm_base::members::Members;

/// The first member of a group.
pub fn first_member(members: &Members) -> u8
    ensures value { result ≡ slice_index members.now 0 }
    ensures within { result ≤ 6 }
{
    match members.get(0) {
        Some(member) => member,
        None => 0,
    }
}

/// The last member of a group.
pub fn last_member(members: &Members) -> u8
    ensures value { result ≡ slice_index members.now (length members.now - 1) }
    ensures within { result ≤ 6 }
{
    match members.get(members.len() - 1) {
        Some(member) => member,
        None => 0,
    }
}

/// Whether a replica is a member of a group.
pub fn is_member(members: &Members, me: u8) -> bool
    ensures { result ≡ list_any (λ m. m == me) members.now }
{
    members.as_slice().iter().any(|member| *member == me)
}
