ghost use Rattle.std.specs.Prelude.{◌≡◌, ◌≤◌, IfSome, MatchOption, Some, None, false};
ghost use Rattle.hm_rules.specs.Chain as rules;

use hm_base::members::Members;

/// The member behind a replica, if there is one.
pub(crate) fn successor(members: &Members, me: u8) -> Option<u8>
    ensures value { result ≡ rules.next_in me members.now }
    ensures within { IfSome result (λ m. m ≤ 6) }
{
    for i in 0..members.len() {
        if members.get(i) == Some(me) {
            return members.get(i + 1);
        }
    }
    None
}

/// The member before a replica, if there is one.
pub(crate) fn predecessor(members: &Members, me: u8) -> Option<u8>
    ensures value { result ≡ rules.before_in me None members.now }
    ensures within { IfSome result (λ m. m ≤ 6) }
{
    let mut before = None;
    for i in 0..members.len() {
        let member = members.get(i);
        if member == Some(me) {
            return before;
        }
        before = member;
    }
    None
}

/// The replica, where it has this number.
pub(crate) fn numbered(replica: Option<u8>, number: u32) -> Option<u8>
    ensures { MatchOption result (rules.is_number replica number ≡ false) (λ m. (replica ≡ Some m) × (m ≡ number)) }
{
    match replica {
        Some(member) => {
            if u32::from(member) == number {
                Some(member)
            } else {
                None
            }
        }
        None => None,
    }
}
