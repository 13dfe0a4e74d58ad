ghost use Rattle.std.specs.Prelude.{◌≡◌, ◌≤◌};
ghost use Rattle.hm_rules.specs.Numbers.{numbers_from};

use hm_base::members::Members;

/// The members of a group of this size, from replica 0 on.
pub(crate) fn first_members(size: u8) -> Members
    requires some { 1 ≤ size }
    requires few { size ≤ 7 }
    ensures { result ≡ numbers_from 0 size }
{
    let Some(mut members) = Members::first(0) else {
        unreachable!()
    };
    for me in 1..size {
        let pushed = members.try_push(me);
        pushed.unwrap();
    }
    members
}
