ghost use Rattle.std.specs.Prelude.{◌≡◌, ◌≤◌, ◌<◌, ◌∷◌, [], ◌++◌, ◌-◌, ◌==◌, not, All, filter, length};
ghost use Rattle.hm_reconfig.specs.Groups.{listed};
ghost use Rattle.hm_rules.specs.Service.{replicas_below};

use hm_base::members::Members;

/// The members of a group of this size, from replica 0 on.
pub(crate) fn first_members(size: u8) -> Members
    requires some { 1 ≤ size }
    requires few { size ≤ 7 }
    ensures { result ≡ replicas_below size }
{
    let mut members = with_member(None, 0);
    for me in 1..size {
        members = with_member(Some(members), me);
    }
    members
}

/// The members of a group other than one of them, if there are any.
pub(crate) fn without(members: &Members, replica: u8) -> Option<Members>
    ensures { listed result ≡ filter (λ m. not (m == replica)) members.now }
{
    let mut rest = None;
    for member in members.as_slice() {
        if *member != replica {
            rest = Some(with_member(rest, *member));
        }
    }
    rest
}

/// A member behind the others, if there are any.
fn with_member(members: Option<Members>, member: u8) -> Members
    requires within { member ≤ 6 }
    requires above { All (λ m. m < member) (listed members) }
    ensures { result ≡ listed members ++ member ∷ [] }
{
    match members {
        None => {
            let Some(first) = Members::first(member) else {
                unreachable!()
            };
            first
        }
        Some(mut before) => {
            let pushed = before.try_push(member);
            pushed.unwrap();
            before
        }
    }
}
