ghost use Rattle.std.specs.Prelude.{◌≡◌, ◌<◌, length};
ghost use Rattle.hm_rules.specs.Numbers.{numbers_from};
ghost use Rattle.hm_rules.specs.Votes as votes;
ghost use Rattle.hm_viewchange.specs.Parts.{bare};

use crate::vr_core::VrCore;

/// How many replicas the group has.
pub(crate) fn group_size(core: &VrCore) -> u8
    ensures members { result ≡ length (numbers_from 0 core.now.size) }
    ensures size { result ≡ core.now.size }
{
    core.size
}

/// How many replicas of the group may stop.
pub(crate) fn faults(core: &VrCore) -> u8
    requires { core.now.me < core.now.size }
    ensures { result ≡ votes.faults (bare core.now) }
{
    (group_size(core) - 1) / 2
}

/// The primary of a view.
pub(crate) fn primary_of(core: &VrCore, view: u32) -> u8
    requires { core.now.me < core.now.size }
    ensures value { result ≡ votes.primary_of (bare core.now) view }
    ensures within { result < core.now.size }
{
    (view % u32::from(group_size(core))) as u8
}
