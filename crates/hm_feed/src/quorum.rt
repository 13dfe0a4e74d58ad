ghost use Rattle.std.specs.Prelude.{◌≡◌, ◌≤◌, ◌<◌, ℕ, All, IfSome, IfNone};
ghost use Rattle.hm_base.specs.Taking as taking;
ghost use Rattle.hm_feed.specs.Sending as sending;

use crate::sender::Sender;
use hm_base::members::Members;

/// The greatest length that at least so many members other than this one acknowledged, where it is above a floor. Mostly it isn't,
/// and a few looks tell that.
pub(crate) fn held_above(
    sender: &Sender,
    members: &Members,
    me: u8,
    k: u8,
    floor: u32,
) -> Option<u32>
    ensures value { result ≡ sending.above floor (taking.held_by k (sending.others_acked sender.now me members.now)) }
    ensures within { (most : ℕ) → All (λ n. n ≤ most) sender.now.acked → IfSome result (λ len. len ≤ most) }
{
    let mut held = floor;
    while let Some(len) = higher(sender, members, me, k, held) {
        held = len;
    }
    if floor < held { Some(held) } else { None }
}

/// A length above a floor, and no greater than what at least so many members other than this one acknowledged; none where that isn't
/// above the floor. The last members are looked at first, since they are heard last, and no more of them than it takes.
fn higher(sender: &Sender, members: &Members, me: u8, k: u8, floor: u32) -> Option<u32>
    ensures above { IfSome result (λ len. floor < len) }
    ensures held { IfSome result (λ len. len ≤ taking.held_by k (sending.others_acked sender.now me members.now)) }
    ensures none { IfNone result (taking.held_by k (sending.others_acked sender.now me members.now) ≤ floor) }
{
    let list = members.as_slice();
    // where none is asked for, one still has to be above the floor
    let mut wanted = usize::from(k.max(1));
    let mut i = list.len();
    if i < wanted {
        return None;
    }
    let mut least = u32::MAX;
    loop {
        i -= 1;
        let member = list[i];
        let len = sender.acked(member);
        if member != me && floor < len {
            least = least.min(len);
            wanted -= 1;
            if wanted == 0 {
                return Some(least);
            }
        } else if i < wanted {
            return None;
        }
    }
}
