ghost use Rattle.std.specs.Prelude.{◌≡◌, ◌+◌, ◌-◌, ◌<◌, ◌≤◌, ℕ, true, slice_get, IfSome, IfNone};
ghost use Rattle.hm_base.specs.Slots.{live_part};
ghost use Rattle.hm_base.specs.StepCounts.{TakesAtMost};
ghost use Rattle.hm_links.specs.Linked.{is_linked};
ghost use Rattle.hm_dirtyset.specs.Table.{kept_of};
ghost use Rattle.hm_dirtyset.specs.ByNumber.{IsByNumber, number_at, filled_count};

use crate::find::look;
use crate::slot::Slot;
use hm_base::steps::{StepLedger, Steps};
use hm_links::links::Links;

/// The first slot of the list, where the point reaches its number. Links are walked along in no other way.
#[inline]
fn reached<L: StepLedger>(
    slots: &[Slot],
    by_number: &Links,
    point: u64,
    steps: &mut Steps<L>,
) -> Option<u32>
    requires { IsByNumber slots.now by_number.now.items }
    ensures linked { IfSome result (λ at. is_linked at by_number.now.items ≡ true) }
    ensures reached { IfSome result (λ at. number_at slots.now at ≤ point) }
    ensures none { IfNone result ((at : ℕ) → is_linked at by_number.now.items ≡ true → point < number_at slots.now at) }
    ensures steps { TakesAtMost L.counts steps.old steps.new 1 }
{
    let at = by_number.front()?;
    if look(slots, at, steps).number <= point {
        Some(at)
    } else {
        None
    }
}

/// Empties slots from the front of the list while the point reaches their numbers, and walks over no others.
pub fn empty_reached<L: StepLedger>(
    slots: &mut [Slot],
    by_number: &mut Links,
    live: &mut u32,
    point: u64,
    steps: &mut Steps<L>,
)
    requires listed { IsByNumber slots.old by_number.old.items }
    requires counted { live.old ≡ filled_count slots.old }
    ensures listed { IsByNumber slots.new by_number.new.items }
    ensures cells { by_number.new.cells ≡ by_number.old.cells }
    ensures counted { live.new ≡ filled_count slots.new }
    ensures emptied { (at : ℕ) → kept_of (slice_get slots.new at) ≡ live_part point (kept_of (slice_get slots.old at)) }
    ensures steps { TakesAtMost L.counts steps.old steps.new (live.old - live.new + 1) }
{
    while let Some(at) = reached(slots, by_number, point, steps) {
        by_number.unlink(at);
        slots[at as usize] = Slot::FREE;
        *live -= 1;
    }
}
