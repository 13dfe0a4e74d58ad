ghost use Rattle.std.specs.Prelude.{◌≡◌, ◌*◌, ◌^◌, ◌<◌, ◌≤◌, length, slice_get, Some};
ghost use Rattle.hm_base.specs.Slots as rule;
ghost use Rattle.hm_base.specs.StepCounts.{TakesAtMost};
ghost use Rattle.hm_dirtyset.specs.Table.{slots_in};
ghost use Rattle.hm_dirtyset.specs.Finds.{IsFound};

use crate::places::slot_of;
use crate::slot::Slot;
use hm_base::steps::{StepLedger, Steps, Uncounted};

/// What there is for an object: the stage where it is live and its number there; else the first stage whose slot holds
/// nothing live; else nothing.
#[derive(Clone, Copy)]
pub enum Found {
    Live { stage: u8, number: u64 },
    Free { stage: u8 },
    Full,
}

/// One look at a slot, found by an object's place or by a link, which counts as a step. Slots are looked at in no other way.
pub fn look<L: StepLedger>(slots: &[Slot], at: u32, steps: &mut Steps<L>) -> Slot
    requires { at < length slots.now }
    ensures slot { slice_get slots.now at ≡ Some result }
    ensures steps { TakesAtMost L.counts steps.old steps.new 1 }
{
    steps.tick();
    slots[at as usize]
}

/// Looks at the object's slots, from the first stage on.
pub fn find<L: StepLedger>(
    slots: &[Slot],
    stages: u8,
    bits: u8,
    point: u64,
    object: u32,
    steps: &mut Steps<L>,
) -> Found
    requires stages { stages ≤ 4 }
    requires bits { bits ≤ 12 }
    requires slots { length slots.now ≡ stages * 2 ^ bits }
    ensures found { IsFound (slots_in stages bits slots.now) point object result }
    ensures steps { TakesAtMost L.counts steps.old steps.new stages }
{
    let mut free = None;
    for stage in 0..stages {
        let slot = look(slots, slot_of(bits, stage, object), steps);
        if slot.number > point {
            if slot.object == object {
                return Found::Live {
                    stage,
                    number: slot.number,
                };
            }
        } else if free.is_none() {
            free = Some(stage);
        }
    }
    match free {
        Some(stage) => Found::Free { stage },
        None => Found::Full,
    }
}

/// The stage where a write of the object goes. None where its slots in all stages hold live numbers of others.
pub fn target(slots: &[Slot], stages: u8, bits: u8, point: u64, object: u32) -> Option<u8>
    requires stages { stages ≤ 4 }
    requires bits { bits ≤ 12 }
    requires slots { length slots.now ≡ stages * 2 ^ bits }
    ensures { result ≡ rule.target (slots_in stages bits slots.now) point object }
{
    let mut steps: Steps<Uncounted> = Steps::new();
    match find(slots, stages, bits, point, object, &mut steps) {
        Found::Live { stage, .. } | Found::Free { stage } => Some(stage),
        Found::Full => None,
    }
}
