ghost use Rattle.std.specs.Prelude.{◌≡◌, ◌+◌, ◌*◌, ◌^◌, ◌<◌, ◌≤◌};
ghost use Rattle.hm_base.specs.Slots as slots;
ghost use Rattle.hm_dirtyset.specs.Table.{slot_index};

/// One for each stage.
const MULTIPLIERS: [u64; 4] = [2_654_435_761, 2_246_822_519, 3_266_489_917, 668_265_263];

/// The object's place in a stage of 2 ^ `bits` slots.
fn place(bits: u8, stage: u8, object: u32) -> u32
    requires bits { bits ≤ 12 }
    requires stage { stage < 4 }
    ensures place { result ≡ slots.place bits stage object }
    ensures within { result < 2 ^ bits }
{
    let product = (u64::from(object) + 1) * MULTIPLIERS[stage as usize];
    let low = product % (1 << 32);
    (low >> (32 - u32::from(bits))) as u32
}

/// Where that slot is among all slots, which lie stage behind stage.
pub fn slot_of(bits: u8, stage: u8, object: u32) -> u32
    requires bits { bits ≤ 12 }
    requires stage { stage < 4 }
    ensures slot { result ≡ slot_index bits stage (slots.place bits stage object) }
    ensures within { slots.place bits stage object < 2 ^ bits }
{
    u32::from(stage) * (1 << u32::from(bits)) + place(bits, stage, object)
}

/// How many slots there are.
pub fn slot_count(bits: u8, stages: u8) -> u32
    requires bits { bits ≤ 12 }
    requires stages { stages ≤ 4 }
    ensures { result ≡ stages * 2 ^ bits }
{
    u32::from(stages) * (1 << u32::from(bits))
}
