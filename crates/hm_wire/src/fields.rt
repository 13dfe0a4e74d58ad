ghost use Rattle.std.specs.Prelude.{◌≡◌, ◌≤◌, nat_le, IfOk};
ghost use Rattle.hm_wire.specs.declared.malformed.Reason.TheVariants as reason;
ghost use Rattle.hm_wire.specs.Grammar.Size.{U8, U32, U64};
ghost use Rattle.hm_wire.specs.Packets.{is_within};
ghost use Rattle.hm_wire.specs.Reading.{Gives, field_at, number_at};

use crate::fault::{Fault, SHORT};
use crate::malformed::Reason;

/// Reads a byte. Here and below, the bytes after what was read stand beside it.
#[tactic(auto, unfolding(crate::specs::Reading::number_at))]
#[inline(always)]
pub fn u8_at(bytes: &[u8]) -> Result<(u8, &[u8]), Fault>
    ensures { Gives (λ x. (x.0, x.1.now)) result (number_at U8 bytes.now) }
{
    match bytes {
        [] => Err(SHORT),
        [byte, rest @ ..] => Ok((*byte, rest)),
    }
}

/// Reads a byte from `low` to `high`; any other is a fault for this reason.
#[tactic(auto, unfolding(crate::specs::Reading::number_at, crate::specs::Reading::field_at))]
#[inline(always)]
pub fn u8_within(bytes: &[u8], low: u8, high: u8, reason: Reason) -> Result<(u8, &[u8]), Fault>
    ensures given { Gives (λ x. (x.0, x.1.now)) result (field_at U8 (is_within low high) reason bytes.now) }
    ensures within { IfOk result (λ x. (low ≤ x.0) × (x.0 ≤ high)) }
{
    let (byte, rest) = u8_at(bytes)?;
    if byte < low || high < byte {
        return Err(Fault {
            left: bytes.len(),
            reason,
        });
    }
    Ok((byte, rest))
}

/// Reads a `u32`.
#[tactic(auto, unfolding(crate::specs::Reading::number_at))]
#[inline(always)]
pub fn u32_at(bytes: &[u8]) -> Result<(u32, &[u8]), Fault>
    ensures { Gives (λ x. (x.0, x.1.now)) result (number_at U32 bytes.now) }
{
    if bytes.len() < 4 {
        return Err(SHORT);
    }
    let (front, rest) = bytes.split_at(4);
    let number = u32::from_be_bytes([front[0], front[1], front[2], front[3]]);
    Ok((number, rest))
}

/// Reads a `u32` up to `high`; any other is out of range.
#[tactic(auto, unfolding(crate::specs::Reading::number_at, crate::specs::Reading::field_at))]
#[inline(always)]
pub fn u32_up_to(bytes: &[u8], high: u32) -> Result<(u32, &[u8]), Fault>
    ensures given { Gives (λ x. (x.0, x.1.now)) result (field_at U32 (λ n. nat_le n high) reason.Range bytes.now) }
    ensures within { IfOk result (λ x. x.0 ≤ high) }
{
    let (number, rest) = u32_at(bytes)?;
    if high < number {
        return Err(Fault {
            left: bytes.len(),
            reason: Reason::Range,
        });
    }
    Ok((number, rest))
}

/// Reads a `u64`.
#[tactic(auto, unfolding(crate::specs::Reading::number_at))]
#[inline(always)]
pub fn u64_at(bytes: &[u8]) -> Result<(u64, &[u8]), Fault>
    ensures { Gives (λ x. (x.0, x.1.now)) result (number_at U64 bytes.now) }
{
    if bytes.len() < 8 {
        return Err(SHORT);
    }
    let (front, rest) = bytes.split_at(8);
    let number = u64::from_be_bytes([
        front[0], front[1], front[2], front[3], front[4], front[5], front[6], front[7],
    ]);
    Ok((number, rest))
}
