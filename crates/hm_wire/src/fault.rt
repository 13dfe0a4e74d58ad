ghost use Rattle.std.specs.Prelude.{◌≡◌};
ghost use Rattle.hm_wire.specs.Reading.{located_at};

use crate::malformed::{Malformed, Reason};

/// A fault, by how many bytes were left where it was found.
#[derive(Clone, Copy, Debug, PartialEq, Eq)]
pub struct Fault {
    pub left: usize,
    pub reason: Reason,
}

/// The bytes end too early.
pub const SHORT: Fault = Fault {
    left: 0,
    reason: Reason::Short,
};

/// The fault by its place among `len` bytes. A place above `u32`, which no packet's fault has, becomes the greatest `u32`.
pub fn malformed(len: usize, fault: Fault) -> Malformed
    ensures { result ≡ located_at len fault }
{
    let place = len.saturating_sub(fault.left);
    let at = if place > u32::MAX as usize {
        u32::MAX
    } else {
        place as u32
    };
    Malformed {
        at,
        reason: fault.reason,
    }
}
