ghost use Rattle.std.specs.Prelude.{◌≡◌, ◌^◌, ◌<◌};
ghost use Rattle.hm_show.specs.Verdicts.{end_of};

use hm_wire::malformed::{Malformed, Reason};

/// Why nothing more is shown.
#[derive(Clone, Copy, Debug, PartialEq, Eq)]
pub enum Verdict {
    /// The input ended behind a frame.
    Whole,
    /// A frame is at fault.
    Bad(Malformed),
    /// There are more bytes than may be shown.
    Long,
}

/// The verdict at the end of the input, with so many bytes of a frame before it.
pub(crate) fn verdict_at_end(held: usize) -> Verdict
    requires { held < 2 ^ 32 }
    ensures { result ≡ end_of held }
{
    if held == 0 {
        return Verdict::Whole;
    }
    Verdict::Bad(Malformed {
        at: held as u32,
        reason: Reason::Short,
    })
}
