ghost use Rattle.std.specs.Prelude.{◌≡◌, ◌↔◌, IsTrue};
ghost use Rattle.hm_base.specs.Stamps.{stamp_le, stamp_lt};

/// A switch's number and its sequence number. Stamps compare by switch, then by sequence number (Harmonia's pairs).
#[derive(Clone, Copy, Debug, PartialEq, Eq, PartialOrd, Ord, Default, Hash)]
pub struct Stamp {
    pub switch: u32,
    pub seq: u64,
}

impl Stamp {
    /// The least stamp, 0.0. No write carries it.
    pub const LEAST: Stamp = Stamp { switch: 0, seq: 0 };
}

/// Whether the first stamp is at most the second.
pub fn is_at_most(first: Stamp, second: Stamp) -> bool
    ensures { result ≡ stamp_le first second }
{
    first <= second
}

/// Whether the first stamp is below the second.
pub fn is_below(first: Stamp, second: Stamp) -> bool
    ensures { result ≡ stamp_lt first second }
{
    first < second
}
