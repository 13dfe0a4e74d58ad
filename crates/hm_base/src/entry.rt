ghost use Rattle.std.specs.Prelude.{◌≡◌};
ghost use Rattle.hm_base.specs.Logs.{is_write};

use crate::stamp::Stamp;
use crate::value::Value;

/// What an entry does: it sets an object's value, or it is a logged read.
#[derive(Clone, Copy, Debug, PartialEq, Eq, Default)]
pub enum Act {
    Put(Value),
    #[default]
    Look,
}

/// One entry of a replicated log.
#[derive(Clone, Copy, Debug, PartialEq, Eq, Default)]
pub struct Entry {
    pub stamp: Stamp,
    pub client: u32,
    pub request: u64,
    pub object: u32,
    pub act: Act,
}

impl Entry {
    /// Whether the entry is a write.
    pub fn is_write(&self) -> bool
        ensures { result ≡ is_write self.now }
    {
        matches!(self.act, Act::Put(_))
    }
}
