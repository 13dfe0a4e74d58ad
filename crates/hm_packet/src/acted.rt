use hm_base::why::Why;

/// How many packets one step sends at most.
pub const MAX_OUTS: usize = 24;

/// A range of a log that a step declares committed, empty where its ends are equal.
#[derive(Clone, Copy, Debug, PartialEq, Eq)]
pub struct Declared {
    pub from: u32,
    pub to: u32,
}

/// How a replica's step ended. Ignored and LogFull change nothing and send nothing.
#[derive(Clone, Copy, Debug, PartialEq, Eq)]
pub enum Did {
    Done,
    Ignored(Why),
    LogFull,
}
