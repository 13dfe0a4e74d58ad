use crate::why::Why;

/// A client's greatest request in a log, and the least index at which it stands.
#[derive(Clone, Copy, Debug, PartialEq, Eq)]
pub struct LatestRequest {
    pub request: u64,
    pub index: u32,
}

/// How a client's request stands to those of a log.
#[derive(Clone, Copy, Debug, PartialEq, Eq)]
pub enum Verdict {
    /// The client's greatest request is lower, or there is none.
    New,
    /// It is the client's greatest request, and stands at this index.
    Again { index: u32 },
    /// The client's greatest request is higher.
    Old,
}

/// What an entry node makes of a numbered write.
#[derive(Clone, Copy, Debug, PartialEq, Eq)]
pub enum Admit {
    Take,
    /// The log has it already, at this index.
    Again { index: u32 },
    Drop(Why),
}
