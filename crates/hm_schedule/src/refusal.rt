use crate::line::LineReason;

/// Why a schedule ends before its input does.
#[derive(Clone, Copy, Debug, PartialEq, Eq)]
pub enum Refusal {
    /// A byte comes behind as many events as there may be, or a line has more bytes than it may have.
    TooLong,
    /// The line isn't one that may stand there, and this is the first reason.
    Bad(LineReason),
}
