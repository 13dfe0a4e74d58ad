ghost use Rattle.std.specs.Prelude.{◌≡◌};
ghost use Rattle.hm_replay.specs.Statuses.{ended, refused, status_of};

use hm_outside::device::NotPut;
use hm_schedule::line::LineReason;
use hm_schedule::refusal::Refusal;
use hm_show::show::Shown;
use hm_wire::malformed::Reason;

/// How a run ended. Lines and frames are numbered from 1.
#[derive(Clone, Copy, Debug, PartialEq, Eq)]
pub enum Status {
    /// The whole input was read and all of the text was written.
    Done,
    /// The words are no command.
    BadWords,
    /// This line of a schedule is the first outside the grammar.
    BadLine { line: u32, reason: LineReason },
    /// This frame is the first that is at fault, at this place, counted from its first byte.
    BadFrame { frame: u32, at: u32, reason: Reason },
    /// The source failed.
    ReadFault,
    /// The sink failed.
    WriteFault,
    /// The input is longer than the limits allow: the number of the line or frame that is one too many.
    TooLong { line: u32 },
    /// Memory was wanting.
    NoMemory,
}

impl Status {
    ghost use Rattle.hm_replay.specs.Statuses.{code_of};

    /// The status that the program ends with.
    pub fn code(&self) -> u8
        ensures { result ≡ code_of self.now }
    {
        match self {
            Status::Done => 0,
            Status::BadWords => 2,
            Status::BadLine { .. } | Status::BadFrame { .. } => 3,
            Status::ReadFault => 4,
            Status::WriteFault => 5,
            Status::TooLong { .. } => 6,
            Status::NoMemory => 7,
        }
    }
}

/// The status after a show.
pub(crate) fn status_of(shown: Shown) -> Status
    ensures { result ≡ status_of shown }
{
    match shown {
        Shown::Done => Status::Done,
        Shown::BadFrame { number, fault } => Status::BadFrame {
            frame: number,
            at: fault.at,
            reason: fault.reason,
        },
        Shown::ReadFault => Status::ReadFault,
        Shown::WriteFault => Status::WriteFault,
        Shown::TooLong { number } => Status::TooLong { line: number },
        Shown::NoMemory => Status::NoMemory,
    }
}

/// The status behind the end of a run's text, which is this one where all of it was put.
pub(crate) fn ended(closed: Result<(), NotPut>, whole: Status) -> Status
    ensures { result ≡ ended closed whole }
{
    match closed {
        Ok(()) => whole,
        Err(NotPut::Failed) => Status::WriteFault,
        Err(NotPut::NoMemory) => Status::NoMemory,
    }
}

/// The status where this line of a schedule is refused.
pub(crate) fn refused(line: u32, refusal: Refusal) -> Status
    ensures { result ≡ refused line refusal }
{
    match refusal {
        Refusal::TooLong => Status::TooLong { line },
        Refusal::Bad(reason) => Status::BadLine { line, reason },
    }
}
