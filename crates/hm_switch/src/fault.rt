use thiserror::Error;

/// Why a switch can't be opened: the first argument that is out of its range, or want of memory.
#[derive(Clone, Copy, Debug, PartialEq, Eq, Error)]
pub enum SwitchFault {
    #[error("switches are numbered from 1")]
    Id,
    #[error("a dirty table has 1 to 4 stages")]
    Stages,
    #[error("a place in a stage has at most 12 bits")]
    Bits,
    #[error("a switch handles 1 to 4,194,304 packets")]
    Life,
    #[error("memory is wanting")]
    NoMemory,
}
