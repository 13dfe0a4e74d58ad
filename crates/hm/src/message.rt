//! What the program tells a person who ran it.

use hm_replay::status::Status;
use std::fmt;

/// A line on how the program ended, for standard error.
#[derive(Drop)]
pub struct Message {
    status: Status,
}

impl Message {
    /// The line on this status. None where all went well.
    pub fn on(status: Status) -> Option<Message> {
        match status {
            Status::Done => None,
            _ => Some(Message { status }),
        }
    }
}

impl fmt::Display for Message {
    fn fmt<W: fmt::Write>(&self, f: &mut fmt::Formatter<W>) -> fmt::Result {
        match self.status {
            Status::Done => Ok(()),
            Status::BadWords => f.write_str(
                "hm: no such command. There are: replay, show, schedule N KIND SIZE, generate N KIND SIZE (KIND is chain, primary or vr, SIZE 1 to 7, odd for vr). docs/formats.md describes them and what they read and write",
            ),
            Status::BadLine { line, reason } => {
                write!(f, "hm: line {line} of the schedule is bad: {reason:?}")
            }
            Status::BadFrame { frame, at, reason } => {
                write!(f, "hm: frame {frame} is bad at its byte {at}: {reason:?}")
            }
            Status::ReadFault => f.write_str(
                "hm: standard input failed: it was not read to its end",
            ),
            Status::WriteFault => f.write_str(
                "hm: standard output failed: not all of the text was written",
            ),
            Status::TooLong { line } => {
                write!(
                    f,
                    "hm: standard input is too long: it goes on at line or frame {line}, past the limit"
                )
            }
            Status::NoMemory => f.write_str("hm: memory was wanting"),
        }
    }
}
