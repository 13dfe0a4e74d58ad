use hm_base::operation::{Answer, OpId};
use hm_base::stamp::Stamp;
use hm_base::value::Value;

/// What a client's operation asks for.
#[derive(Clone, Copy, Debug, PartialEq, Eq)]
pub enum Want {
    Read { object: u32 },
    Write { object: u32, value: Value },
}

/// One step of a history: a client invokes an operation, a write commits, or the client takes the reply.
#[derive(Clone, Copy, Debug, PartialEq, Eq)]
pub enum Mark {
    Invoke {
        op: OpId,
        want: Want,
    },
    Commit {
        op: OpId,
        stamp: Stamp,
    },
    Reply {
        op: OpId,
        version: Stamp,
        answer: Answer,
    },
}
