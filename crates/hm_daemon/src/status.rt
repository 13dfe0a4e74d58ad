ghost use Rattle.std.specs.Prelude.{◌≡◌};

use hm_schedule::line::LineReason;

/// How a daemon ended. Lines are numbered from 1.
#[derive(Clone, Copy, Debug, PartialEq, Eq)]
pub enum NodeStatus {
    /// The link ended, or the orders were read to their end, or the reply came and was written.
    Done,
    /// The link ended before the reply came.
    NoReply,
    /// The words aren't those of the daemon.
    BadWords,
    /// This line is the first that is no order.
    BadLine { line: u64, reason: LineReason },
    /// The source failed.
    ReadFault,
    /// The sink failed.
    WriteFault,
    /// As many turns were made as the words allow.
    TurnsSpent,
    /// Memory was wanting.
    NoMemory,
    /// The switch handled as many packets as it may.
    SwitchSpent,
    /// The link failed.
    LinkFault,
}

impl NodeStatus {
    ghost use Rattle.hm_daemon.specs.Statuses.{code_of};

    /// The status that the program ends with.
    pub fn code(&self) -> u8
        ensures { result ≡ code_of self.now }
    {
        match self {
            NodeStatus::Done => 0,
            NodeStatus::NoReply => 1,
            NodeStatus::BadWords => 2,
            NodeStatus::BadLine { .. } => 3,
            NodeStatus::ReadFault => 4,
            NodeStatus::WriteFault => 5,
            NodeStatus::TurnsSpent => 6,
            NodeStatus::NoMemory => 7,
            NodeStatus::SwitchSpent => 8,
            NodeStatus::LinkFault => 9,
        }
    }
}
