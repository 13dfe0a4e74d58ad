//! How the program ends, and what it tells a person then.

ghost use Rattle.std.specs.Prelude.{◌≡◌};
ghost use Rattle.hm_daemon.specs.Statuses.{code_of};

use hm_daemon::status::NodeStatus;
use std::fmt;
use std::net::SocketAddr;

/// The status where a node has no address.
const NO_ADDRESS: u8 = 10;

/// How the program ended.
#[derive(Clone, Copy, Debug, PartialEq, Eq)]
pub(crate) enum Ending {
    /// As its daemon did, or with the same status before that was started.
    Ran(NodeStatus),
    /// A listed address can't be read.
    Unread,
    /// The node can't have this address.
    Unbound(SocketAddr),
}

impl Ending {
    /// The status that the program ends with.
    pub(crate) fn code(&self) -> u8
        ensures ran { (status : NodeStatus) → self.now ≡ Ending.Ran status → result ≡ code_of status }
        ensures unread { self.now ≡ Ending.Unread → result ≡ 10 }
        ensures unbound { (address : SocketAddr) → self.now ≡ Ending.Unbound address → result ≡ 10 }
    {
        match self {
            Ending::Ran(status) => status.code(),
            Ending::Unread | Ending::Unbound(_) => NO_ADDRESS,
        }
    }
}

/// What is said of a status.
fn told(status: &NodeStatus) -> &'static str {
    match status {
        NodeStatus::Done => "all went well",
        NodeStatus::NoReply => "the link ended before the reply came",
        NodeStatus::BadWords => {
            "no such words. There are: switch ID WORKERS STAGES BITS LIFE TURNS KIND SIZE, replica R KIND SIZE CAP TURNS PATIENCE, config KIND SIZE TURNS, and client C REQUEST SWITCH TURNS OBJECT WHAT, each with NODE=IP:PORT for every node behind it. docs/operating.md describes them"
        }
        NodeStatus::BadLine { .. } => "a line is no order",
        NodeStatus::ReadFault => "standard input failed: it was not read to its end",
        NodeStatus::WriteFault => "standard output failed: not all of the text was written",
        NodeStatus::TurnsSpent => {
            "TURNS is used up: a client had no reply by then, and the service was given more orders"
        }
        NodeStatus::NoMemory => "memory was wanting",
        NodeStatus::SwitchSpent => "the switch handled as many packets as LIFE says",
        NodeStatus::LinkFault => "the socket failed",
    }
}

impl fmt::Display for Ending {
    fn fmt<W: fmt::Write>(&self, f: &mut fmt::Formatter<W>) -> fmt::Result {
        match self {
            Ending::Ran(NodeStatus::BadLine { line, reason }) => {
                write!(f, "hmd: line {line} of the orders is bad: {reason:?}")
            }
            Ending::Ran(status) => write!(f, "hmd: {}", told(status)),
            Ending::Unread => f.write_str(
                "hmd: an address can't be read: it has to be an IP address and a port, as in r0=10.0.0.3:7000",
            ),
            Ending::Unbound(address) => {
                write!(
                    f,
                    "hmd: the address {address} can't be had: another process has it, or it is none of this machine"
                )
            }
        }
    }
}
