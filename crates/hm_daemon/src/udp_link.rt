ghost use Rattle.std.specs.Prelude.{◌≡◌, None};

use hm_base::node::Node;
use hm_frame::datagram::Taken;
use hm_frame::link::Link;
use hm_outside::device::Failed;
use std::io::{Error, ErrorKind};
use std::net::{SocketAddr, UdpSocket};

/// Datagrams over a UDP socket, between nodes whose addresses are listed: of two addresses of one node the first counts, and a packet
/// to a node that has none is lost, as any datagram may be. Its waiting time is the socket's read timeout. It tells nothing of
/// what comes and goes.
#[derive(Drop)]
pub struct UdpLink {
    socket: UdpSocket,
    nodes: Vec<(Node, SocketAddr)>,
    faults: u64,
}

impl UdpLink {
    ghost use Rattle.hm_daemon.specs.UdpLinks.{udp_faults};

    /// The link over this socket, with no fault so far. It takes no memory.
    pub fn new(socket: UdpSocket, nodes: Vec<(Node, SocketAddr)>) -> UdpLink
        ensures { udp_faults result ≡ 0 }
    {
        UdpLink {
            socket,
            nodes,
            faults: 0,
        }
    }

    /// Where a node is, if that is listed.
    fn address(&self, node: Node) -> Option<SocketAddr> {
        for (known, address) in &self.nodes {
            if *known == node {
                return Some(*address);
            }
        }
        None
    }
}

impl Link for UdpLink {
    ghost use Rattle.hm_daemon.specs.UdpLinks.{udp_faults};

    ghost coming = { λ _. None };

    ghost sent = { λ _. None };

    ghost faults = { udp_faults };

    fn take(&mut self, buf: &mut [u8]) -> Taken {
        match self.socket.recv_from(buf) {
            Ok((len, _)) => Taken::Datagram(len),
            Err(error) if is_passing(&error) => Taken::Quiet,
            Err(_) => {
                self.faults = self.faults.saturating_add(1);
                Taken::Failed
            }
        }
    }

    fn send(&mut self, dst: Node, bytes: &[u8]) -> Result<(), Failed> {
        let Some(address) = self.address(dst) else {
            return Ok(());
        };
        match self.socket.send_to(bytes, address) {
            Ok(_) => Ok(()),
            Err(error) if is_passing(&error) => Ok(()),
            Err(_) => {
                self.faults = self.faults.saturating_add(1);
                Err(Failed)
            }
        }
    }
}

/// Whether an error of a socket says no more than that nothing came, or that a datagram is lost: on its way, where there is none just
/// now, or at a rule of this machine's packet filter.
fn is_passing(error: &Error) -> bool {
    match error.kind() {
        ErrorKind::WouldBlock
        | ErrorKind::TimedOut
        | ErrorKind::Interrupted
        | ErrorKind::ConnectionRefused
        | ErrorKind::HostUnreachable
        | ErrorKind::NetworkDown
        | ErrorKind::NetworkUnreachable
        | ErrorKind::PermissionDenied => true,
        _ => false,
    }
}
