//! The sockets of nodes, and their addresses.

use crate::ending::Ending;
use hm_base::node::Node;
use hm_daemon::address::read_address;
use hm_daemon::status::NodeStatus;
use hm_daemon::udp_link::UdpLink;
use std::net::{Ipv4Addr, SocketAddr, SocketAddrV4, UdpSocket};
use std::time::Duration;

/// How long a take waits for a datagram, in milliseconds.
const WAITING_TIME: u64 = 200;

/// The nodes that the words list, each with its address.
fn listed(rt: &HostRuntime, words: &[String]) -> Result<Vec<(Node, SocketAddr)>, Ending> {
    let mut nodes = Vec::new(rt.alloc());
    for word in words {
        if let Some((node, address)) = read_address(word.as_bytes()) {
            let Ok(address) = SocketAddr::parse_ascii(address) else {
                return Err(Ending::Unread);
            };
            if nodes.push((node, address)).is_err() {
                return Err(Ending::Ran(NodeStatus::NoMemory));
            }
        }
    }
    Ok(nodes)
}

/// The first address of a node, or any port of this machine.
fn address_of(me: Node, nodes: &[(Node, SocketAddr)]) -> SocketAddr {
    for (node, address) in nodes {
        if *node == me {
            return *address;
        }
    }
    SocketAddr::V4(SocketAddrV4::new(Ipv4Addr::LOCALHOST, 0))
}

/// A socket at this address, whose takes wait no longer than the waiting time.
fn open_socket(rt: &HostRuntime, address: SocketAddr) -> Option<UdpSocket> {
    let socket = UdpSocket::bind(rt, address).ok()?;
    let waiting_time = Duration::from_millis(WAITING_TIME);
    socket.set_read_timeout(Some(waiting_time)).ok()?;
    Some(socket)
}

/// The link of a node over a socket that is bound to its address.
pub(crate) fn open_link(rt: &HostRuntime, me: Node, words: &[String]) -> Result<UdpLink, Ending> {
    let nodes = listed(rt, words)?;
    let address = address_of(me, &nodes);
    match open_socket(rt, address) {
        Some(socket) => Ok(UdpLink::new(socket, nodes)),
        None => Err(Ending::Unbound(address)),
    }
}
