use hm_base::node::Node;
use hm_base::operation::Answer;
use hm_base::stamp::Stamp;
use hm_base::value::Value;
use hm_codec::buf::{Buf, MAX_LEN};
use hm_codec::encode::encode;
use hm_daemon::client::ask;
use hm_daemon::replica::serve_replica;
use hm_daemon::status::NodeStatus;
use hm_daemon::udp_link::UdpLink;
use hm_frame::datagram::{Item, Posted, Taken};
use hm_frame::link::Link;
use hm_frame::memory_link::MemoryLink;
use hm_outside::memory::MemorySink;
use hm_packet::body::{Body, Done, Put, Reply, Write};
use hm_packet::packet::Packet;
use std::alloc::Global;
use std::net::{Ipv4Addr, SocketAddr, SocketAddrV4, UdpSocket};
use std::test::Fail;
use std::time::Duration;

/// A line of words, one by one.
pub(crate) fn words(alloc: Global, line: &str) -> Result<Vec<String>, Fail> {
    let mut words = Vec::new(alloc);
    for word in line.split(' ') {
        words.push(String::from_str(alloc, word)?)?;
    }
    Ok(words)
}

/// A packet's spelling.
pub(crate) fn spelled(packet: &Packet) -> Buf<MAX_LEN> {
    let mut buf = Buf::new();
    encode(packet, &mut buf);
    buf
}

/// A link to which one packet comes, whose calls with the listed numbers fail.
pub(crate) fn link_with(alloc: Global, packet: &Packet, fails: &[u64]) -> Result<MemoryLink, Fail> {
    let coming = vec![in alloc; Item::Datagram(spelled(packet))]?;
    Ok(MemoryLink::open(alloc, coming, 4, fails.to_vec(alloc)?)?)
}

/// Whether this packet was sent.
pub(crate) fn is_posted(posted: &Posted, packet: &Packet) -> bool {
    posted.dst == packet.dst && posted.bytes.as_slice() == spelled(packet).as_slice()
}

/// Whether just this packet was sent.
fn is_sent(sent: &[Posted], packet: &Packet) -> bool {
    match sent {
        [posted] => is_posted(posted, packet),
        _ => false,
    }
}

/// The first write of switch 1.
fn put() -> Result<Packet<'static>, Fail> {
    Ok(Packet {
        src: Node::Switch(1),
        dst: Node::Replica(0),
        body: Body::Put(Put {
            stamp: Stamp { switch: 1, seq: 1 },
            client: 7,
            request: 1,
            object: 5,
            value: Value::from_slice(b"a").ok_or("a value")?,
        }),
    })
}

/// The reply to it.
fn reply() -> Packet<'static> {
    Packet {
        src: Node::Switch(1),
        dst: Node::Client(7),
        body: Body::Reply(Reply {
            request: 1,
            version: Stamp { switch: 1, seq: 1 },
            answer: Answer::Wrote,
        }),
    }
}

#[test]
fn serves_a_chain_of_one(rt: HostRuntime) -> Result<(), Fail> {
    let words = words(rt.alloc(), "replica 0 chain 1 16 10 0")?;
    let mut link = link_with(rt.alloc(), &put()?, &[])?;
    assert_eq!(rt;
        serve_replica(rt.alloc(), &words, &mut link),
        NodeStatus::Done
    );
    let done = Packet {
        src: Node::Replica(0),
        dst: Node::Switch(1),
        body: Body::Done(Done {
            stamp: Stamp { switch: 1, seq: 1 },
            client: 7,
            request: 1,
        }),
    };
    assert!(rt; is_sent(link.sent(), &done));
    Ok(())
}

/// How a replica of these words ends over a link to which the write comes and whose calls with these numbers fail, and how many
/// datagrams it sent.
fn served(alloc: Global, line: &str, fails: &[u64]) -> Result<(NodeStatus, usize), Fail> {
    let words = words(alloc, line)?;
    let mut link = link_with(alloc, &put()?, fails)?;
    let status = serve_replica(alloc, &words, &mut link);
    Ok((status, link.sent().len()))
}

#[test]
fn stops_where_the_link_of_a_replica_fails(rt: HostRuntime) -> Result<(), Fail> {
    for (call, sent) in [(1, 0), (2, 0), (3, 1)] {
        let ended = served(rt.alloc(), "replica 0 chain 1 16 10 0", &[call])?;
        assert_eq!(rt; ended, (NodeStatus::LinkFault, sent), "at {call}");
    }
    Ok(())
}

#[test]
fn asks_and_writes_the_reply(rt: HostRuntime) -> Result<(), Fail> {
    let words = words(rt.alloc(), "client 7 1 1 10 5 61")?;
    let mut link = link_with(rt.alloc(), &reply(), &[])?;
    let mut sink = MemorySink::open(rt.alloc(), 100, Vec::new(rt.alloc()))?;
    assert_eq!(rt;
        ask(rt.alloc(), &words, &mut link, &mut sink),
        NodeStatus::Done
    );
    assert_eq!(rt; sink.as_slice(), b"reply 7.1 1.1 wrote\n".as_slice());
    let asked = Packet {
        src: Node::Client(7),
        dst: Node::Switch(1),
        body: Body::Write(Write {
            request: 1,
            object: 5,
            value: Value::from_slice(b"a").ok_or("a value")?,
        }),
    };
    assert!(rt; is_sent(link.sent(), &asked));
    Ok(())
}

/// How a client ends over a link to which the reply comes and whose calls with these numbers fail, how many datagrams it sent, and
/// how many bytes it wrote.
fn asked(alloc: Global, fails: &[u64]) -> Result<(NodeStatus, usize, usize), Fail> {
    let words = words(alloc, "client 7 1 1 10 5 61")?;
    let mut link = link_with(alloc, &reply(), fails)?;
    let mut sink = MemorySink::open(alloc, 100, Vec::new(alloc))?;
    let status = ask(alloc, &words, &mut link, &mut sink);
    Ok((status, link.sent().len(), sink.as_slice().len()))
}

#[test]
fn stops_where_the_link_of_a_client_fails(rt: HostRuntime) -> Result<(), Fail> {
    for (call, sent) in [(1, 0), (2, 1)] {
        let ended = asked(rt.alloc(), &[call])?;
        assert_eq!(rt; ended, (NodeStatus::LinkFault, sent, 0), "at {call}");
    }
    Ok(())
}

#[test]
fn takes_no_other_words(rt: HostRuntime) -> Result<(), Fail> {
    for line in [
        "replica 1 chain 1 16 10 0",
        "replica 0 vr 2 16 10 0",
        "replica 0 chain 1 16 0 0",
        "replica 0 chain 1 16 10 0 r0=",
    ] {
        let ended = served(rt.alloc(), line, &[])?;
        assert_eq!(rt; ended, (NodeStatus::BadWords, 0), "{line}");
    }
    Ok(())
}

/// A socket on any port of this machine, and its address.
fn socket(rt: &HostRuntime) -> Result<(UdpSocket, SocketAddr), Fail> {
    let any = SocketAddr::V4(SocketAddrV4::new(Ipv4Addr::new(127, 0, 0, 1), 0));
    let socket = UdpSocket::bind(rt, any)?;
    socket.set_read_timeout(Some(Duration::from_millis(200)))?;
    let address = socket.local_addr()?;
    Ok((socket, address))
}

/// The links of client 7, switch 1 and replica 0 to each other.
fn links(rt: &HostRuntime) -> Result<[UdpLink; 3], Fail> {
    let (client, client_address) = socket(rt)?;
    let (switch, switch_address) = socket(rt)?;
    let (replica, replica_address) = socket(rt)?;
    let nodes = vec![in rt.alloc();
        (Node::Client(7), client_address),
        (Node::Switch(1), switch_address),
        (Node::Replica(0), replica_address),
    ]?;
    Ok([
        UdpLink::new(client, nodes.clone()?),
        UdpLink::new(switch, nodes.clone()?),
        UdpLink::new(replica, nodes),
    ])
}

/// Whether a packet that is sent over one link comes over another.
fn is_carried(from: &mut UdpLink, to: &mut UdpLink, packet: &Packet) -> Result<bool, Fail> {
    let bytes = spelled(packet);
    from.send(packet.dst, bytes.as_slice())?;
    let mut buf = [0; MAX_LEN];
    Ok(to.take(&mut buf) == Taken::Datagram(bytes.as_slice().len()))
}

/// Whether nothing comes over a link.
fn is_quiet(link: &mut UdpLink) -> bool {
    link.take(&mut [0; MAX_LEN]) == Taken::Quiet
}

/// Whether a write and its reply are carried and nothing after them, and whether a packet to a node with no address is lost.
fn talked(rt: &HostRuntime) -> Result<[bool; 4], Fail> {
    let [mut client, mut switch, mut replica] = links(rt)?;
    let put = is_carried(&mut switch, &mut replica, &put()?)?;
    let reply = is_carried(&mut replica, &mut client, &reply())?;
    let no_more = is_quiet(&mut client);
    replica.send(Node::Config, b"lost")?;
    Ok([put, reply, no_more, is_quiet(&mut switch)])
}

#[test]
fn talks_over_sockets(rt: HostRuntime) -> Result<(), Fail> {
    assert_eq!(rt; talked(&rt)?, [true; 4]);
    Ok(())
}
