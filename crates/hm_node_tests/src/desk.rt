use crate::daemon::{is_posted, link_with, spelled, words};
use crate::shared::route;
use hm_base::node::Node;
use hm_daemon::status::NodeStatus;
use hm_desk::config::serve_config;
use hm_frame::datagram::Item;
use hm_frame::memory_link::MemoryLink;
use hm_outside::memory::{MemorySink, MemorySource};
use hm_packet::body::{Body, Refuse, Refused};
use hm_packet::packet::Packet;
use hm_schedule::line::LineReason;
use std::alloc::Global;
use std::test::Fail;

/// How the service of these words ends over these orders, and the lines that it writes.
fn served(
    alloc: Global,
    line: &str,
    orders: &str,
    link: &mut MemoryLink,
) -> Result<(NodeStatus, MemorySink), Fail> {
    let words = words(alloc, line)?;
    let bytes = orders.as_bytes().to_vec(alloc)?;
    let mut source = MemorySource::new(bytes, Vec::new(alloc));
    let mut sink = MemorySink::open(alloc, 400, Vec::new(alloc))?;
    let status = serve_config(alloc, &words, &mut source, link, &mut sink);
    Ok((status, sink))
}

/// The orders that replace a switch.
const REPLACE: &str = "retire\ntake\nstart 0\n";

/// The only replica takes nothing more of switch 1.
fn refused() -> Packet<'static> {
    Packet {
        src: Node::Replica(0),
        dst: Node::Config,
        body: Body::Refused(Refused { switch: 1 }),
    }
}

/// Switch 2 is told where to send.
fn routed() -> Packet<'static> {
    Packet {
        src: Node::Config,
        dst: Node::Switch(2),
        body: Body::Route(route()),
    }
}

/// How the service of a chain of one ends over these orders and a link to which a refusal comes and whose calls with these numbers
/// fail, and the lines that it writes.
fn served_alone(
    alloc: Global,
    orders: &str,
    fails: &[u64],
) -> Result<(NodeStatus, MemorySink), Fail> {
    let mut link = link_with(alloc, &refused(), fails)?;
    served(alloc, "config chain 1 10", orders, &mut link)
}

/// The same of a switch's replacement over a link that doesn't fail, and whether just its two packets were sent.
fn replaced(alloc: Global) -> Result<(NodeStatus, MemorySink, bool), Fail> {
    let mut link = link_with(alloc, &refused(), &[])?;
    let (status, sink) = served(alloc, "config chain 1 10", REPLACE, &mut link)?;
    let refuse = Packet {
        src: Node::Config,
        dst: Node::Replica(0),
        body: Body::Refuse(Refuse { switch: 1 }),
    };
    let is_told = match link.sent() {
        [first, second] => is_posted(first, &refuse) && is_posted(second, &routed()),
        _ => false,
    };
    Ok((status, sink, is_told))
}

#[test]
fn replaces_a_switch(rt: HostRuntime) -> Result<(), Fail> {
    let (status, sink, is_told) = replaced(rt.alloc())?;
    assert_eq!(rt; status, NodeStatus::Done);
    assert_eq!(rt;
        sink.as_slice(),
        b"retire ok\ntake ok\nstart 2\n".as_slice()
    );
    assert!(rt; is_told);
    Ok(())
}

#[test]
fn writes_no_line_where_the_link_of_the_service_fails(rt: HostRuntime) -> Result<(), Fail> {
    for (call, lines) in [(1, ""), (2, "retire ok\n"), (3, "retire ok\ntake ok\n")] {
        let (status, sink) = served_alone(rt.alloc(), REPLACE, &[call])?;
        assert_eq!(rt; status, NodeStatus::LinkFault, "at {call}");
        assert_eq!(rt; sink.as_slice(), lines.as_bytes());
    }
    Ok(())
}

#[test]
fn stops_at_a_line_that_is_no_order(rt: HostRuntime) -> Result<(), Fail> {
    for (orders, reason) in [
        ("retire\nretire", LineReason::End),
        ("retire\nretire\t\n", LineReason::Byte),
        ("retire\nrestart 0\n", LineReason::Word),
        ("retire\ntake 0\n", LineReason::Count),
        ("retire\nremove\n", LineReason::Count),
        ("retire\nremove  0\n", LineReason::Count),
        ("retire\nremove 256\n", LineReason::Number),
        ("retire\nremove 255\n", LineReason::Range),
        ("retire\nstart 0 01\n", LineReason::Number),
        ("retire\nstart 1 1\n", LineReason::Range),
        ("retire\nstart 0 7 x\n", LineReason::Range),
    ] {
        let (status, sink) = served_alone(rt.alloc(), orders, &[])?;
        assert_eq!(rt; status, NodeStatus::BadLine { line: 2, reason }, "{orders}");
        assert_eq!(rt; sink.as_slice(), b"retire ok\n".as_slice());
    }
    Ok(())
}

/// How the service of a primary and a backup ends over orders of each kind and a link to which a refusal comes and then nothing.
fn served_each(alloc: Global) -> Result<(NodeStatus, MemorySink), Fail> {
    let coming = vec![in alloc; Item::Datagram(spelled(&refused())), Item::Quiet]?;
    let mut link = MemoryLink::open(alloc, coming, 20, Vec::new(alloc))?;
    let orders =
        "remove 2\nstart 0 1\ntake\nretire\nstart 0 1\ntake\ntake\nremove 0\nremove 1\nstart\n";
    served(alloc, "config primary 2 10", orders, &mut link)
}

#[test]
fn says_what_each_order_comes_to(rt: HostRuntime) -> Result<(), Fail> {
    let (status, sink) = served_each(rt.alloc())?;
    assert_eq!(rt; status, NodeStatus::Done);
    assert_eq!(rt;
        sink.as_slice(),
        b"remove NotMember\nstart NotRetired\ntake ignored Status\nretire ok\nstart NotRefused 0\ntake quiet\ntake ended\nremove ok\nremove Last\nstart 2\n".as_slice()
    );
    Ok(())
}

#[test]
fn carries_no_more_orders_out_than_its_words_say(rt: HostRuntime) -> Result<(), Fail> {
    for (orders, ended) in [
        ("retire\n", NodeStatus::Done),
        ("retire\nretire\n", NodeStatus::TurnsSpent),
        ("retire\n\n", NodeStatus::TurnsSpent),
    ] {
        let mut link = link_with(rt.alloc(), &refused(), &[])?;
        let (status, sink) = served(rt.alloc(), "config vr 1 1", orders, &mut link)?;
        assert_eq!(rt; status, ended, "{orders}");
        assert_eq!(rt; sink.as_slice(), b"retire ok\n".as_slice());
    }
    Ok(())
}
