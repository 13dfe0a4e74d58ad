ghost use Rattle.hm_packet.specs.Messages.{IsLawfulNode};

use hm_base::node::{GroupKind, Node};
use hm_base::stamp::Stamp;
use hm_base::value::Value;
use hm_outside::device::NotPut;
use hm_outside::memory::MemorySink;
use hm_packet::body::{Body, Done, Feed, FeedAck, Read, Write};
use hm_packet::packet::Packet;
use hm_packet::route::Route;
use hm_packet::turn::Turn;
use hm_reconfig::service::Service;
use hm_shared::book::{Book, MAX_BOOK_LIFE};
use hm_shared::journal::{Call, Record, Turned1};
use hm_switch::fault::SwitchFault;
use std::alloc::Global;
use std::test::Fail;

/// Where a switch sends in a chain of one.
pub(crate) fn route() -> Route {
    Service::open(GroupKind::Chain, 1).route()
}

fn packet(src: Node, body: Body<'static>) -> Packet<'static>
    requires { IsLawfulNode src }
{
    Packet {
        src,
        dst: Node::Switch(1),
        body,
    }
}

pub(crate) fn write() -> Result<Packet<'static>, Fail> {
    let value = Value::from_slice(b"a").ok_or("value")?;
    Ok(packet(
        Node::Client(7),
        Body::Write(Write {
            request: 1,
            object: 5,
            value,
        }),
    ))
}

pub(crate) fn done() -> Packet<'static> {
    packet(
        Node::Replica(0),
        Body::Done(Done {
            stamp: Stamp { switch: 1, seq: 1 },
            client: 7,
            request: 1,
        }),
    )
}

pub(crate) fn read() -> Packet<'static> {
    packet(
        Node::Client(8),
        Body::Read(Read {
            request: 1,
            object: 5,
        }),
    )
}

fn ack() -> Packet<'static> {
    packet(Node::Replica(0), Body::FeedAck(FeedAck { view: 0, len: 1 }))
}

pub(crate) fn book(alloc: Global, life: u32) -> Result<Book, Fail> {
    Ok(Book::open(alloc, 1, 3, 10, life, &route()).map_err(|_| "memory")?)
}

/// Three turns of seat 0: a write, its completion and a read of the object.
fn three_turns(alloc: Global, life: u32) -> Result<Book, Fail> {
    let mut book = book(alloc, life)?;
    for packet in [write()?, done(), read()] {
        book.turn(0, &packet);
    }
    Ok(book)
}

pub(crate) const TEXT: &[u8] = b"turn 0 0 c7 s1 write 1 5 61 = sent s1 r0 put 1.1 7 1 5 61
turn 1 0 r0 s1 done 1.1 7 1 = sent s1 c7 reply 1 1.1 wrote
turn 2 0 c8 s1 read 1 5 = sent s1 r0 fastread 1.1 8 1 5
end 3
";

#[test]
fn opens_within_its_ranges(rt: HostRuntime) {
    for (id, stages, bits, life, fault) in [
        (0, 3, 10, 4, SwitchFault::Id),
        (1, 5, 10, 4, SwitchFault::Stages),
        (1, 3, 13, 4, SwitchFault::Bits),
        (1, 3, 10, 0, SwitchFault::Life),
        (1, 3, 10, MAX_BOOK_LIFE + 1, SwitchFault::Life),
    ] {
        let book = Book::open(rt.alloc(), id, stages, bits, life, &route());
        assert_eq!(rt; book.err(), Some(fault));
    }
}

/// What a book says of four turns: the place of each, how many there are, whether its switch is active, and the first and the last
/// record.
fn recorded(alloc: Global) -> Result<([u32; 4], u32, bool, [Record; 2]), Fail> {
    let mut book = book(alloc, 16)?;
    let places = [
        book.turn(0, &write()?).place,
        book.turn(0, &done()).place,
        book.turn(0, &read()).place,
        book.turn(3, &ack()).place,
    ];
    if book.kept(4).is_some() {
        return Err("a fifth record")?;
    }
    let first = book.kept(0).ok_or("record")?;
    let last = book.kept(3).ok_or("record")?;
    Ok((places, book.len(), book.switch().active(), [first, last]))
}

#[test]
fn keeps_a_record_of_each_turn(rt: HostRuntime) -> Result<(), Fail> {
    let (places, count, is_active, [first, last]) = recorded(rt.alloc())?;
    assert_eq!(rt; places, [0, 1, 2, 3]);
    assert_eq!(rt; (count, is_active), (4, true));
    assert!(rt; first.seat == 0 && first.src == Node::Client(7) && first.dst == Node::Switch(1));
    let put = Turned1::Sent {
        dst: Node::Replica(0),
        stamp: Stamp { switch: 1, seq: 1 },
    };
    assert_eq!(rt; first.turn, put);
    assert_eq!(rt; last.seat, 3);
    assert!(rt; matches!(last.call, Call::Other { kind: 9 }));
    Ok(())
}

/// How the journal of three turns is written to a sink whose calls with these numbers fail, and what the sink has then.
fn journal(alloc: Global, fails: &[u64]) -> Result<(Result<(), NotPut>, MemorySink), Fail> {
    let book = three_turns(alloc, 16)?;
    let mut sink = MemorySink::open(alloc, 1000, fails.to_vec(alloc)?)?;
    let written = book.write_journal(alloc, &mut sink);
    Ok((written, sink))
}

#[test]
fn writes_the_journal(rt: HostRuntime) -> Result<(), Fail> {
    let (written, sink) = journal(rt.alloc(), &[])?;
    assert_eq!(rt; written, Ok(()));
    assert!(rt; sink.as_slice() == TEXT);
    Ok(())
}

#[test]
fn a_sink_that_fails_has_whole_lines(rt: HostRuntime) -> Result<(), Fail> {
    let (written, sink) = journal(rt.alloc(), &[3])?;
    assert_eq!(rt; written, Err(NotPut::Failed));
    assert!(rt; sink.as_slice() == &TEXT[..117]);
    Ok(())
}

/// How many turns a book of two has, the place that it gives a third, whether its switch is spent then, and whether there is a record.
fn spent(alloc: Global) -> Result<(u32, u32, bool, bool), Fail> {
    let mut book = three_turns(alloc, 2)?;
    let count = book.len();
    let told = book.turn(0, &read());
    let is_spent = matches!(told.turn, Turn::Spent);
    Ok((count, told.place, is_spent, book.kept(2).is_some()))
}

#[test]
fn is_spent_at_the_end_of_its_life(rt: HostRuntime) -> Result<(), Fail> {
    assert_eq!(rt; spent(rt.alloc())?, (2, 2, true, false));
    Ok(())
}

#[test]
fn a_record_has_at_most_256_bytes(rt: HostRuntime) {
    assert!(rt; std::mem::size_of::<Record>() <= 256);
}
