use crate::daemon::{spelled, words};
use crate::shared::{TEXT, book, done, read, write};
use hm_codec::buf::Buf;
use hm_daemon::node::run_node;
use hm_daemon::status::NodeStatus;
use hm_frame::datagram::Item;
use hm_frame::memory_link::MemoryLink;
use hm_outside::device::NotPut;
use hm_outside::memory::MemorySink;
use hm_worker::worker::Worker;
use hm_worker::worker_end::WorkerEnd;
use std::alloc::Global;
use std::sync::Wait;
use std::test::Fail;
use std::thread::Threads;

/// A worker to which a write, its completion and a read come, between them a waiting time and a datagram that is no packet, and whose
/// link fails at this call.
fn worker(alloc: Global, fails: u64) -> Result<Worker<MemoryLink>, Fail> {
    let coming = vec![in alloc;
        Item::Datagram(spelled(&write()?)),
        Item::Quiet,
        Item::Datagram(spelled(&done())),
        Item::Datagram(Buf::from_slice(b"no packet").ok_or("bytes")?),
        Item::Datagram(spelled(&read())),
    ]?;
    let link = MemoryLink::open(alloc, coming, 8, vec![in alloc; fails]?)?;
    Ok(Worker::new(link))
}

/// How a worker ends whose link fails at this call, over a book of this life and for so many turns, how many packets it took, and how
/// many it sent.
fn ended(alloc: Global, fails: u64, life: u32, turns: u64) -> Result<(WorkerEnd, u64, u64), Fail> {
    let mut book = book(alloc, life)?;
    let mut worker = worker(alloc, fails)?;
    worker.work(&mut book, turns);
    Ok((worker.end, worker.took, worker.sent))
}

/// How many packets a worker sends, and how the journal of its turns is written, and what the sink has then.
fn worked(alloc: Global) -> Result<(usize, Result<(), NotPut>, MemorySink), Fail> {
    let mut book = book(alloc, 16)?;
    let mut worker = worker(alloc, 100)?;
    worker.work(&mut book, 100);
    let mut sink = MemorySink::open(alloc, 1000, Vec::new(alloc))?;
    let written = book.write_journal(alloc, &mut sink);
    Ok((worker.link.sent().len(), written, sink))
}

#[test]
fn makes_each_packet_a_turn(rt: HostRuntime) -> Result<(), Fail> {
    let (sent, written, sink) = worked(rt.alloc())?;
    assert_eq!(rt; (sent, written), (3, Ok(())));
    assert!(rt; sink.as_slice() == TEXT);
    Ok(())
}

#[test]
fn ends_where_a_call_fails(rt: HostRuntime) -> Result<(), Fail> {
    // The first call takes the write, the second sends it, the third waits, and the fifth sends the reply.
    for (call, took, sent) in [(1, 0, 0), (2, 1, 0), (3, 1, 1), (5, 2, 1)] {
        let end = ended(rt.alloc(), call, 16, 100)?;
        assert_eq!(rt; end, (WorkerEnd::LinkFault, took, sent));
    }
    Ok(())
}

#[test]
fn ends_at_its_turns_and_at_the_end_of_the_life(rt: HostRuntime) -> Result<(), Fail> {
    for (life, turns, end) in [
        (16, 100, (WorkerEnd::Ended, 3, 3)),
        (2, 100, (WorkerEnd::SwitchSpent, 2, 2)),
        (16, 3, (WorkerEnd::TurnsSpent, 2, 2)),
    ] {
        assert_eq!(rt; ended(rt.alloc(), 100, life, turns)?, end);
    }
    Ok(())
}

/// How a switch of these words ends over one worker and a sink whose calls with these numbers fail, what it wrote, and how many packets
/// its worker took and sent.
fn ran<R: Threads + Wait + Sync>(
    rt: &R,
    alloc: Global,
    line: &str,
    fails: &[u64],
) -> Result<(NodeStatus, MemorySink, (u64, usize)), Fail> {
    let words = words(alloc, line)?;
    let mut workers = [worker(alloc, 100)?];
    let mut sink = MemorySink::open(alloc, 1000, fails.to_vec(alloc)?)?;
    let status = run_node(rt, alloc, &words, &mut workers, &mut sink);
    let counts = (workers[0].took, workers[0].link.sent().len());
    Ok((status, sink, counts))
}

#[test]
fn runs_a_switch(rt: HostRuntime) -> Result<(), Fail> {
    for (line, status) in [
        ("switch 1 1 3 10 16 100 chain 1", NodeStatus::Done),
        ("switch 1 1 3 10 16 5 chain 1", NodeStatus::TurnsSpent),
    ] {
        let (ended, sink, counts) = ran(&rt, rt.alloc(), line, &[])?;
        assert_eq!(rt; ended, status, "{line}");
        assert!(rt; sink.as_slice() == TEXT);
        assert_eq!(rt; counts, (3, 3));
    }
    Ok(())
}

#[test]
fn runs_no_switch_of_two_workers(rt: HostRuntime) -> Result<(), Fail> {
    let (ended, sink, counts) = ran(&rt, rt.alloc(), "switch 1 2 3 10 16 100 chain 1", &[])?;
    assert_eq!(rt; ended, NodeStatus::BadWords);
    assert_eq!(rt; sink.as_slice().len(), 0);
    assert_eq!(rt; counts, (0, 0));
    Ok(())
}

#[test]
fn runs_a_switch_whose_sink_fails(rt: HostRuntime) -> Result<(), Fail> {
    let (ended, _, _) = ran(&rt, rt.alloc(), "switch 1 1 3 10 16 100 chain 1", &[1])?;
    assert_eq!(rt; ended, NodeStatus::WriteFault);
    Ok(())
}
