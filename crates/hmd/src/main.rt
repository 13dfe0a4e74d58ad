//! `hmd` runs one node of a group: `hmd switch`, `hmd replica` and `hmd config` run a switch, a replica and the configuration service,
//! and `hmd client` asks for one operation. Nodes talk UDP. Where not all went well, a line on standard error says what happened.
#![tactic(auto)]

mod binding;
mod ending;

ghost use Rattle.std.specs.Prelude.{◌≡◌, ◌≢◌, ◌⊎◌, []};
ghost use Rattle.std.specs.Io.Buffered.{writer_buffer};
ghost use Rattle.std.specs.IoError.{error_kind};

use crate::binding::open_link;
use crate::ending::Ending;
use hm_base::node::Node;
use hm_daemon::client::ask;
use hm_daemon::node::run_node;
use hm_daemon::replica::serve_replica;
use hm_daemon::status::NodeStatus;
use hm_daemon::udp_link::UdpLink;
use hm_daemon::words::node_of;
use hm_desk::config::serve_config;
use hm_outside::adapters::{ReaderSource, WriterSink};
use hm_worker::worker::Worker;
use std::env;
use std::io::{BufWriter, Error, ErrorKind, Write};
use std::process::ExitCode;
use std::sync::Wait;
use std::thread::Threads;

/// The status for words that can't be had: one of them isn't UTF-8, or memory was wanting.
fn refusal(error: &Error) -> NodeStatus
    ensures memory { error_kind error.now ≡ ErrorKind.OutOfMemory → result ≡ NodeStatus.NoMemory }
    ensures words { error_kind error.now ≢ ErrorKind.OutOfMemory → result ≡ NodeStatus.BadWords }
{
    if error.kind() == ErrorKind::OutOfMemory {
        NodeStatus::NoMemory
    } else {
        NodeStatus::BadWords
    }
}

/// Writes what is left of the output. Where that fails, the sink did.
fn flushed<W: Write + Drop>(output: &mut BufWriter<W>, status: NodeStatus) -> NodeStatus
    ensures status { (result ≡ status) ⊎ (result ≡ NodeStatus.WriteFault) }
    ensures written { result ≢ NodeStatus.WriteFault → writer_buffer output.new ≡ [] }
{
    match output.flush() {
        Ok(()) => status,
        Err(_) => NodeStatus::WriteFault,
    }
}

/// Runs the daemon of a node over its link.
fn run<R: Threads + Wait + Sync>(
    rt: &HostRuntime,
    threads: &R,
    me: Node,
    words: &[String],
    mut link: UdpLink,
) -> NodeStatus {
    match me {
        Node::Switch(_) => run_switch(rt, threads, words, link),
        Node::Replica(_) => serve_replica(rt.alloc(), words, &mut link),
        Node::Config => run_service(rt, words, &mut link),
        Node::Client(_) => run_client(rt, words, &mut link),
    }
}

/// Runs a switch of one worker, and writes its journal.
fn run_switch<R: Threads + Wait + Sync>(
    rt: &HostRuntime,
    threads: &R,
    words: &[String],
    link: UdpLink,
) -> NodeStatus {
    let Ok(output) = BufWriter::new(rt.alloc(), rt.stdout()) else {
        return NodeStatus::NoMemory;
    };
    let mut sink = WriterSink::new(output);
    let mut workers = [Worker::new(link)];
    let status = run_node(threads, rt.alloc(), words, &mut workers, &mut sink);
    flushed(&mut sink.into_inner(), status)
}

/// Runs the configuration service. Nothing is kept back of its output, so that each order's line is there before the next order.
fn run_service(rt: &HostRuntime, words: &[String], link: &mut UdpLink) -> NodeStatus {
    let mut source = ReaderSource::new(rt.stdin());
    let mut sink = WriterSink::new(rt.stdout());
    serve_config(rt.alloc(), words, &mut source, link, &mut sink)
}

/// Asks for a client.
fn run_client(rt: &HostRuntime, words: &[String], link: &mut UdpLink) -> NodeStatus {
    let Ok(output) = BufWriter::new(rt.alloc(), rt.stdout()) else {
        return NodeStatus::NoMemory;
    };
    let mut sink = WriterSink::new(output);
    let status = ask(rt.alloc(), words, link, &mut sink);
    flushed(&mut sink.into_inner(), status)
}

/// Runs the program, and answers how it ended.
fn run_words<R: Threads + Wait + Sync>(rt: &HostRuntime, threads: &R) -> Ending {
    let words = match env::args(rt) {
        Ok(words) => words,
        Err(error) => return Ending::Ran(refusal(&error)),
    };
    let Ok(words) = words.skip(1).collect::<Vec<String>>(rt.alloc()) else {
        return Ending::Ran(NodeStatus::NoMemory);
    };
    let Some(me) = node_of(&words) else {
        return Ending::Ran(NodeStatus::BadWords);
    };
    match open_link(rt, me, &words) {
        Ok(link) => Ending::Ran(run(rt, threads, me, &words, link)),
        Err(ending) => ending,
    }
}

/// Says on standard error how the program ended, where not all went well. A standard error that fails changes nothing.
fn report(rt: &HostRuntime, ending: Ending) {
    if ending.code() != 0 {
        let _told = eprintln!(rt; "{ending}");
    }
}

fn main(rt: HostRuntime) -> ExitCode {
    let ending = run_words(&rt, &rt);
    report(&rt, ending);
    ExitCode::from(ending.code())
}
