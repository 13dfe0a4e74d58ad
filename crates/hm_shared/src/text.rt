ghost use Rattle.std.specs.Prelude.{◌≡◌, ◌^◌, ◌<◌, ◌∷◌, ◌++◌, length, OnOk, codes};
ghost use Rattle.hm_base.specs.Spellings.{spaced};
ghost use Rattle.hm_rules.specs.Senders.{number};
ghost use Rattle.hm_outside.specs.Puts.{Puts};
ghost use Rattle.hm_shared.specs.JournalText.{call_words, turn_head, count_line};
ghost use Rattle.hm_shared.specs.RecordText.{sent_body, sent_words, told_words, record_line, records_text};
ghost use Rattle.hm_shared.specs.Written.{PutsPieces};

use crate::journal::{Call, Record, Turned1};
use hm_base::buffer::Text;
use hm_base::memory::NoMemory;
use hm_base::node::Node;
use hm_base::operation::Answer;
use hm_base::text::{write_bytes, write_node, write_number};
use hm_outside::device::{NotPut, Sink, put_closing};
use hm_outside::law::calls_add_up;
use hm_packet::body::{Body, FastRead, NormalRead, Put, Reply};
use hm_packet::parts::{push_number, push_word};
use hm_packet::words::{write_body, write_done, write_read, write_route, write_write};
use std::alloc::Global;

/// A node's number.
fn number(node: Node) -> u32
    ensures { result ≡ number node }
{
    match node {
        Node::Client(client) => client,
        Node::Switch(switch) => switch,
        Node::Replica(replica) => u32::from(replica),
        Node::Config => 0,
    }
}

/// What the switch sent, if it sent something.
fn sent_body(kept: &Record) -> Option<Body<'static>>
    ensures { result ≡ sent_body kept.now.src kept.now.call kept.now.turn }
{
    match (&kept.call, kept.turn) {
        (Call::Write(write), Turned1::Sent { dst: _, stamp }) => Some(Body::Put(Put {
            stamp,
            client: number(kept.src),
            request: write.request,
            object: write.object,
            value: write.value,
        })),
        (Call::Read(read), Turned1::Sent { dst: _, stamp }) => Some(Body::FastRead(FastRead {
            stamp,
            client: number(kept.src),
            request: read.request,
            object: read.object,
        })),
        (Call::Read(read), Turned1::Plain { dst: _ }) => Some(Body::NormalRead(NormalRead {
            client: number(kept.src),
            request: read.request,
            object: read.object,
        })),
        (Call::Done(done), Turned1::Sent { dst: _, stamp }) => Some(Body::Reply(Reply {
            request: done.request,
            version: stamp,
            answer: Answer::Wrote,
        })),
        _ => None,
    }
}

/// Appends the words of a call, each with a space before it. After want of memory `out` may hold a part of it, here and in the
/// other calls of this module.
fn write_call(call: &Call, out: &mut Text) -> Result<(), NoMemory>
    ensures { OnOk result (out.new.items ≡ out.old.items ++ spaced (call_words call.now)) }
{
    match call {
        Call::Read(read) => write_read(read, out),
        Call::Write(write) => write_write(write, out),
        Call::Done(done) => write_done(done, out),
        Call::Route(route) => write_route(route, out),
        Call::Other { kind } => {
            push_word(b"other", out)?;
            push_number(u64::from(*kind), out)
        }
    }
}

/// Appends the words of the packet that a switch sent to a node.
fn write_sent(kept: &Record, dst: Node, out: &mut Text) -> Result<(), NoMemory>
    ensures { OnOk result (out.new.items ≡ out.old.items ++ spaced (codes "sent" ∷ sent_words kept.now.dst dst (sent_body kept.now.src kept.now.call kept.now.turn))) }
{
    push_word(b"sent", out)?;
    match sent_body(kept) {
        Some(body) => {
            write_bytes(b" ", out)?;
            write_node(kept.dst, out)?;
            write_bytes(b" ", out)?;
            write_node(dst, out)?;
            write_body(&body, out)
        }
        None => Ok(()),
    }
}

/// Appends the words of what a switch made of a packet.
fn write_answer(kept: &Record, out: &mut Text) -> Result<(), NoMemory>
    ensures { OnOk result (out.new.items ≡ out.old.items ++ spaced (told_words kept.now)) }
{
    match kept.turn {
        Turned1::Sent { dst, stamp: _ } => write_sent(kept, dst, out),
        Turned1::Plain { dst } => write_sent(kept, dst, out),
        Turned1::Noted => push_word(b"noted", out),
        Turned1::Ignored(why) => {
            push_word(b"ignored", out)?;
            push_word(why.name().as_bytes(), out)
        }
        Turned1::Full => push_word(b"full", out),
    }
}

/// Appends the front of a record's line: its place, who handed the packet in, the nodes and the call.
fn write_head(place: u32, kept: &Record, out: &mut Text) -> Result<(), NoMemory>
    ensures { OnOk result (out.new.items ≡ out.old.items ++ turn_head place kept.now.seat kept.now.src kept.now.dst kept.now.call) }
{
    write_bytes(b"turn ", out)?;
    write_number(u64::from(place), out)?;
    push_number(u64::from(kept.seat), out)?;
    write_bytes(b" ", out)?;
    write_node(kept.src, out)?;
    write_bytes(b" ", out)?;
    write_node(kept.dst, out)?;
    write_call(&kept.call, out)
}

/// Appends the line of a record at this place.
fn write_record(place: u32, kept: &Record, out: &mut Text) -> Result<(), NoMemory>
    ensures { OnOk result (out.new.items ≡ out.old.items ++ record_line place kept.now) }
{
    write_head(place, kept, out)?;
    write_bytes(b" =", out)?;
    write_answer(kept, out)?;
    write_bytes(b"\n", out)
}

/// Appends the last line: how many records there are.
fn write_end(count: u32, out: &mut Text) -> Result<(), NoMemory>
    ensures { OnOk result (out.new.items ≡ out.old.items ++ count_line count) }
{
    write_bytes(b"end ", out)?;
    write_number(u64::from(count), out)?;
    write_bytes(b"\n", out)
}

/// Puts the line of a record.
fn put_record<K: Sink>(
    place: u32,
    kept: &Record,
    line: &mut Text,
    sink: &mut K,
) -> Result<(), NotPut>
    ensures { Puts result (record_line place kept.now) (K.held sink.old) (K.held sink.new) (K.faults sink.old) (K.faults sink.new) }
{
    calls_add_up();
    line.clear();
    match write_record(place, kept, line) {
        Ok(()) => put_closing(sink, line.as_slice()),
        Err(_) => Err(NotPut::NoMemory),
    }
}

/// Puts the last line.
fn put_end<K: Sink>(count: u32, line: &mut Text, sink: &mut K) -> Result<(), NotPut>
    ensures { Puts result (count_line count) (K.held sink.old) (K.held sink.new) (K.faults sink.old) (K.faults sink.new) }
{
    calls_add_up();
    line.clear();
    match write_end(count, line) {
        Ok(()) => put_closing(sink, line.as_slice()),
        Err(_) => Err(NotPut::NoMemory),
    }
}

/// Puts the text of a journal line by line.
pub(crate) fn put_journal<K: Sink>(
    alloc: Global,
    kept: &[Record],
    sink: &mut K,
) -> Result<(), NotPut>
    requires { length kept.now < 2 ^ 32 }
    ensures { PutsPieces result (records_text kept.now) (K.held sink.old) (K.held sink.new) (K.faults sink.old) (K.faults sink.new) }
{
    calls_add_up();
    let mut line = Text::new(alloc);
    let count = kept.len() as u32;
    let mut place = 0;
    while place < count {
        match put_record(place, &kept[place as usize], &mut line, sink) {
            Ok(()) => place += 1,
            Err(fault) => return Err(fault),
        }
    }
    put_end(count, &mut line, sink)
}
