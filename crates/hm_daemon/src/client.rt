ghost use Rattle.std.specs.Prelude.{◌≡◌, ◌↔◌, ◌++◌, ℕ, List, OnOk, OnErr, map, flat_map, string_bytes};
ghost use Rattle.std.specs.Io.KnownBytes.{Appends};
ghost use Rattle.hm_base.specs.Lists.{IsPrefix};
ghost use Rattle.hm_base.specs.Spellings.{answer_text};
ghost use Rattle.hm_daemon.specs.Asking.{request_of, reply_of, reply_in, reply_head, reply_line};
ghost use Rattle.hm_daemon.specs.Asks.{Asks, IsIdleClient};
ghost use Rattle.hm_worker.specs.Posts.{Says};
ghost use Rattle.hm_worker.specs.Heard.{Heard};
ghost use Rattle.hm_daemon.specs.Words.{IsClientWords};
ghost use Rattle.hm_daemon.specs.declared.words.ClientWords.{ClientWords};
ghost use Rattle.hm_outside.specs.Faults.{Counts};
ghost use Rattle.hm_rules.specs.Deliveries.{fits};
ghost use Rattle.hm_wire.specs.Packets.{spelling};

use crate::status::NodeStatus;
use crate::words::{ClientWords, client_words};
use hm_base::buffer::Text;
use hm_base::entries::PageRoom;
use hm_base::memory::NoMemory;
use hm_base::node::Node;
use hm_base::operation::{Answer, OpId};
use hm_base::text::{write_bytes, write_op};
use hm_base::value::MAX_VALUE_LEN;
use hm_codec::buf::{Buf, MAX_LEN};
use hm_codec::decode::decode;
use hm_codec::encode::encode;
use hm_frame::datagram::Taken;
use hm_frame::link::Link;
use hm_frame::link_law::link_calls_add_up;
use hm_order::mark::Want;
use hm_outside::device::{Failed, Sink, put_all};
use hm_outside::law::calls_add_up;
use hm_packet::body::{Body, Read, Reply, Write};
use hm_packet::packet::Packet;
use itoa::Buffer;
use std::alloc::Global;

/// The packet that a client asks with.
fn request_of(words: &ClientWords) -> Packet<'static>
    ensures { result ≡ request_of words.now }
{
    let request = words.op.request;
    Packet {
        src: Node::Client(words.op.client),
        dst: Node::Switch(words.switch),
        body: match words.want {
            Want::Read { object } => Body::Read(Read { request, object }),
            Want::Write { object, value } => Body::Write(Write {
                request,
                object,
                value,
            }),
        },
    }
}

/// Whether an answer can be one to what was asked for.
fn fits(want: &Want, answer: &Answer) -> bool
    ensures { result ≡ fits want.now answer.now }
{
    match (want, answer) {
        (Want::Read { .. }, Answer::Wrote) => false,
        (Want::Read { .. }, _) => true,
        (Want::Write { .. }, Answer::Wrote) => true,
        (Want::Write { .. }, _) => false,
    }
}

/// The reply to a client's request that a body is, if it is one.
fn reply_of(words: &ClientWords, body: &Body) -> Option<Reply>
    ensures { result ≡ reply_of words.now body.now }
{
    match body {
        Body::Reply(reply) => {
            if reply.request == words.op.request && fits(&words.want, &reply.answer) {
                Some(*reply)
            } else {
                None
            }
        }
        _ => None,
    }
}

/// The reply to a client's request that a packet is, if it is one.
fn reply_to(words: &ClientWords, packet: &Packet) -> Option<Reply>
    ensures { result ≡ reply_in words.now (Heard.Packet packet.now) }
{
    match packet.dst {
        Node::Client(client) => {
            if client == words.op.client {
                reply_of(words, &packet.body)
            } else {
                None
            }
        }
        Node::Switch(_) | Node::Replica(_) | Node::Config => None,
    }
}

/// The reply to a client's request that a datagram is, if it is one.
fn reply_in(words: &ClientWords, bytes: &[u8]) -> Option<Reply>
    ensures { (heard : Heard) × Says bytes.now heard × (result ≡ reply_in words.now heard) }
{
    let mut room = PageRoom::new();
    let mut packet = Packet::blank();
    match decode(bytes, &mut room, &mut packet) {
        Ok(()) => reply_to(words, &packet),
        Err(_) => None,
    }
}

/// What the line of a reply begins with.
fn write_head(op: OpId, out: &mut Text) -> Result<(), NoMemory>
    ensures { OnOk result (out.new.items ≡ out.old.items ++ reply_head op) }
{
    write_bytes(b"reply ", out)?;
    write_op(op, out)?;
    write_bytes(b" ", out)
}

/// An answer's text, for which there is room in `digits`.
fn answer_text<'a>(answer: &Answer, digits: &'a mut [u8; 2 * MAX_VALUE_LEN]) -> &'a [u8]
    ensures { result.now ≡ answer_text answer.now }
{
    match answer {
        Answer::Wrote => b"wrote",
        Answer::Nothing => b"none",
        Answer::Found(value) => {
            let value = value.as_slice();
            if value.is_empty() {
                return b"empty";
            }
            let text = &mut digits[..2 * value.len()];
            match hex::encode_to_slice(value, text) {
                Ok(()) => text,
                Err(_) => b"",
            }
        }
    }
}

/// Puts pieces one behind the other. After a fault a front of them was put.
fn put_pieces<K: Sink>(pieces: &[&[u8]], sink: &mut K) -> Result<(), Failed>
    ensures ok { OnOk result (Appends (K.held sink.old) (K.held sink.new) (flat_map (λ p. p.now) pieces.now)) }
    ensures err { OnErr result ((front : List ℕ) × IsPrefix front (flat_map (λ p. p.now) pieces.now) × Appends (K.held sink.old) (K.held sink.new) front) }
    ensures counted { Counts (K.faults sink.old) (K.faults sink.new) result }
{
    calls_add_up();
    for piece in pieces {
        put_all(sink, piece)?;
    }
    Ok(())
}

/// Puts the line of a reply that begins with this. It takes no memory.
fn put_reply<K: Sink>(head: &[u8], reply: &Reply, sink: &mut K) -> Result<(), Failed>
    ensures ok { OnOk result (Appends (K.held sink.old) (K.held sink.new) (reply_line head.now reply.now)) }
    ensures err { OnErr result ((front : List ℕ) × IsPrefix front (reply_line head.now reply.now) × Appends (K.held sink.old) (K.held sink.new) front) }
    ensures counted { Counts (K.faults sink.old) (K.faults sink.new) result }
{
    let mut switch = Buffer::new();
    let mut seq = Buffer::new();
    let mut digits = [0; 2 * MAX_VALUE_LEN];
    let pieces = [
        head,
        switch.format(reply.version.switch).as_bytes(),
        b".",
        seq.format(reply.version.seq).as_bytes(),
        b" ",
        answer_text(&reply.answer, &mut digits),
        b"\n",
    ];
    put_pieces(&pieces, sink)
}

/// Sends the request, and once more each time that nothing came, until the reply to it comes, whose line is put.
fn asking<L: Link, K: Sink>(
    words: &ClientWords,
    request: &[u8],
    head: &[u8],
    link: &mut L,
    sink: &mut K,
) -> NodeStatus
    requires request { request.now ≡ spelling (request_of words.now) }
    requires head { head.now ≡ reply_head words.now.op }
    ensures { Asks result words.now (record { coming = L.coming link.old; came = L.coming link.new; sent = L.sent link.old; posted = L.sent link.new; before = L.faults link.old; after = L.faults link.new })
        (record { held = K.held sink.old; put = K.held sink.new; before = K.faults sink.old; after = K.faults sink.new }) }
{
    link_calls_add_up();
    let switch = Node::Switch(words.switch);
    match link.send(switch, request) {
        Ok(()) => {}
        Err(_) => return NodeStatus::LinkFault,
    }
    let mut buf = [0; MAX_LEN];
    for _ in 0..words.turns {
        match link.take(&mut buf) {
            Taken::Datagram(len) => {
                if let Some(reply) = reply_in(words, &buf[..len]) {
                    return match put_reply(head, &reply, sink) {
                        Ok(()) => NodeStatus::Done,
                        Err(_) => NodeStatus::WriteFault,
                    };
                }
            }
            Taken::Quiet => match link.send(switch, request) {
                Ok(()) => {}
                Err(_) => return NodeStatus::LinkFault,
            },
            Taken::Ended => return NodeStatus::NoReply,
            Taken::Failed => return NodeStatus::LinkFault,
        }
    }
    NodeStatus::TurnsSpent
}

/// Asks for a client: sends its request to the switch, once more each time that nothing comes, and writes the first reply to it that
/// comes. All memory is taken before the request is sent.
pub fn ask<L: Link, K: Sink>(
    alloc: Global,
    words: &[String],
    link: &mut L,
    sink: &mut K,
) -> NodeStatus
    ensures words { (result ≡ NodeStatus.BadWords) ↔ ((w : ClientWords) → IsClientWords (map string_bytes words.now) w → ⊥) }
    ensures untouched { result ≡ NodeStatus.BadWords → IsIdleClient (record { coming = L.coming link.old; came = L.coming link.new; sent = L.sent link.old; posted = L.sent link.new; before = L.faults link.old; after = L.faults link.new })
        (record { held = K.held sink.old; put = K.held sink.new; before = K.faults sink.old; after = K.faults sink.new }) }
    ensures asks { (w : ClientWords) → IsClientWords (map string_bytes words.now) w
        → Asks result w (record { coming = L.coming link.old; came = L.coming link.new; sent = L.sent link.old; posted = L.sent link.new; before = L.faults link.old; after = L.faults link.new })
        (record { held = K.held sink.old; put = K.held sink.new; before = K.faults sink.old; after = K.faults sink.new }) }
{
    let Some(words) = client_words(words) else {
        return NodeStatus::BadWords;
    };
    let mut head = Text::new(alloc);
    if write_head(words.op, &mut head).is_err() {
        return NodeStatus::NoMemory;
    }
    let mut request = Buf::new();
    encode(&request_of(&words), &mut request);
    asking(&words, request.as_slice(), head.as_slice(), link, sink)
}
