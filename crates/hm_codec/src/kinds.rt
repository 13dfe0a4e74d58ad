ghost use Rattle.std.specs.Prelude.{◌≡◌, ◌==◌, Ok, Err, length, OnErr, if◌then◌else◌};
ghost use Rattle.hm_codec.specs.Placed.{placed};
ghost use Rattle.hm_packet.specs.Messages.{IsLawfulNode};
ghost use Rattle.hm_packet.specs.declared.body.Body.TheVariants as body;
ghost use Rattle.hm_wire.specs.Reading as reading;
ghost use Rattle.hm_wire.specs.Reading.{located, end_with, as_body};

use hm_base::entries::PageRoom;
use hm_packet::body::{Body, Feed, Page};
use hm_packet::packet::Packet;
use hm_wire::bodies::{
    ask_at, config_at, done_at, fast_read_at, feed_ack_at, feed_at, known_at, normal_read_at,
    page_at, pull_at, put_at, read_at, refuse_at, refused_at, reply_at, route_at,
    start_view_change_at, vote_at, write_at,
};
use hm_wire::fault::{Fault, malformed};
use hm_wire::head::Head;
use hm_wire::malformed::{Malformed, Reason};

/// Refuses bytes behind the fields of a packet.
#[inline(always)]
fn ended(rest: &[u8]) -> Result<(), Fault>
    ensures { result ≡ (if length rest.now == 0 then Ok tt else Err (record { left = length rest.now; reason = Reason.Rest })) }
{
    if rest.is_empty() {
        return Ok(());
    }
    Err(Fault {
        left: rest.len(),
        reason: Reason::Rest,
    })
}

/// Puts the packet of a body that was read to the end of the bytes in its place, or answers the fault.
macro_rules! packet {
    ($packet:expr, $head:expr, $read:expr, $fields:ident, $body:expr) => {
        match $read {
            Ok(($fields, rest)) => match ended(rest) {
                Ok(()) => {
                    *$packet = Packet {
                        src: $head.src,
                        dst: $head.dst,
                        body: $body,
                    };
                    Ok(())
                }
                Err(fault) => Err(malformed($head.len, fault)),
            },
            Err(fault) => Err(malformed($head.len, fault)),
        }
    };
}

/// Reads the packet of a read.
#[inline(always)]
pub(crate) fn read_packet(head: Head, bytes: &[u8], packet: &mut Packet) -> Result<(), Malformed>
    requires src { IsLawfulNode head.src }
    requires dst { IsLawfulNode head.dst }
    ensures read { placed result packet.new ≡ located head.len (end_with head.src head.dst (as_body (λ b. body.Read b) (reading.read_at bytes.now))) }
    ensures err { OnErr result (packet.new ≡ packet.old) }
{
    packet!(packet, head, read_at(bytes), fields, Body::Read(fields))
}

/// Reads the packet of a write.
#[inline(always)]
pub(crate) fn write_packet(head: Head, bytes: &[u8], packet: &mut Packet) -> Result<(), Malformed>
    requires src { IsLawfulNode head.src }
    requires dst { IsLawfulNode head.dst }
    ensures read { placed result packet.new ≡ located head.len (end_with head.src head.dst (as_body (λ b. body.Write b) (reading.write_at bytes.now))) }
    ensures err { OnErr result (packet.new ≡ packet.old) }
{
    packet!(packet, head, write_at(bytes), fields, Body::Write(fields))
}

/// Reads the packet of a numbered write.
#[inline(always)]
pub(crate) fn put_packet(head: Head, bytes: &[u8], packet: &mut Packet) -> Result<(), Malformed>
    requires src { IsLawfulNode head.src }
    requires dst { IsLawfulNode head.dst }
    ensures read { placed result packet.new ≡ located head.len (end_with head.src head.dst (as_body (λ b. body.Put b) (reading.put_at bytes.now))) }
    ensures err { OnErr result (packet.new ≡ packet.old) }
{
    packet!(packet, head, put_at(bytes), fields, Body::Put(fields))
}

/// Reads the packet of a stamped read.
#[inline(always)]
pub(crate) fn fast_read_packet(
    head: Head,
    bytes: &[u8],
    packet: &mut Packet,
) -> Result<(), Malformed>
    requires src { IsLawfulNode head.src }
    requires dst { IsLawfulNode head.dst }
    ensures read { placed result packet.new ≡ located head.len (end_with head.src head.dst (as_body (λ b. body.FastRead b) (reading.fast_read_at bytes.now))) }
    ensures err { OnErr result (packet.new ≡ packet.old) }
{
    packet!(
        packet,
        head,
        fast_read_at(bytes),
        fields,
        Body::FastRead(fields)
    )
}

/// Reads the packet of a read that goes the normal way.
#[inline(always)]
pub(crate) fn normal_read_packet(
    head: Head,
    bytes: &[u8],
    packet: &mut Packet,
) -> Result<(), Malformed>
    requires src { IsLawfulNode head.src }
    requires dst { IsLawfulNode head.dst }
    ensures read { placed result packet.new ≡ located head.len (end_with head.src head.dst (as_body (λ b. body.NormalRead b) (reading.normal_read_at bytes.now))) }
    ensures err { OnErr result (packet.new ≡ packet.old) }
{
    packet!(
        packet,
        head,
        normal_read_at(bytes),
        fields,
        Body::NormalRead(fields)
    )
}

/// Reads the packet of a completion.
#[inline(always)]
pub(crate) fn done_packet(head: Head, bytes: &[u8], packet: &mut Packet) -> Result<(), Malformed>
    requires src { IsLawfulNode head.src }
    requires dst { IsLawfulNode head.dst }
    ensures read { placed result packet.new ≡ located head.len (end_with head.src head.dst (as_body (λ b. body.Done b) (reading.done_at bytes.now))) }
    ensures err { OnErr result (packet.new ≡ packet.old) }
{
    packet!(packet, head, done_at(bytes), fields, Body::Done(fields))
}

/// Reads the packet of an answer.
#[inline(always)]
pub(crate) fn reply_packet(head: Head, bytes: &[u8], packet: &mut Packet) -> Result<(), Malformed>
    requires src { IsLawfulNode head.src }
    requires dst { IsLawfulNode head.dst }
    ensures read { placed result packet.new ≡ located head.len (end_with head.src head.dst (as_body (λ b. body.Reply b) (reading.reply_at bytes.now))) }
    ensures err { OnErr result (packet.new ≡ packet.old) }
{
    packet!(packet, head, reply_at(bytes), fields, Body::Reply(fields))
}

/// Reads the packet of a page from a log.
#[inline(always)]
pub(crate) fn feed_packet<'a>(
    head: Head,
    bytes: &[u8],
    room: &'a mut PageRoom,
    packet: &mut Packet<'a>,
) -> Result<(), Malformed>
    requires src { IsLawfulNode head.src }
    requires dst { IsLawfulNode head.dst }
    ensures read { placed result packet.new ≡ located head.len (end_with head.src head.dst (as_body (λ b. body.Feed b) (reading.feed_at bytes.now))) }
    ensures err { OnErr result (packet.new ≡ packet.old) }
{
    room.clear();
    packet!(
        packet,
        head,
        feed_at(bytes, room),
        fields,
        Body::Feed(Feed {
            view: fields.view,
            start: fields.start,
            first: fields.first,
            commit: fields.commit,
            entries: room.entries(),
        })
    )
}

/// Reads the packet of how long a list is held.
#[inline(always)]
pub(crate) fn feed_ack_packet(
    head: Head,
    bytes: &[u8],
    packet: &mut Packet,
) -> Result<(), Malformed>
    requires src { IsLawfulNode head.src }
    requires dst { IsLawfulNode head.dst }
    ensures read { placed result packet.new ≡ located head.len (end_with head.src head.dst (as_body (λ b. body.FeedAck b) (reading.feed_ack_at bytes.now))) }
    ensures err { OnErr result (packet.new ≡ packet.old) }
{
    packet!(
        packet,
        head,
        feed_ack_at(bytes),
        fields,
        Body::FeedAck(fields)
    )
}

/// Reads the packet of a call for a completion.
#[inline(always)]
pub(crate) fn ask_packet(head: Head, bytes: &[u8], packet: &mut Packet) -> Result<(), Malformed>
    requires src { IsLawfulNode head.src }
    requires dst { IsLawfulNode head.dst }
    ensures read { placed result packet.new ≡ located head.len (end_with head.src head.dst (as_body (λ b. body.Ask b) (reading.ask_at bytes.now))) }
    ensures err { OnErr result (packet.new ≡ packet.old) }
{
    packet!(packet, head, ask_at(bytes), fields, Body::Ask(fields))
}

/// Reads the packet of how much is committed.
#[inline(always)]
pub(crate) fn known_packet(head: Head, bytes: &[u8], packet: &mut Packet) -> Result<(), Malformed>
    requires src { IsLawfulNode head.src }
    requires dst { IsLawfulNode head.dst }
    ensures read { placed result packet.new ≡ located head.len (end_with head.src head.dst (as_body (λ b. body.Known b) (reading.known_at bytes.now))) }
    ensures err { OnErr result (packet.new ≡ packet.old) }
{
    packet!(packet, head, known_at(bytes), fields, Body::Known(fields))
}

/// Reads the packet of a view that is entered.
#[inline(always)]
pub(crate) fn start_view_change_packet(
    head: Head,
    bytes: &[u8],
    packet: &mut Packet,
) -> Result<(), Malformed>
    requires src { IsLawfulNode head.src }
    requires dst { IsLawfulNode head.dst }
    ensures read { placed result packet.new ≡ located head.len (end_with head.src head.dst (as_body (λ b. body.StartViewChange b) (reading.start_view_change_at bytes.now))) }
    ensures err { OnErr result (packet.new ≡ packet.old) }
{
    packet!(
        packet,
        head,
        start_view_change_at(bytes),
        fields,
        Body::StartViewChange(fields)
    )
}

/// Reads the packet of a vote.
#[inline(always)]
pub(crate) fn vote_packet(head: Head, bytes: &[u8], packet: &mut Packet) -> Result<(), Malformed>
    requires src { IsLawfulNode head.src }
    requires dst { IsLawfulNode head.dst }
    ensures read { placed result packet.new ≡ located head.len (end_with head.src head.dst (as_body (λ b. body.Vote b) (reading.vote_at bytes.now))) }
    ensures err { OnErr result (packet.new ≡ packet.old) }
{
    packet!(packet, head, vote_at(bytes), fields, Body::Vote(fields))
}

/// Reads the packet of a call for a log.
#[inline(always)]
pub(crate) fn pull_packet(head: Head, bytes: &[u8], packet: &mut Packet) -> Result<(), Malformed>
    requires src { IsLawfulNode head.src }
    requires dst { IsLawfulNode head.dst }
    ensures read { placed result packet.new ≡ located head.len (end_with head.src head.dst (as_body (λ b. body.Pull b) (reading.pull_at bytes.now))) }
    ensures err { OnErr result (packet.new ≡ packet.old) }
{
    packet!(packet, head, pull_at(bytes), fields, Body::Pull(fields))
}

/// Reads the packet of a page of the chosen log.
#[inline(always)]
pub(crate) fn page_packet<'a>(
    head: Head,
    bytes: &[u8],
    room: &'a mut PageRoom,
    packet: &mut Packet<'a>,
) -> Result<(), Malformed>
    requires src { IsLawfulNode head.src }
    requires dst { IsLawfulNode head.dst }
    ensures read { placed result packet.new ≡ located head.len (end_with head.src head.dst (as_body (λ b. body.Page b) (reading.page_at bytes.now))) }
    ensures err { OnErr result (packet.new ≡ packet.old) }
{
    room.clear();
    packet!(
        packet,
        head,
        page_at(bytes, room),
        fields,
        Body::Page(Page {
            view: fields.view,
            first: fields.first,
            entries: room.entries(),
        })
    )
}

/// Reads the packet of the members of an epoch.
#[inline(always)]
pub(crate) fn config_packet(head: Head, bytes: &[u8], packet: &mut Packet) -> Result<(), Malformed>
    requires src { IsLawfulNode head.src }
    requires dst { IsLawfulNode head.dst }
    ensures read { placed result packet.new ≡ located head.len (end_with head.src head.dst (as_body (λ b. body.Config b) (reading.config_at bytes.now))) }
    ensures err { OnErr result (packet.new ≡ packet.old) }
{
    packet!(packet, head, config_at(bytes), fields, Body::Config(fields))
}

/// Reads the packet of a route.
#[inline(always)]
pub(crate) fn route_packet(head: Head, bytes: &[u8], packet: &mut Packet) -> Result<(), Malformed>
    requires src { IsLawfulNode head.src }
    requires dst { IsLawfulNode head.dst }
    ensures read { placed result packet.new ≡ located head.len (end_with head.src head.dst (as_body (λ b. body.Route b) (reading.route_at bytes.now))) }
    ensures err { OnErr result (packet.new ≡ packet.old) }
{
    packet!(packet, head, route_at(bytes), fields, Body::Route(fields))
}

/// Reads the packet of a switch to be refused.
#[inline(always)]
pub(crate) fn refuse_packet(head: Head, bytes: &[u8], packet: &mut Packet) -> Result<(), Malformed>
    requires src { IsLawfulNode head.src }
    requires dst { IsLawfulNode head.dst }
    ensures read { placed result packet.new ≡ located head.len (end_with head.src head.dst (as_body (λ b. body.Refuse b) (reading.refuse_at bytes.now))) }
    ensures err { OnErr result (packet.new ≡ packet.old) }
{
    packet!(packet, head, refuse_at(bytes), fields, Body::Refuse(fields))
}

/// Reads the packet of a refused switch.
#[inline(always)]
pub(crate) fn refused_packet(head: Head, bytes: &[u8], packet: &mut Packet) -> Result<(), Malformed>
    requires src { IsLawfulNode head.src }
    requires dst { IsLawfulNode head.dst }
    ensures read { placed result packet.new ≡ located head.len (end_with head.src head.dst (as_body (λ b. body.Refused b) (reading.refused_at bytes.now))) }
    ensures err { OnErr result (packet.new ≡ packet.old) }
{
    packet!(
        packet,
        head,
        refused_at(bytes),
        fields,
        Body::Refused(fields)
    )
}
