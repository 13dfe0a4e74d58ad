ghost use Rattle.hm_packet.specs.declared.body.Body.TheVariants as kind;
ghost use Rattle.hm_codec.specs.Writing.{WritesFields};

use crate::buf::Buf;
use crate::parts::{push_answer, push_replica, push_stamp, push_u32, push_u64, push_value};
use hm_packet::body::{
    Ask, Body, Config, Done, FastRead, Feed, FeedAck, Known, NormalRead, Page, Pull, Put, Read,
    Refuse, Refused, Reply, StartViewChange, Vote, Write,
};
use hm_packet::route::Route;

/// Appends a body's fields in order, but for the list that some end with.
#[inline(always)]
pub(crate) fn push_fields<const N: usize>(body: &Body, buf: &mut Buf<N>)
    ensures { WritesFields N body.now buf.old buf.new }
{
    match body {
        Body::Read(fields) => push_read(fields, buf),
        Body::Write(fields) => push_write(fields, buf),
        Body::Put(fields) => push_put(fields, buf),
        Body::FastRead(fields) => push_fast_read(fields, buf),
        Body::NormalRead(fields) => push_normal_read(fields, buf),
        Body::Done(fields) => push_done(fields, buf),
        Body::Reply(fields) => push_reply(fields, buf),
        Body::Feed(fields) => push_feed(fields, buf),
        Body::FeedAck(fields) => push_feed_ack(fields, buf),
        Body::Ask(fields) => push_ask(fields, buf),
        Body::Known(fields) => push_known(fields, buf),
        Body::StartViewChange(fields) => push_start_view_change(fields, buf),
        Body::Vote(fields) => push_vote(fields, buf),
        Body::Pull(fields) => push_pull(fields, buf),
        Body::Page(fields) => push_page(fields, buf),
        Body::Config(fields) => push_config(fields, buf),
        Body::Route(fields) => push_route(fields, buf),
        Body::Refuse(fields) => push_refuse(fields, buf),
        Body::Refused(fields) => push_refused(fields, buf),
    }
}

/// Appends the fields of a read.
fn push_read<const N: usize>(fields: &Read, buf: &mut Buf<N>)
    ensures { WritesFields N (kind.Read fields.now) buf.old buf.new }
{
    push_u64(fields.request, buf);
    push_u32(fields.object, buf);
}

/// Appends the fields of a write.
fn push_write<const N: usize>(fields: &Write, buf: &mut Buf<N>)
    ensures { WritesFields N (kind.Write fields.now) buf.old buf.new }
{
    push_u64(fields.request, buf);
    push_u32(fields.object, buf);
    push_value(&fields.value, buf);
}

/// Appends the fields of a numbered write.
fn push_put<const N: usize>(fields: &Put, buf: &mut Buf<N>)
    ensures { WritesFields N (kind.Put fields.now) buf.old buf.new }
{
    push_stamp(fields.stamp, buf);
    push_u32(fields.client, buf);
    push_u64(fields.request, buf);
    push_u32(fields.object, buf);
    push_value(&fields.value, buf);
}

/// Appends the fields of a stamped read.
fn push_fast_read<const N: usize>(fields: &FastRead, buf: &mut Buf<N>)
    ensures { WritesFields N (kind.FastRead fields.now) buf.old buf.new }
{
    push_stamp(fields.stamp, buf);
    push_u32(fields.client, buf);
    push_u64(fields.request, buf);
    push_u32(fields.object, buf);
}

/// Appends the fields of a read that goes the normal way.
fn push_normal_read<const N: usize>(fields: &NormalRead, buf: &mut Buf<N>)
    ensures { WritesFields N (kind.NormalRead fields.now) buf.old buf.new }
{
    push_u32(fields.client, buf);
    push_u64(fields.request, buf);
    push_u32(fields.object, buf);
}

/// Appends the fields of a completion.
#[inline(always)]
fn push_done<const N: usize>(fields: &Done, buf: &mut Buf<N>)
    ensures { WritesFields N (kind.Done fields.now) buf.old buf.new }
{
    push_stamp(fields.stamp, buf);
    push_u32(fields.client, buf);
    push_u64(fields.request, buf);
}

/// Appends the fields of an answer.
fn push_reply<const N: usize>(fields: &Reply, buf: &mut Buf<N>)
    ensures { WritesFields N (kind.Reply fields.now) buf.old buf.new }
{
    push_u64(fields.request, buf);
    push_stamp(fields.version, buf);
    push_answer(&fields.answer, buf);
}

/// Appends the fields of a page from a log.
#[inline(always)]
fn push_feed<const N: usize>(fields: &Feed, buf: &mut Buf<N>)
    ensures { WritesFields N (kind.Feed fields.now) buf.old buf.new }
{
    push_u32(fields.view, buf);
    push_u32(fields.start, buf);
    push_u32(fields.first, buf);
    push_u32(fields.commit, buf);
}

/// Appends the fields of how long a list is held.
#[inline(always)]
fn push_feed_ack<const N: usize>(fields: &FeedAck, buf: &mut Buf<N>)
    ensures { WritesFields N (kind.FeedAck fields.now) buf.old buf.new }
{
    push_u32(fields.view, buf);
    push_u32(fields.len, buf);
}

/// Appends the fields of a call for a completion.
fn push_ask<const N: usize>(fields: &Ask, buf: &mut Buf<N>)
    ensures { WritesFields N (kind.Ask fields.now) buf.old buf.new }
{
    push_u32(fields.view, buf);
    push_u32(fields.client, buf);
    push_u64(fields.request, buf);
}

/// Appends the fields of how much is committed.
#[inline(always)]
fn push_known<const N: usize>(fields: &Known, buf: &mut Buf<N>)
    ensures { WritesFields N (kind.Known fields.now) buf.old buf.new }
{
    push_u32(fields.view, buf);
    push_u32(fields.len, buf);
}

/// Appends the fields of a view that is entered.
fn push_start_view_change<const N: usize>(fields: &StartViewChange, buf: &mut Buf<N>)
    ensures { WritesFields N (kind.StartViewChange fields.now) buf.old buf.new }
{
    push_u32(fields.view, buf);
}

/// Appends the fields of a vote.
fn push_vote<const N: usize>(fields: &Vote, buf: &mut Buf<N>)
    ensures { WritesFields N (kind.Vote fields.now) buf.old buf.new }
{
    push_u32(fields.view, buf);
    push_u32(fields.normal, buf);
    push_u32(fields.len, buf);
    push_u32(fields.commit, buf);
}

/// Appends the fields of a call for a log.
fn push_pull<const N: usize>(fields: &Pull, buf: &mut Buf<N>)
    ensures { WritesFields N (kind.Pull fields.now) buf.old buf.new }
{
    push_u32(fields.view, buf);
    push_u32(fields.first, buf);
}

/// Appends the fields of a page of the chosen log.
fn push_page<const N: usize>(fields: &Page, buf: &mut Buf<N>)
    ensures { WritesFields N (kind.Page fields.now) buf.old buf.new }
{
    push_u32(fields.view, buf);
    push_u32(fields.first, buf);
}

/// Appends the fields of the members of an epoch.
fn push_config<const N: usize>(fields: &Config, buf: &mut Buf<N>)
    ensures { WritesFields N (kind.Config fields.now) buf.old buf.new }
{
    push_u32(fields.view, buf);
}

/// Appends the fields of a route.
fn push_route<const N: usize>(fields: &Route, buf: &mut Buf<N>)
    ensures { WritesFields N (kind.Route fields.now) buf.old buf.new }
{
    push_u32(fields.view, buf);
    push_replica(fields.entry, buf);
    push_replica(fields.normal, buf);
}

/// Appends the fields of a switch to be refused.
fn push_refuse<const N: usize>(fields: &Refuse, buf: &mut Buf<N>)
    ensures { WritesFields N (kind.Refuse fields.now) buf.old buf.new }
{
    push_u32(fields.switch, buf);
}

/// Appends the fields of a refused switch.
fn push_refused<const N: usize>(fields: &Refused, buf: &mut Buf<N>)
    ensures { WritesFields N (kind.Refused fields.now) buf.old buf.new }
{
    push_u32(fields.switch, buf);
}
