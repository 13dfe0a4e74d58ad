ghost use Rattle.std.specs.Prelude.{◌≡◌, ◌++◌, OnOk, OnErr};
ghost use Rattle.hm_base.specs.Lists.{IsPrefix};
ghost use Rattle.hm_base.specs.Spellings.{spaced};
ghost use Rattle.hm_packet.specs.declared.body.Body.TheVariants as body;
ghost use Rattle.hm_packet.specs.Texts.{body_words};

use crate::body::{
    Ask, Body, Config, Done, FastRead, Feed, FeedAck, Known, NormalRead, Page, Pull, Put, Read,
    Refuse, Refused, Reply, StartViewChange, Vote, Write,
};
use crate::parts::{
    push_answer, push_entries, push_kind, push_members, push_number, push_request, push_stamp,
    push_value, push_word,
};
use crate::route::Route;
use hm_base::buffer::Text;
use hm_base::memory::NoMemory;

/// Appends a body's words: its kind's name and its fields, each with a space before it. After want of memory `out` begins with
/// what it held, here and in the other calls of this module.
pub fn write_body(body: &Body, out: &mut Text) -> Result<(), NoMemory>
    ensures ok { OnOk result (out.new.items ≡ out.old.items ++ spaced (body_words body.now)) }
    ensures err { OnErr result (IsPrefix out.old.items out.new.items) }
{
    match body {
        Body::Read(fields) => write_read(fields, out),
        Body::Write(fields) => write_write(fields, out),
        Body::Put(fields) => write_put(fields, out),
        Body::FastRead(fields) => write_fast_read(fields, out),
        Body::NormalRead(fields) => write_normal_read(fields, out),
        Body::Done(fields) => write_done(fields, out),
        Body::Reply(fields) => write_reply(fields, out),
        Body::Feed(fields) => write_feed(fields, out),
        Body::FeedAck(fields) => write_feed_ack(fields, out),
        Body::Ask(fields) => write_ask(fields, out),
        Body::Known(fields) => write_known(fields, out),
        Body::StartViewChange(fields) => write_start_view_change(fields, out),
        Body::Vote(fields) => write_vote(fields, out),
        Body::Pull(fields) => write_pull(fields, out),
        Body::Page(fields) => write_page(fields, out),
        Body::Config(fields) => write_config(fields, out),
        Body::Route(fields) => write_route(fields, out),
        Body::Refuse(fields) => write_refuse(fields, out),
        Body::Refused(fields) => write_refused(fields, out),
    }
}

/// Appends the words of a read.
pub fn write_read(fields: &Read, out: &mut Text) -> Result<(), NoMemory>
    ensures ok { OnOk result (out.new.items ≡ out.old.items ++ spaced (body_words (body.Read fields.now))) }
    ensures err { OnErr result (IsPrefix out.old.items out.new.items) }
{
    push_kind(b"read", fields.request, out)?;
    push_number(u64::from(fields.object), out)
}

/// Appends the words of a write.
pub fn write_write(fields: &Write, out: &mut Text) -> Result<(), NoMemory>
    ensures ok { OnOk result (out.new.items ≡ out.old.items ++ spaced (body_words (body.Write fields.now))) }
    ensures err { OnErr result (IsPrefix out.old.items out.new.items) }
{
    push_kind(b"write", fields.request, out)?;
    push_number(u64::from(fields.object), out)?;
    push_value(&fields.value, out)
}

/// Appends the words of a numbered write.
pub fn write_put(fields: &Put, out: &mut Text) -> Result<(), NoMemory>
    ensures ok { OnOk result (out.new.items ≡ out.old.items ++ spaced (body_words (body.Put fields.now))) }
    ensures err { OnErr result (IsPrefix out.old.items out.new.items) }
{
    push_word(b"put", out)?;
    push_stamp(fields.stamp, out)?;
    push_request(fields.client, fields.request, fields.object, out)?;
    push_value(&fields.value, out)
}

/// Appends the words of a stamped read.
pub fn write_fast_read(fields: &FastRead, out: &mut Text) -> Result<(), NoMemory>
    ensures ok { OnOk result (out.new.items ≡ out.old.items ++ spaced (body_words (body.FastRead fields.now))) }
    ensures err { OnErr result (IsPrefix out.old.items out.new.items) }
{
    push_word(b"fastread", out)?;
    push_stamp(fields.stamp, out)?;
    push_request(fields.client, fields.request, fields.object, out)
}

/// Appends the words of a read that goes the normal way.
pub fn write_normal_read(fields: &NormalRead, out: &mut Text) -> Result<(), NoMemory>
    ensures ok { OnOk result (out.new.items ≡ out.old.items ++ spaced (body_words (body.NormalRead fields.now))) }
    ensures err { OnErr result (IsPrefix out.old.items out.new.items) }
{
    push_word(b"normalread", out)?;
    push_request(fields.client, fields.request, fields.object, out)
}

/// Appends the words of a completion.
pub fn write_done(fields: &Done, out: &mut Text) -> Result<(), NoMemory>
    ensures ok { OnOk result (out.new.items ≡ out.old.items ++ spaced (body_words (body.Done fields.now))) }
    ensures err { OnErr result (IsPrefix out.old.items out.new.items) }
{
    push_word(b"done", out)?;
    push_stamp(fields.stamp, out)?;
    push_number(u64::from(fields.client), out)?;
    push_number(fields.request, out)
}

/// Appends the words of an answer.
pub fn write_reply(fields: &Reply, out: &mut Text) -> Result<(), NoMemory>
    ensures ok { OnOk result (out.new.items ≡ out.old.items ++ spaced (body_words (body.Reply fields.now))) }
    ensures err { OnErr result (IsPrefix out.old.items out.new.items) }
{
    push_kind(b"reply", fields.request, out)?;
    push_stamp(fields.version, out)?;
    push_answer(&fields.answer, out)
}

/// Appends the words of how long a list is held.
pub fn write_feed_ack(fields: &FeedAck, out: &mut Text) -> Result<(), NoMemory>
    ensures ok { OnOk result (out.new.items ≡ out.old.items ++ spaced (body_words (body.FeedAck fields.now))) }
    ensures err { OnErr result (IsPrefix out.old.items out.new.items) }
{
    push_kind(b"feedack", u64::from(fields.view), out)?;
    push_number(u64::from(fields.len), out)
}

/// Appends the words of a call for a completion.
pub fn write_ask(fields: &Ask, out: &mut Text) -> Result<(), NoMemory>
    ensures ok { OnOk result (out.new.items ≡ out.old.items ++ spaced (body_words (body.Ask fields.now))) }
    ensures err { OnErr result (IsPrefix out.old.items out.new.items) }
{
    push_kind(b"ask", u64::from(fields.view), out)?;
    push_number(u64::from(fields.client), out)?;
    push_number(fields.request, out)
}

/// Appends the words of how much is committed.
pub fn write_known(fields: &Known, out: &mut Text) -> Result<(), NoMemory>
    ensures ok { OnOk result (out.new.items ≡ out.old.items ++ spaced (body_words (body.Known fields.now))) }
    ensures err { OnErr result (IsPrefix out.old.items out.new.items) }
{
    push_kind(b"known", u64::from(fields.view), out)?;
    push_number(u64::from(fields.len), out)
}

/// Appends the words of a view that is entered.
pub fn write_start_view_change(fields: &StartViewChange, out: &mut Text) -> Result<(), NoMemory>
    ensures ok { OnOk result (out.new.items ≡ out.old.items ++ spaced (body_words (body.StartViewChange fields.now))) }
    ensures err { OnErr result (IsPrefix out.old.items out.new.items) }
{
    push_kind(b"startviewchange", u64::from(fields.view), out)
}

/// Appends the words of a vote.
pub fn write_vote(fields: &Vote, out: &mut Text) -> Result<(), NoMemory>
    ensures ok { OnOk result (out.new.items ≡ out.old.items ++ spaced (body_words (body.Vote fields.now))) }
    ensures err { OnErr result (IsPrefix out.old.items out.new.items) }
{
    push_kind(b"vote", u64::from(fields.view), out)?;
    push_number(u64::from(fields.normal), out)?;
    push_number(u64::from(fields.len), out)?;
    push_number(u64::from(fields.commit), out)
}

/// Appends the words of a call for a log.
pub fn write_pull(fields: &Pull, out: &mut Text) -> Result<(), NoMemory>
    ensures ok { OnOk result (out.new.items ≡ out.old.items ++ spaced (body_words (body.Pull fields.now))) }
    ensures err { OnErr result (IsPrefix out.old.items out.new.items) }
{
    push_kind(b"pull", u64::from(fields.view), out)?;
    push_number(u64::from(fields.first), out)
}

/// Appends the words of the members of an epoch.
pub fn write_config(fields: &Config, out: &mut Text) -> Result<(), NoMemory>
    ensures ok { OnOk result (out.new.items ≡ out.old.items ++ spaced (body_words (body.Config fields.now))) }
    ensures err { OnErr result (IsPrefix out.old.items out.new.items) }
{
    push_kind(b"config", u64::from(fields.view), out)?;
    push_members(fields.members.as_slice(), out)
}

/// Appends the words of a route.
pub fn write_route(fields: &Route, out: &mut Text) -> Result<(), NoMemory>
    ensures ok { OnOk result (out.new.items ≡ out.old.items ++ spaced (body_words (body.Route fields.now))) }
    ensures err { OnErr result (IsPrefix out.old.items out.new.items) }
{
    push_kind(b"route", u64::from(fields.view), out)?;
    push_number(u64::from(fields.entry), out)?;
    push_number(u64::from(fields.normal), out)?;
    push_members(fields.members.as_slice(), out)
}

/// Appends the words of a switch to be refused.
pub fn write_refuse(fields: &Refuse, out: &mut Text) -> Result<(), NoMemory>
    ensures ok { OnOk result (out.new.items ≡ out.old.items ++ spaced (body_words (body.Refuse fields.now))) }
    ensures err { OnErr result (IsPrefix out.old.items out.new.items) }
{
    push_kind(b"refuse", u64::from(fields.switch), out)
}

/// Appends the words of a refused switch.
pub fn write_refused(fields: &Refused, out: &mut Text) -> Result<(), NoMemory>
    ensures ok { OnOk result (out.new.items ≡ out.old.items ++ spaced (body_words (body.Refused fields.now))) }
    ensures err { OnErr result (IsPrefix out.old.items out.new.items) }
{
    push_kind(b"refused", u64::from(fields.switch), out)
}

/// Appends the words of a page from a log.
pub fn write_feed(fields: &Feed, out: &mut Text) -> Result<(), NoMemory>
    ensures ok { OnOk result (out.new.items ≡ out.old.items ++ spaced (body_words (body.Feed fields.now))) }
    ensures err { OnErr result (IsPrefix out.old.items out.new.items) }
{
    push_kind(b"feed", u64::from(fields.view), out)?;
    push_number(u64::from(fields.start), out)?;
    push_number(u64::from(fields.first), out)?;
    push_number(u64::from(fields.commit), out)?;
    push_entries(fields.entries.as_slice(), out)
}

/// Appends the words of a page of the chosen log.
pub fn write_page(fields: &Page, out: &mut Text) -> Result<(), NoMemory>
    ensures ok { OnOk result (out.new.items ≡ out.old.items ++ spaced (body_words (body.Page fields.now))) }
    ensures err { OnErr result (IsPrefix out.old.items out.new.items) }
{
    push_kind(b"page", u64::from(fields.view), out)?;
    push_number(u64::from(fields.first), out)?;
    push_entries(fields.entries.as_slice(), out)
}
