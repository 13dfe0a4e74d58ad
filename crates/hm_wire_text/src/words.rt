ghost use Rattle.std.specs.Prelude.{◌≡◌, ◌++◌, IfOk};
ghost use Rattle.hm_base.specs.Lists.{IsPrefix};
ghost use Rattle.hm_packet.specs.declared.body.Body.TheVariants as body;
ghost use Rattle.hm_wire.specs.Reading as reading;
ghost use Rattle.hm_wire.specs.Reading.{Gives, as_body};
ghost use Rattle.hm_wire_text.specs.Worded.{worded};

use crate::pages::{entries_words, feed_head_at, push_feed_head};
use hm_base::buffer::Text;
use hm_base::entries::PageRoom;
use hm_base::memory::NoMemory;
use hm_packet::body::Page;
use hm_packet::words::{
    write_ask, write_config, write_done, write_fast_read, write_feed_ack, write_known,
    write_normal_read, write_page, write_pull, write_put, write_read, write_refuse, write_refused,
    write_reply, write_route, write_start_view_change, write_vote, write_write,
};
use hm_wire::bodies::{
    ask_at, config_at, done_at, fast_read_at, feed_ack_at, known_at, normal_read_at, page_at,
    pull_at, put_at, read_at, refuse_at, refused_at, reply_at, route_at, start_view_change_at,
    vote_at, write_at,
};
use hm_wire::fault::Fault;

/// Writes what was read, where it was read.
macro_rules! words {
    ($read:expr, $fields:ident, $write:expr) => {
        match $read {
            Ok(($fields, rest)) => {
                $write?;
                Ok(Ok(rest))
            }
            Err(fault) => Ok(Err(fault)),
        }
    };
}

/// Reads the body of the kind with this code, and appends its words. Here and below, what is appended where a fault is found
/// is a part of them.
#[tactic(auto, unfolding(hm_wire::specs::Reading::body_at))]
pub(crate) fn body_words<'a>(
    code: u8,
    bytes: &'a [u8],
    out: &mut Text,
) -> Result<Result<&'a [u8], Fault>, NoMemory>
    ensures words { IfOk result (λ r. Gives (λ rest. (out.new.items, rest.now)) r (worded out.old.items (reading.body_at code bytes.now))) }
    ensures front { IsPrefix out.old.items out.new.items }
{
    match code {
        1 => read_words(bytes, out),
        2 => write_words(bytes, out),
        3 => put_words(bytes, out),
        4 => fast_read_words(bytes, out),
        5 => normal_read_words(bytes, out),
        6 => done_words(bytes, out),
        7 => reply_words(bytes, out),
        8 => feed_words(bytes, out),
        9 => feed_ack_words(bytes, out),
        10 => ask_words(bytes, out),
        11 => known_words(bytes, out),
        12 => start_view_change_words(bytes, out),
        13 => vote_words(bytes, out),
        14 => pull_words(bytes, out),
        15 => page_words(bytes, out),
        16 => config_words(bytes, out),
        17 => route_words(bytes, out),
        18 => refuse_words(bytes, out),
        _ => refused_words(bytes, out),
    }
}

/// Reads a read, and appends its words.
fn read_words<'a>(bytes: &'a [u8], out: &mut Text) -> Result<Result<&'a [u8], Fault>, NoMemory>
    ensures words { IfOk result (λ r. Gives (λ rest. (out.new.items, rest.now)) r (worded out.old.items (as_body (λ b. body.Read b) (reading.read_at bytes.now)))) }
    ensures front { IsPrefix out.old.items out.new.items }
{
    words!(read_at(bytes), fields, write_read(&fields, out))
}

/// Reads a write, and appends its words.
fn write_words<'a>(bytes: &'a [u8], out: &mut Text) -> Result<Result<&'a [u8], Fault>, NoMemory>
    ensures words { IfOk result (λ r. Gives (λ rest. (out.new.items, rest.now)) r (worded out.old.items (as_body (λ b. body.Write b) (reading.write_at bytes.now)))) }
    ensures front { IsPrefix out.old.items out.new.items }
{
    words!(write_at(bytes), fields, write_write(&fields, out))
}

/// Reads a numbered write, and appends its words.
fn put_words<'a>(bytes: &'a [u8], out: &mut Text) -> Result<Result<&'a [u8], Fault>, NoMemory>
    ensures words { IfOk result (λ r. Gives (λ rest. (out.new.items, rest.now)) r (worded out.old.items (as_body (λ b. body.Put b) (reading.put_at bytes.now)))) }
    ensures front { IsPrefix out.old.items out.new.items }
{
    words!(put_at(bytes), fields, write_put(&fields, out))
}

/// Reads a stamped read, and appends its words.
fn fast_read_words<'a>(bytes: &'a [u8], out: &mut Text) -> Result<Result<&'a [u8], Fault>, NoMemory>
    ensures words { IfOk result (λ r. Gives (λ rest. (out.new.items, rest.now)) r (worded out.old.items (as_body (λ b. body.FastRead b) (reading.fast_read_at bytes.now)))) }
    ensures front { IsPrefix out.old.items out.new.items }
{
    words!(fast_read_at(bytes), fields, write_fast_read(&fields, out))
}

/// Reads a read that goes the normal way, and appends its words.
fn normal_read_words<'a>(
    bytes: &'a [u8],
    out: &mut Text,
) -> Result<Result<&'a [u8], Fault>, NoMemory>
    ensures words { IfOk result (λ r. Gives (λ rest. (out.new.items, rest.now)) r (worded out.old.items (as_body (λ b. body.NormalRead b) (reading.normal_read_at bytes.now)))) }
    ensures front { IsPrefix out.old.items out.new.items }
{
    words!(
        normal_read_at(bytes),
        fields,
        write_normal_read(&fields, out)
    )
}

/// Reads a completion, and appends its words.
fn done_words<'a>(bytes: &'a [u8], out: &mut Text) -> Result<Result<&'a [u8], Fault>, NoMemory>
    ensures words { IfOk result (λ r. Gives (λ rest. (out.new.items, rest.now)) r (worded out.old.items (as_body (λ b. body.Done b) (reading.done_at bytes.now)))) }
    ensures front { IsPrefix out.old.items out.new.items }
{
    words!(done_at(bytes), fields, write_done(&fields, out))
}

/// Reads an answer, and appends its words.
fn reply_words<'a>(bytes: &'a [u8], out: &mut Text) -> Result<Result<&'a [u8], Fault>, NoMemory>
    ensures words { IfOk result (λ r. Gives (λ rest. (out.new.items, rest.now)) r (worded out.old.items (as_body (λ b. body.Reply b) (reading.reply_at bytes.now)))) }
    ensures front { IsPrefix out.old.items out.new.items }
{
    words!(reply_at(bytes), fields, write_reply(&fields, out))
}

/// Reads a page from a log, and appends its words.
fn feed_words<'a>(bytes: &'a [u8], out: &mut Text) -> Result<Result<&'a [u8], Fault>, NoMemory>
    ensures words { IfOk result (λ r. Gives (λ rest. (out.new.items, rest.now)) r (worded out.old.items (as_body (λ b. body.Feed b) (reading.feed_at bytes.now)))) }
    ensures front { IsPrefix out.old.items out.new.items }
{
    match feed_head_at(bytes) {
        Ok((fields, rest)) => {
            push_feed_head(&fields, out)?;
            entries_words(rest, out)
        }
        Err(fault) => Ok(Err(fault)),
    }
}

/// Reads how long a list is held, and appends its words.
fn feed_ack_words<'a>(bytes: &'a [u8], out: &mut Text) -> Result<Result<&'a [u8], Fault>, NoMemory>
    ensures words { IfOk result (λ r. Gives (λ rest. (out.new.items, rest.now)) r (worded out.old.items (as_body (λ b. body.FeedAck b) (reading.feed_ack_at bytes.now)))) }
    ensures front { IsPrefix out.old.items out.new.items }
{
    words!(feed_ack_at(bytes), fields, write_feed_ack(&fields, out))
}

/// Reads a call for a completion, and appends its words.
fn ask_words<'a>(bytes: &'a [u8], out: &mut Text) -> Result<Result<&'a [u8], Fault>, NoMemory>
    ensures words { IfOk result (λ r. Gives (λ rest. (out.new.items, rest.now)) r (worded out.old.items (as_body (λ b. body.Ask b) (reading.ask_at bytes.now)))) }
    ensures front { IsPrefix out.old.items out.new.items }
{
    words!(ask_at(bytes), fields, write_ask(&fields, out))
}

/// Reads how much is committed, and appends its words.
fn known_words<'a>(bytes: &'a [u8], out: &mut Text) -> Result<Result<&'a [u8], Fault>, NoMemory>
    ensures words { IfOk result (λ r. Gives (λ rest. (out.new.items, rest.now)) r (worded out.old.items (as_body (λ b. body.Known b) (reading.known_at bytes.now)))) }
    ensures front { IsPrefix out.old.items out.new.items }
{
    words!(known_at(bytes), fields, write_known(&fields, out))
}

/// Reads a view that is entered, and appends its words.
fn start_view_change_words<'a>(
    bytes: &'a [u8],
    out: &mut Text,
) -> Result<Result<&'a [u8], Fault>, NoMemory>
    ensures words { IfOk result (λ r. Gives (λ rest. (out.new.items, rest.now)) r (worded out.old.items (as_body (λ b. body.StartViewChange b) (reading.start_view_change_at bytes.now)))) }
    ensures front { IsPrefix out.old.items out.new.items }
{
    words!(
        start_view_change_at(bytes),
        fields,
        write_start_view_change(&fields, out)
    )
}

/// Reads a vote, and appends its words.
fn vote_words<'a>(bytes: &'a [u8], out: &mut Text) -> Result<Result<&'a [u8], Fault>, NoMemory>
    ensures words { IfOk result (λ r. Gives (λ rest. (out.new.items, rest.now)) r (worded out.old.items (as_body (λ b. body.Vote b) (reading.vote_at bytes.now)))) }
    ensures front { IsPrefix out.old.items out.new.items }
{
    words!(vote_at(bytes), fields, write_vote(&fields, out))
}

/// Reads a call for a log, and appends its words.
fn pull_words<'a>(bytes: &'a [u8], out: &mut Text) -> Result<Result<&'a [u8], Fault>, NoMemory>
    ensures words { IfOk result (λ r. Gives (λ rest. (out.new.items, rest.now)) r (worded out.old.items (as_body (λ b. body.Pull b) (reading.pull_at bytes.now)))) }
    ensures front { IsPrefix out.old.items out.new.items }
{
    words!(pull_at(bytes), fields, write_pull(&fields, out))
}

/// Reads a page of the chosen log, and appends its words.
fn page_words<'a>(bytes: &'a [u8], out: &mut Text) -> Result<Result<&'a [u8], Fault>, NoMemory>
    ensures words { IfOk result (λ r. Gives (λ rest. (out.new.items, rest.now)) r (worded out.old.items (as_body (λ b. body.Page b) (reading.page_at bytes.now)))) }
    ensures front { IsPrefix out.old.items out.new.items }
{
    let mut room = PageRoom::new();
    words!(
        page_at(bytes, &mut room),
        fields,
        write_page(
            &Page {
                view: fields.view,
                first: fields.first,
                entries: room.entries(),
            },
            out
        )
    )
}

/// Reads the members of an epoch, and appends its words.
fn config_words<'a>(bytes: &'a [u8], out: &mut Text) -> Result<Result<&'a [u8], Fault>, NoMemory>
    ensures words { IfOk result (λ r. Gives (λ rest. (out.new.items, rest.now)) r (worded out.old.items (as_body (λ b. body.Config b) (reading.config_at bytes.now)))) }
    ensures front { IsPrefix out.old.items out.new.items }
{
    words!(config_at(bytes), fields, write_config(&fields, out))
}

/// Reads a route, and appends its words.
fn route_words<'a>(bytes: &'a [u8], out: &mut Text) -> Result<Result<&'a [u8], Fault>, NoMemory>
    ensures words { IfOk result (λ r. Gives (λ rest. (out.new.items, rest.now)) r (worded out.old.items (as_body (λ b. body.Route b) (reading.route_at bytes.now)))) }
    ensures front { IsPrefix out.old.items out.new.items }
{
    words!(route_at(bytes), fields, write_route(&fields, out))
}

/// Reads a switch to be refused, and appends its words.
fn refuse_words<'a>(bytes: &'a [u8], out: &mut Text) -> Result<Result<&'a [u8], Fault>, NoMemory>
    ensures words { IfOk result (λ r. Gives (λ rest. (out.new.items, rest.now)) r (worded out.old.items (as_body (λ b. body.Refuse b) (reading.refuse_at bytes.now)))) }
    ensures front { IsPrefix out.old.items out.new.items }
{
    words!(refuse_at(bytes), fields, write_refuse(&fields, out))
}

/// Reads a refused switch, and appends its words.
fn refused_words<'a>(bytes: &'a [u8], out: &mut Text) -> Result<Result<&'a [u8], Fault>, NoMemory>
    ensures words { IfOk result (λ r. Gives (λ rest. (out.new.items, rest.now)) r (worded out.old.items (as_body (λ b. body.Refused b) (reading.refused_at bytes.now)))) }
    ensures front { IsPrefix out.old.items out.new.items }
{
    words!(refused_at(bytes), fields, write_refused(&fields, out))
}
