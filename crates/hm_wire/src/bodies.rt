ghost use Rattle.std.specs.Prelude.{◌≡◌, []};
ghost use Rattle.hm_wire.specs.Reading as reading;
ghost use Rattle.hm_wire.specs.Reading.{Gives};

use crate::fault::{Fault, SHORT};
use crate::fields::{u8_within, u32_at, u64_at};
use crate::lists::{entries_at, members_at};
use crate::malformed::Reason;
use crate::parts::{stamp_at, value_bytes_at};
use hm_base::entries::PageRoom;
use hm_base::operation::Answer;
use hm_base::value::Value;
use hm_packet::body::{
    Ask, Config, Done, FastRead, FeedAck, Known, NormalRead, Pull, Put, Read, Refuse, Refused,
    Reply, StartViewChange, Vote, Write,
};
use hm_packet::route::Route;

/// The fields of a feed before its entries. Entries are read into a page that lies where the packet is made, since copies of
/// a page cost more than reading a small one.
#[derive(Clone, Copy, Debug, PartialEq, Eq)]
pub struct FeedFields {
    pub view: u32,
    pub start: u32,
    pub first: u32,
    pub commit: u32,
}

/// The fields of a page before its entries.
#[derive(Clone, Copy, Debug, PartialEq, Eq)]
pub struct PageFields {
    pub view: u32,
    pub first: u32,
}

/// Reads the fields of a read. Here and below, the bytes after the fields stand beside them.
#[tactic(auto, unfolding(crate::specs::Reading::read_at))]
#[inline(always)]
pub fn read_at(bytes: &[u8]) -> Result<(Read, &[u8]), Fault>
    ensures { Gives (λ x. (x.0, x.1.now)) result (reading.read_at bytes.now) }
{
    let (request, rest) = u64_at(bytes)?;
    let (object, rest) = u32_at(rest)?;
    Ok((Read { request, object }, rest))
}

#[tactic(auto, unfolding(crate::specs::Reading::write_at))]
#[inline(always)]
pub fn write_at(bytes: &[u8]) -> Result<(Write, &[u8]), Fault>
    ensures { Gives (λ x. (x.0, x.1.now)) result (reading.write_at bytes.now) }
{
    let (request, rest) = u64_at(bytes)?;
    let (object, rest) = u32_at(rest)?;
    let (front, rest) = value_bytes_at(rest)?;
    let value = Value::from_slice(front).unwrap();
    let write = Write {
        request,
        object,
        value,
    };
    Ok((write, rest))
}

#[tactic(auto, unfolding(crate::specs::Reading::put_at))]
#[inline(always)]
pub fn put_at(bytes: &[u8]) -> Result<(Put, &[u8]), Fault>
    ensures { Gives (λ x. (x.0, x.1.now)) result (reading.put_at bytes.now) }
{
    let (stamp, rest) = stamp_at(bytes)?;
    let (client, rest) = u32_at(rest)?;
    let (request, rest) = u64_at(rest)?;
    let (object, rest) = u32_at(rest)?;
    let (front, rest) = value_bytes_at(rest)?;
    let value = Value::from_slice(front).unwrap();
    let put = Put {
        stamp,
        client,
        request,
        object,
        value,
    };
    Ok((put, rest))
}

#[tactic(auto, unfolding(crate::specs::Reading::fast_read_at))]
#[inline(always)]
pub fn fast_read_at(bytes: &[u8]) -> Result<(FastRead, &[u8]), Fault>
    ensures { Gives (λ x. (x.0, x.1.now)) result (reading.fast_read_at bytes.now) }
{
    let (stamp, rest) = stamp_at(bytes)?;
    let (client, rest) = u32_at(rest)?;
    let (request, rest) = u64_at(rest)?;
    let (object, rest) = u32_at(rest)?;
    let read = FastRead {
        stamp,
        client,
        request,
        object,
    };
    Ok((read, rest))
}

#[tactic(auto, unfolding(crate::specs::Reading::normal_read_at))]
#[inline(always)]
pub fn normal_read_at(bytes: &[u8]) -> Result<(NormalRead, &[u8]), Fault>
    ensures { Gives (λ x. (x.0, x.1.now)) result (reading.normal_read_at bytes.now) }
{
    let (client, rest) = u32_at(bytes)?;
    let (request, rest) = u64_at(rest)?;
    let (object, rest) = u32_at(rest)?;
    let read = NormalRead {
        client,
        request,
        object,
    };
    Ok((read, rest))
}

#[tactic(auto, unfolding(crate::specs::Reading::done_at))]
#[inline(always)]
pub fn done_at(bytes: &[u8]) -> Result<(Done, &[u8]), Fault>
    ensures { Gives (λ x. (x.0, x.1.now)) result (reading.done_at bytes.now) }
{
    let (stamp, rest) = stamp_at(bytes)?;
    let (client, rest) = u32_at(rest)?;
    let (request, rest) = u64_at(rest)?;
    let done = Done {
        stamp,
        client,
        request,
    };
    Ok((done, rest))
}

#[tactic(auto, unfolding(crate::specs::Reading::reply_at, crate::specs::Reading::answer_at))]
#[inline(always)]
pub fn reply_at(bytes: &[u8]) -> Result<(Reply, &[u8]), Fault>
    ensures { Gives (λ x. (x.0, x.1.now)) result (reading.reply_at bytes.now) }
{
    let (request, rest) = u64_at(bytes)?;
    let (version, rest) = stamp_at(rest)?;
    let (tag, rest) = u8_within(rest, 0, 2, Reason::Range)?;
    if tag == 2 {
        let (front, rest) = value_bytes_at(rest)?;
        let value = Value::from_slice(front).unwrap();
        let reply = Reply {
            request,
            version,
            answer: Answer::Found(value),
        };
        return Ok((reply, rest));
    }
    let answer = if tag == 0 {
        Answer::Wrote
    } else {
        Answer::Nothing
    };
    let reply = Reply {
        request,
        version,
        answer,
    };
    Ok((reply, rest))
}

/// How many bytes the fields of a feed have at least: its numbers and the number of its entries.
const MIN_FEED_LEN: usize = 17;

/// Reads the fields of a feed, its entries into the empty page.
#[tactic(auto, unfolding(crate::specs::Reading::feed_at))]
pub fn feed_at<'a>(bytes: &'a [u8], entries: &mut PageRoom) -> Result<(FeedFields, &'a [u8]), Fault>
    requires { entries.old ≡ [] }
    ensures { Gives (λ x. (record { view = x.0.view; start = x.0.start; first = x.0.first; commit = x.0.commit; entries = entries.new }, x.1.now)) result (reading.feed_at bytes.now) }
{
    if bytes.len() < MIN_FEED_LEN {
        return Err(SHORT);
    }
    let (view, rest) = u32_at(bytes)?;
    let (start, rest) = u32_at(rest)?;
    let (first, rest) = u32_at(rest)?;
    let (commit, rest) = u32_at(rest)?;
    let rest = entries_at(rest, entries)?;
    let fields = FeedFields {
        view,
        start,
        first,
        commit,
    };
    Ok((fields, rest))
}

#[tactic(auto, unfolding(crate::specs::Reading::feed_ack_at))]
#[inline(always)]
pub fn feed_ack_at(bytes: &[u8]) -> Result<(FeedAck, &[u8]), Fault>
    ensures { Gives (λ x. (x.0, x.1.now)) result (reading.feed_ack_at bytes.now) }
{
    let (view, rest) = u32_at(bytes)?;
    let (len, rest) = u32_at(rest)?;
    Ok((FeedAck { view, len }, rest))
}

#[tactic(auto, unfolding(crate::specs::Reading::ask_at))]
#[inline(always)]
pub fn ask_at(bytes: &[u8]) -> Result<(Ask, &[u8]), Fault>
    ensures { Gives (λ x. (x.0, x.1.now)) result (reading.ask_at bytes.now) }
{
    let (view, rest) = u32_at(bytes)?;
    let (client, rest) = u32_at(rest)?;
    let (request, rest) = u64_at(rest)?;
    let ask = Ask {
        view,
        client,
        request,
    };
    Ok((ask, rest))
}

#[tactic(auto, unfolding(crate::specs::Reading::known_at))]
#[inline(always)]
pub fn known_at(bytes: &[u8]) -> Result<(Known, &[u8]), Fault>
    ensures { Gives (λ x. (x.0, x.1.now)) result (reading.known_at bytes.now) }
{
    let (view, rest) = u32_at(bytes)?;
    let (len, rest) = u32_at(rest)?;
    Ok((Known { view, len }, rest))
}

#[tactic(auto, unfolding(crate::specs::Reading::start_view_change_at))]
#[inline(always)]
pub fn start_view_change_at(bytes: &[u8]) -> Result<(StartViewChange, &[u8]), Fault>
    ensures { Gives (λ x. (x.0, x.1.now)) result (reading.start_view_change_at bytes.now) }
{
    let (view, rest) = u32_at(bytes)?;
    Ok((StartViewChange { view }, rest))
}

#[tactic(auto, unfolding(crate::specs::Reading::vote_at))]
#[inline(always)]
pub fn vote_at(bytes: &[u8]) -> Result<(Vote, &[u8]), Fault>
    ensures { Gives (λ x. (x.0, x.1.now)) result (reading.vote_at bytes.now) }
{
    let (view, rest) = u32_at(bytes)?;
    let (normal, rest) = u32_at(rest)?;
    let (len, rest) = u32_at(rest)?;
    let (commit, rest) = u32_at(rest)?;
    let vote = Vote {
        view,
        normal,
        len,
        commit,
    };
    Ok((vote, rest))
}

#[tactic(auto, unfolding(crate::specs::Reading::pull_at))]
#[inline(always)]
pub fn pull_at(bytes: &[u8]) -> Result<(Pull, &[u8]), Fault>
    ensures { Gives (λ x. (x.0, x.1.now)) result (reading.pull_at bytes.now) }
{
    let (view, rest) = u32_at(bytes)?;
    let (first, rest) = u32_at(rest)?;
    Ok((Pull { view, first }, rest))
}

/// Reads the fields of a page, its entries into the empty page.
#[tactic(auto, unfolding(crate::specs::Reading::page_at))]
pub fn page_at<'a>(bytes: &'a [u8], entries: &mut PageRoom) -> Result<(PageFields, &'a [u8]), Fault>
    requires { entries.old ≡ [] }
    ensures { Gives (λ x. (record { view = x.0.view; first = x.0.first; entries = entries.new }, x.1.now)) result (reading.page_at bytes.now) }
{
    let (view, rest) = u32_at(bytes)?;
    let (first, rest) = u32_at(rest)?;
    let rest = entries_at(rest, entries)?;
    Ok((PageFields { view, first }, rest))
}

#[tactic(auto, unfolding(crate::specs::Reading::config_at))]
pub fn config_at(bytes: &[u8]) -> Result<(Config, &[u8]), Fault>
    ensures { Gives (λ x. (x.0, x.1.now)) result (reading.config_at bytes.now) }
{
    let (view, rest) = u32_at(bytes)?;
    match members_at(rest) {
        Ok((members, rest)) => Ok((Config { view, members }, rest)),
        Err(fault) => Err(fault),
    }
}

#[tactic(auto, unfolding(crate::specs::Reading::route_at))]
pub fn route_at(bytes: &[u8]) -> Result<(Route, &[u8]), Fault>
    ensures { Gives (λ x. (x.0, x.1.now)) result (reading.route_at bytes.now) }
{
    let (view, rest) = u32_at(bytes)?;
    let (entry, rest) = u8_within(rest, 0, 6, Reason::Range)?;
    let (normal, rest) = u8_within(rest, 0, 6, Reason::Range)?;
    match members_at(rest) {
        Ok((members, rest)) => {
            let route = Route {
                view,
                entry,
                normal,
                members,
            };
            Ok((route, rest))
        }
        Err(fault) => Err(fault),
    }
}

#[tactic(auto, unfolding(crate::specs::Reading::refuse_at))]
#[inline(always)]
pub fn refuse_at(bytes: &[u8]) -> Result<(Refuse, &[u8]), Fault>
    ensures { Gives (λ x. (x.0, x.1.now)) result (reading.refuse_at bytes.now) }
{
    let (switch, rest) = u32_at(bytes)?;
    Ok((Refuse { switch }, rest))
}

#[tactic(auto, unfolding(crate::specs::Reading::refused_at))]
#[inline(always)]
pub fn refused_at(bytes: &[u8]) -> Result<(Refused, &[u8]), Fault>
    ensures { Gives (λ x. (x.0, x.1.now)) result (reading.refused_at bytes.now) }
{
    let (switch, rest) = u32_at(bytes)?;
    Ok((Refused { switch }, rest))
}
