//! The words of a page's entries, each written as it is read: no page is made.

ghost use Rattle.std.specs.Prelude.{◌≡◌, ◌≤◌, ◌∷◌, ◌++◌, [], length, IfOk, OnOk, OnErr, decimal};
ghost use Rattle.hm_base.specs.Padded.{max_value_len};
ghost use Rattle.hm_base.specs.Lists.{IsPrefix};
ghost use Rattle.hm_base.specs.Spellings.{spaced, value_text};
ghost use Rattle.hm_wire.specs.Reading as reading;
ghost use Rattle.hm_wire.specs.Reading.{Gives};
ghost use Rattle.hm_wire_text.specs.Worded as own;
ghost use Rattle.hm_wire_text.specs.Worded.{value_worded, act_worded, entry_worded, many_worded, entries_worded, entry_head_words, feed_head_words};

use hm_base::buffer::Text;
use hm_base::memory::NoMemory;
use hm_base::stamp::Stamp;
use hm_base::text::{write_bytes, write_value_bytes};
use hm_packet::parts::{push_number, push_stamp, push_word};
use hm_wire::bodies::FeedFields;
use hm_wire::fault::Fault;
use hm_wire::fields::{u8_within, u32_at, u64_at};
use hm_wire::malformed::Reason;
use hm_wire::parts::{stamp_at, value_bytes_at};

/// Reads the fields of a feed before its entries.
#[tactic(auto, unfolding(crate::specs::Worded::feed_head_at))]
#[inline]
pub(crate) fn feed_head_at(bytes: &[u8]) -> Result<(FeedFields, &[u8]), Fault>
    ensures { Gives (λ x. (x.0, x.1.now)) result (own.feed_head_at bytes.now) }
{
    let (view, rest) = u32_at(bytes)?;
    let (start, rest) = u32_at(rest)?;
    let (first, rest) = u32_at(rest)?;
    let (commit, rest) = u32_at(rest)?;
    let fields = FeedFields {
        view,
        start,
        first,
        commit,
    };
    Ok((fields, rest))
}

/// Appends the words of a feed before its entries.
pub(crate) fn push_feed_head(fields: &FeedFields, out: &mut Text) -> Result<(), NoMemory>
    ensures ok { OnOk result (out.new.items ≡ out.old.items ++ spaced (feed_head_words fields.now)) }
    ensures err { OnErr result (IsPrefix out.old.items out.new.items) }
{
    push_word(b"feed", out)?;
    push_number(u64::from(fields.view), out)?;
    push_number(u64::from(fields.start), out)?;
    push_number(u64::from(fields.first), out)?;
    push_number(u64::from(fields.commit), out)
}

/// The fields of an entry before its act.
#[derive(Clone, Copy, Debug, PartialEq, Eq)]
struct EntryHead {
    stamp: Stamp,
    client: u32,
    request: u64,
    object: u32,
}

/// Reads the fields of an entry before its act.
#[tactic(auto, unfolding(crate::specs::Worded::entry_head_at))]
#[inline]
fn entry_head_at(bytes: &[u8]) -> Result<(EntryHead, &[u8]), Fault>
    ensures { Gives (λ x. (x.0, x.1.now)) result (own.entry_head_at bytes.now) }
{
    let (stamp, rest) = stamp_at(bytes)?;
    let (client, rest) = u32_at(rest)?;
    let (request, rest) = u64_at(rest)?;
    let (object, rest) = u32_at(rest)?;
    let head = EntryHead {
        stamp,
        client,
        request,
        object,
    };
    Ok((head, rest))
}

/// Appends the words of an entry before its act.
fn push_entry_head(head: &EntryHead, out: &mut Text) -> Result<(), NoMemory>
    ensures ok { OnOk result (out.new.items ≡ out.old.items ++ spaced (entry_head_words head.now)) }
    ensures err { OnErr result (IsPrefix out.old.items out.new.items) }
{
    push_stamp(head.stamp, out)?;
    push_number(u64::from(head.client), out)?;
    push_number(head.request, out)?;
    push_number(u64::from(head.object), out)
}

/// Appends the word of a value of these bytes.
fn push_value(bytes: &[u8], out: &mut Text) -> Result<(), NoMemory>
    requires { length bytes.now ≤ max_value_len }
    ensures ok { OnOk result (out.new.items ≡ out.old.items ++ spaced (value_text bytes.now ∷ [])) }
    ensures err { OnErr result (IsPrefix out.old.items out.new.items) }
{
    out.push(b' ')?;
    write_value_bytes(bytes, out)
}

/// Reads a value, and appends its word. Here and below, what is appended where a fault is found is a part of the words.
fn value_words<'a>(bytes: &'a [u8], out: &mut Text) -> Result<Result<&'a [u8], Fault>, NoMemory>
    ensures words { IfOk result (λ r. Gives (λ rest. (out.new.items, rest.now)) r (value_worded out.old.items (reading.value_at bytes.now))) }
    ensures front { IsPrefix out.old.items out.new.items }
{
    match value_bytes_at(bytes) {
        Ok((value, rest)) => {
            push_value(value, out)?;
            Ok(Ok(rest))
        }
        Err(fault) => Ok(Err(fault)),
    }
}

/// Reads what an entry does, and appends its word.
#[tactic(auto, unfolding(hm_wire::specs::Reading::act_at))]
fn act_words<'a>(bytes: &'a [u8], out: &mut Text) -> Result<Result<&'a [u8], Fault>, NoMemory>
    ensures words { IfOk result (λ r. Gives (λ rest. (out.new.items, rest.now)) r (act_worded out.old.items (reading.act_at bytes.now))) }
    ensures front { IsPrefix out.old.items out.new.items }
{
    match u8_within(bytes, 0, 1, Reason::Range) {
        Ok((tag, rest)) => match tag {
            0 => value_words(rest, out),
            _ => {
                write_bytes(b" look", out)?;
                Ok(Ok(rest))
            }
        },
        Err(fault) => Ok(Err(fault)),
    }
}

/// Reads an entry, and appends its words.
fn entry_words<'a>(bytes: &'a [u8], out: &mut Text) -> Result<Result<&'a [u8], Fault>, NoMemory>
    ensures words { IfOk result (λ r. Gives (λ rest. (out.new.items, rest.now)) r (entry_worded out.old.items (reading.entry_at bytes.now))) }
    ensures front { IsPrefix out.old.items out.new.items }
{
    match entry_head_at(bytes) {
        Ok((head, rest)) => {
            push_entry_head(&head, out)?;
            act_words(rest, out)
        }
        Err(fault) => Ok(Err(fault)),
    }
}

/// Reads so many entries, and appends their words.
fn many_words<'a>(
    count: u8,
    bytes: &'a [u8],
    out: &mut Text,
) -> Result<Result<&'a [u8], Fault>, NoMemory>
    ensures words { IfOk result (λ r. Gives (λ rest. (out.new.items, rest.now)) r (many_worded out.old.items (reading.many_at count bytes.now))) }
    ensures front { IsPrefix out.old.items out.new.items }
{
    let mut rest = bytes;
    for _ in 0..count {
        match entry_words(rest, out)? {
            Ok(after) => rest = after,
            Err(fault) => return Ok(Err(fault)),
        }
    }
    Ok(Ok(rest))
}

/// Reads the number of entries and the entries, and appends their words.
pub(crate) fn entries_words<'a>(
    bytes: &'a [u8],
    out: &mut Text,
) -> Result<Result<&'a [u8], Fault>, NoMemory>
    ensures words { IfOk result (λ r. Gives (λ rest. (out.new.items, rest.now)) r (entries_worded out.old.items (reading.entries_at bytes.now))) }
    ensures front { IsPrefix out.old.items out.new.items }
{
    match u8_within(bytes, 0, 16, Reason::Length) {
        Ok((count, rest)) => {
            push_number(u64::from(count), out)?;
            many_words(count, rest, out)
        }
        Err(fault) => Ok(Err(fault)),
    }
}
