ghost use Rattle.std.specs.Prelude.{[], ◌≡◌, ◌≤◌, ◌<◌, length, All};
ghost use Rattle.hm_base.specs.Logs.{max_page_len};
ghost use Rattle.hm_wire.specs.Reading as reading;
ghost use Rattle.hm_wire.specs.Reading.{Gives, with_front, rising_at};

use crate::fault::{Fault, SHORT};
use crate::fields::{u8_within, u32_at, u64_at};
use crate::malformed::Reason;
use crate::parts::{stamp_at, value_bytes_at};
use hm_base::entries::PageRoom;
use hm_base::entry::{Act, Entry};
use hm_base::members::Members;
use hm_base::value::Value;

/// How many bytes an entry has at least: its numbers and the tag of its act.
const MIN_ENTRY_LEN: usize = 29;

/// Reads an entry and puts it behind the others. No number before its act can be at fault but by its end, so one test of the
/// number of bytes serves them all.
#[tactic(auto, unfolding(crate::specs::Reading::many_at, crate::specs::Reading::entry_at, crate::specs::Reading::act_at))]
#[inline(always)]
fn push_entry<'a>(bytes: &'a [u8], entries: &mut PageRoom) -> Result<&'a [u8], Fault>
    requires room { length entries.old < max_page_len }
    ensures { Gives (λ rest. (entries.new, rest.now)) result (with_front entries.old (reading.many_at 1 bytes.now)) }
{
    if bytes.len() < MIN_ENTRY_LEN {
        return Err(SHORT);
    }
    let (stamp, rest) = stamp_at(bytes)?;
    let (client, rest) = u32_at(rest)?;
    let (request, rest) = u64_at(rest)?;
    let (object, rest) = u32_at(rest)?;
    let (tag, rest) = u8_within(rest, 0, 1, Reason::Range)?;
    if tag == 1 {
        let entry = Entry {
            stamp,
            client,
            request,
            object,
            act: Act::Look,
        };
        entries.try_push(entry).unwrap();
        return Ok(rest);
    }
    let (front, rest) = value_bytes_at(rest)?;
    let value = Value::from_slice(front).unwrap();
    let entry = Entry {
        stamp,
        client,
        request,
        object,
        act: Act::Put(value),
    };
    entries.try_push(entry).unwrap();
    Ok(rest)
}

/// Reads so many entries into the empty page, and answers the bytes after them.
#[inline(always)]
fn many_at<'a>(count: u8, bytes: &'a [u8], entries: &mut PageRoom) -> Result<&'a [u8], Fault>
    requires fits { count ≤ 16 }
    requires empty { entries.old ≡ [] }
    ensures { Gives (λ rest. (entries.new, rest.now)) result (reading.many_at count bytes.now) }
{
    let mut rest = bytes;
    for _ in 0..count {
        match push_entry(rest, entries) {
            Ok(after) => rest = after,
            Err(fault) => return Err(fault),
        }
    }
    Ok(rest)
}

/// Reads a page into the empty page: the number of its entries, and the entries. It answers the bytes after them.
#[tactic(auto, unfolding(crate::specs::Reading::entries_at))]
#[inline(always)]
pub fn entries_at<'a>(bytes: &'a [u8], entries: &mut PageRoom) -> Result<&'a [u8], Fault>
    requires { entries.old ≡ [] }
    ensures { Gives (λ rest. (entries.new, rest.now)) result (reading.entries_at bytes.now) }
{
    let (count, rest) = u8_within(bytes, 0, 16, Reason::Length)?;
    many_at(count, rest, entries)
}

/// Reads a list of members: their number, and the members in strictly rising order.
#[tactic(auto, unfolding(crate::specs::Reading::members_at, crate::specs::Reading::rising_at))]
pub fn members_at(bytes: &[u8]) -> Result<(Members, &[u8]), Fault>
    ensures { Gives (λ x. (x.0, x.1.now)) result (reading.members_at bytes.now) }
{
    let (count, rest) = u8_within(bytes, 1, 7, Reason::Length)?;
    let (first, rest) = u8_within(rest, 0, 6, Reason::Range)?;
    match Members::first(first) {
        Some(members) => more_at(count - 1, members, first + 1, rest),
        None => Err(SHORT),
    }
}

/// Reads so many further members, the first of them from `least` on.
fn more_at(count: u8, members: Members, least: u8, bytes: &[u8]) -> Result<(Members, &[u8]), Fault>
    requires least { least ≤ 7 }
    requires below { All (λ m. m < least) members }
    ensures { Gives (λ x. (x.0, x.1.now)) result (with_front members (rising_at count least bytes.now)) }
{
    let mut members = members;
    let mut least = least;
    let mut rest = bytes;
    for _ in 0..count {
        match u8_within(rest, least, 6, Reason::Range) {
            Ok((member, after)) => {
                if members.try_push(member).is_err() {
                    return Err(SHORT);
                }
                least = member + 1;
                rest = after;
            }
            Err(fault) => return Err(fault),
        }
    }
    Ok((members, rest))
}
