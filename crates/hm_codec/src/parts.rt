ghost use Rattle.std.specs.Prelude.{◌≤◌, ◌<◌, ◌^◌, [], ◌∷◌, length, flat_map};
ghost use Rattle.hm_base.specs.Logs.{max_page_len};
ghost use Rattle.hm_base.specs.Padded.{max_value_len};
ghost use Rattle.hm_base.specs.Rising.{IsMembers};
ghost use Rattle.hm_packet.specs.Messages.{IsLawfulNode};
ghost use Rattle.hm_wire.specs.Grammar as grammar;
ghost use Rattle.hm_wire.specs.Grammar.{spelled};
ghost use Rattle.hm_wire.specs.Grammar.Size.{U32, U64};
ghost use Rattle.hm_wire.specs.Packets.{node_fields, value_fields, answer_fields, act_fields, entry_fields, many, page_fields, members_fields, node_numbers, value_numbers, answer_numbers, act_numbers, entry_numbers, page_numbers, members_numbers, stamp_fields, stamp_numbers, replica_field};
ghost use Rattle.hm_codec.specs.Writing.{Adds, Writes, TagsValue};

use crate::buf::Buf;
use hm_base::entry::{Act, Entry};
use hm_base::node::Node;
use hm_base::operation::Answer;
use hm_base::stamp::Stamp;
use hm_base::value::Value;

/// Appends a `u32`.
#[inline(always)]
pub(crate) fn push_u32<const N: usize>(number: u32, buf: &mut Buf<N>)
    ensures writes { Writes N (grammar.number U32) (number ∷ []) buf.old buf.new }
    ensures adds { Adds N buf.old buf.new (spelled U32 number) }
    ensures range { number < 2 ^ 32 }
{
    buf.push(&number.to_be_bytes());
}

/// Appends a `u64`.
#[inline(always)]
pub(crate) fn push_u64<const N: usize>(number: u64, buf: &mut Buf<N>)
    ensures { Writes N (grammar.number U64) (number ∷ []) buf.old buf.new }
{
    buf.push(&number.to_be_bytes());
}

/// Appends a tag and a `u32`.
#[inline(always)]
fn push_tagged<const N: usize>(tag: u8, number: u32, buf: &mut Buf<N>)
    ensures adds { Adds N buf.old buf.new (tag ∷ spelled U32 number) }
    ensures range { number < 2 ^ 32 }
{
    buf.push(&[tag]);
    push_u32(number, buf);
}

/// Appends a node: its tag and its number.
#[inline(always)]
pub(crate) fn push_node<const N: usize>(node: Node, buf: &mut Buf<N>)
    requires { IsLawfulNode node }
    ensures { Writes N node_fields (node_numbers node) buf.old buf.new }
{
    match node {
        Node::Client(client) => push_tagged(1, client, buf),
        Node::Switch(switch) => push_tagged(2, switch, buf),
        Node::Replica(replica) => push_tagged(3, u32::from(replica), buf),
        Node::Config => push_tagged(4, 0, buf),
    }
}

/// Appends a replica's number.
#[inline(always)]
pub(crate) fn push_replica<const N: usize>(replica: u8, buf: &mut Buf<N>)
    requires { replica ≤ 6 }
    ensures { Writes N replica_field (replica ∷ []) buf.old buf.new }
{
    buf.push(&[replica]);
}

/// Appends a stamp.
#[inline(always)]
pub(crate) fn push_stamp<const N: usize>(stamp: Stamp, buf: &mut Buf<N>)
    ensures { Writes N stamp_fields (stamp_numbers stamp) buf.old buf.new }
{
    push_u32(stamp.switch, buf);
    push_u64(stamp.seq, buf);
}

/// Appends the length of a run of bytes, and the bytes.
#[inline(always)]
fn push_run<const N: usize>(bytes: &[u8], buf: &mut Buf<N>)
    requires { length bytes.now ≤ max_value_len }
    ensures { Writes N value_fields (value_numbers bytes.now) buf.old buf.new }
{
    buf.push(&[bytes.len() as u8]);
    buf.push(bytes);
}

/// Appends a value: its length and its bytes.
#[inline(always)]
pub(crate) fn push_value<const N: usize>(value: &Value, buf: &mut Buf<N>)
    ensures { Writes N value_fields (value_numbers value.now) buf.old buf.new }
{
    push_run(value.as_slice(), buf);
}

/// Appends a value behind a tag.
#[inline(always)]
fn push_tagged_value<const N: usize>(tag: u8, value: &Value, buf: &mut Buf<N>)
    ensures { TagsValue N tag value.now buf.old buf.new }
{
    buf.push(&[tag]);
    push_value(value, buf);
}

/// Appends an answer: its tag, and the value that was found.
#[inline(always)]
pub(crate) fn push_answer<const N: usize>(answer: &Answer, buf: &mut Buf<N>)
    ensures { Writes N answer_fields (answer_numbers answer.now) buf.old buf.new }
{
    match answer {
        Answer::Wrote => buf.push(&[0]),
        Answer::Nothing => buf.push(&[1]),
        Answer::Found(value) => push_tagged_value(2, value, buf),
    }
}

/// Appends what an entry does: its tag, and the value that it puts.
#[inline(always)]
fn push_act<const N: usize>(act: &Act, buf: &mut Buf<N>)
    ensures { Writes N act_fields (act_numbers act.now) buf.old buf.new }
{
    match act {
        Act::Put(value) => push_tagged_value(0, value, buf),
        Act::Look => buf.push(&[1]),
    }
}

/// Appends an entry.
#[inline(always)]
fn push_entry<const N: usize>(entry: &Entry, buf: &mut Buf<N>)
    ensures { Writes N entry_fields (entry_numbers entry.now) buf.old buf.new }
{
    push_stamp(entry.stamp, buf);
    push_u32(entry.client, buf);
    push_u64(entry.request, buf);
    push_u32(entry.object, buf);
    push_act(&entry.act, buf);
}

/// Appends entries in order.
fn push_many<const N: usize>(entries: &[Entry], buf: &mut Buf<N>)
    ensures { Writes N (many (length entries.now)) (flat_map entry_numbers entries.now) buf.old buf.new }
{
    for entry in entries {
        push_entry(entry, buf);
    }
}

/// Appends a page: the number of its entries, and the entries.
pub(crate) fn push_page<const N: usize>(entries: &[Entry], buf: &mut Buf<N>)
    requires { length entries.now ≤ max_page_len }
    ensures { Writes N page_fields (page_numbers entries.now) buf.old buf.new }
{
    buf.push(&[entries.len() as u8]);
    push_many(entries, buf);
}

/// Appends a list of members: their number, and the members.
#[tactic(auto, using(crate::proofs::Writers::members_fit))]
#[inline(always)]
pub(crate) fn push_members<const N: usize>(members: &[u8], buf: &mut Buf<N>)
    requires { IsMembers members.now }
    ensures { Writes N members_fields (members_numbers members.now) buf.old buf.new }
{
    buf.push(&[members.len() as u8]);
    buf.push(members);
}
