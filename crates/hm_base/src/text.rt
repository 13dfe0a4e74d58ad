ghost use Rattle.std.specs.Prelude.{◌≡◌, ◌≤◌, ◌<◌, ◌+◌, ◌/◌, ◌%◌, [], ◌∷◌, ◌++◌, length, decimal, OnOk, OnErr};
ghost use Rattle.hm_base.specs.Lists.{IsPrefix};
ghost use Rattle.hm_base.specs.Padded.{max_value_len};
ghost use Rattle.hm_base.specs.Spellings.{dotted, value_text, act_text, answer_text, stamp_text, op_text, node_text};

use crate::buffer::Text;
use crate::entry::Act;
use crate::hexadecimal::push_digits;
use crate::memory::NoMemory;
use crate::node::Node;
use crate::operation::{Answer, OpId};
use crate::stamp::Stamp;
use crate::value::Value;
use itoa::Buffer;

/// The two digits of each number below 100, one pair after the other.
static PAIRS: [u8; 200] =
    *b"00010203040506070809101112131415161718192021222324252627282930313233343536373839404142434445464748495051525354555657585960616263646566676869707172737475767778798081828384858687888990919293949596979899";

/// Appends the bytes. After want of memory `out` is as before, here and in the other calls of this module.
#[inline(always)]
pub fn write_bytes(bytes: &[u8], out: &mut Text) -> Result<(), NoMemory>
    ensures ok { OnOk result (out.new.items ≡ out.old.items ++ bytes.now) }
    ensures err { OnErr result (out.new.items ≡ out.old.items) }
{
    out.put(bytes)
}

/// The two digits of a number below 100, `07` for 7.
#[inline(always)]
fn pair(number: u32) -> [u8; 2]
    requires { number < 100 }
    ensures { result ≡ (48 + number / 10) ∷ (48 + number % 10) ∷ [] }
{
    let at = 2 * number as usize;
    [PAIRS[at], PAIRS[at + 1]]
}

/// The digits of a number of two digits.
#[inline(always)]
#[tactic(auto, using(crate::proofs::Digits::decimal_two))]
fn two_digits(number: u32) -> [u8; 2]
    requires { (10 ≤ number) × (number < 100) }
    ensures { result ≡ decimal number }
{
    pair(number)
}

/// The digits of a number of three digits.
#[inline(always)]
#[tactic(auto, using(crate::proofs::Digits::decimal_pair, std::proofs::lemmas::Fmt::decimal_digit))]
fn three_digits(number: u32) -> [u8; 3]
    requires { (100 ≤ number) × (number < 1000) }
    ensures { result ≡ decimal number }
{
    let first = b'0' + (number / 100) as u8;
    let [second, third] = pair(number % 100);
    [first, second, third]
}

/// The digits of a number of four digits.
#[inline(always)]
fn four_digits(number: u32) -> [u8; 4]
    requires { (1000 ≤ number) × (number < 10000) }
    ensures { result ≡ decimal number }
{
    let [first, second] = two_digits(number / 100);
    let [third, fourth] = pair(number % 100);
    [first, second, third, fourth]
}

/// The digits of a number of five digits.
#[inline(always)]
fn five_digits(number: u32) -> [u8; 5]
    requires { (10000 ≤ number) × (number < 100000) }
    ensures { result ≡ decimal number }
{
    let [first, second, third] = three_digits(number / 100);
    let [fourth, fifth] = pair(number % 100);
    [first, second, third, fourth, fifth]
}

/// Appends a number of two to five digits.
fn write_short(number: u32, out: &mut Text) -> Result<(), NoMemory>
    requires { (10 ≤ number) × (number < 100000) }
    ensures ok { OnOk result (out.new.items ≡ out.old.items ++ decimal number) }
    ensures err { OnErr result (out.new.items ≡ out.old.items) }
{
    if number < 100 {
        out.put(&two_digits(number))
    } else if number < 1000 {
        out.put(&three_digits(number))
    } else if number < 10_000 {
        out.put(&four_digits(number))
    } else {
        out.put(&five_digits(number))
    }
}

/// Appends a number of any length.
#[inline(never)]
fn write_long(number: u64, out: &mut Text) -> Result<(), NoMemory>
    ensures ok { OnOk result (out.new.items ≡ out.old.items ++ decimal number) }
    ensures err { OnErr result (out.new.items ≡ out.old.items) }
{
    let mut buffer = Buffer::new();
    out.put(buffer.format(number).as_bytes())
}

/// Appends a number in decimal.
#[inline(always)]
#[tactic(auto, using(std::proofs::lemmas::Fmt::decimal_digit))]
pub fn write_number(number: u64, out: &mut Text) -> Result<(), NoMemory>
    ensures ok { OnOk result (out.new.items ≡ out.old.items ++ decimal number) }
    ensures err { OnErr result (out.new.items ≡ out.old.items) }
{
    if number < 10 {
        out.push(b'0' + number as u8)
    } else if number < 100_000 {
        write_short(number as u32, out)
    } else {
        write_long(number, out)
    }
}

/// Appends two numbers with a dot between them. After want of memory `out` may have the first ones of these bytes.
#[inline]
fn push_dotted(first: u64, second: u64, out: &mut Text) -> Result<(), NoMemory>
    ensures ok { OnOk result (out.new.items ≡ out.old.items ++ dotted first second) }
    ensures err { OnErr result (IsPrefix out.old.items out.new.items) }
{
    write_number(first, out)?;
    out.push(b'.')?;
    write_number(second, out)
}

/// Appends two numbers with a dot between them.
#[inline]
fn write_dotted(first: u64, second: u64, out: &mut Text) -> Result<(), NoMemory>
    ensures ok { OnOk result (out.new.items ≡ out.old.items ++ dotted first second) }
    ensures err { OnErr result (out.new.items ≡ out.old.items) }
{
    let len = out.len();
    let written = push_dotted(first, second, out);
    if written.is_err() {
        out.truncate(len);
    }
    written
}

/// Appends a stamp, as `1.9`.
#[inline]
pub fn write_stamp(stamp: Stamp, out: &mut Text) -> Result<(), NoMemory>
    ensures ok { OnOk result (out.new.items ≡ out.old.items ++ stamp_text stamp) }
    ensures err { OnErr result (out.new.items ≡ out.old.items) }
{
    write_dotted(u64::from(stamp.switch), stamp.seq, out)
}

/// Appends an operation, as `7.1`.
#[inline]
pub fn write_op(op: OpId, out: &mut Text) -> Result<(), NoMemory>
    ensures ok { OnOk result (out.new.items ≡ out.old.items ++ op_text op) }
    ensures err { OnErr result (out.new.items ≡ out.old.items) }
{
    write_dotted(u64::from(op.client), op.request, out)
}

/// Appends a value in lower-case hexadecimal, or `empty`.
#[inline]
pub fn write_value(value: &Value, out: &mut Text) -> Result<(), NoMemory>
    ensures ok { OnOk result (out.new.items ≡ out.old.items ++ value_text value.now) }
    ensures err { OnErr result (out.new.items ≡ out.old.items) }
{
    write_value_bytes(value.as_slice(), out)
}

/// Appends the text of a value of these bytes.
#[inline]
pub fn write_value_bytes(bytes: &[u8], out: &mut Text) -> Result<(), NoMemory>
    requires { length bytes.now ≤ max_value_len }
    ensures ok { OnOk result (out.new.items ≡ out.old.items ++ value_text bytes.now) }
    ensures err { OnErr result (out.new.items ≡ out.old.items) }
{
    if bytes.is_empty() {
        return write_bytes(b"empty", out);
    }
    let before = out.len();
    let written = push_digits(bytes, out);
    if written.is_err() {
        out.truncate(before);
    }
    written
}

/// Appends what an entry does: its value, or `look`.
#[inline]
pub fn write_act(act: &Act, out: &mut Text) -> Result<(), NoMemory>
    ensures ok { OnOk result (out.new.items ≡ out.old.items ++ act_text act.now) }
    ensures err { OnErr result (out.new.items ≡ out.old.items) }
{
    match act {
        Act::Put(value) => write_value(value, out),
        Act::Look => write_bytes(b"look", out),
    }
}

/// Appends an answer: `wrote`, `none` or a value.
#[inline]
pub fn write_answer(answer: &Answer, out: &mut Text) -> Result<(), NoMemory>
    ensures ok { OnOk result (out.new.items ≡ out.old.items ++ answer_text answer.now) }
    ensures err { OnErr result (out.new.items ≡ out.old.items) }
{
    match answer {
        Answer::Wrote => write_bytes(b"wrote", out),
        Answer::Nothing => write_bytes(b"none", out),
        Answer::Found(value) => write_value(value, out),
    }
}

/// Appends a letter and a number.
#[inline(always)]
fn write_lettered(letter: u8, number: u64, out: &mut Text) -> Result<(), NoMemory>
    ensures ok { OnOk result (out.new.items ≡ out.old.items ++ letter ∷ decimal number) }
    ensures err { OnErr result (out.new.items ≡ out.old.items) }
{
    let before = out.len();
    out.push(letter)?;
    let written = write_number(number, out);
    if written.is_err() {
        out.truncate(before);
    }
    written
}

/// Appends a node: `c7`, `s1`, `r0` or `cfg`.
#[inline(always)]
pub fn write_node(node: Node, out: &mut Text) -> Result<(), NoMemory>
    ensures ok { OnOk result (out.new.items ≡ out.old.items ++ node_text node) }
    ensures err { OnErr result (out.new.items ≡ out.old.items) }
{
    match node {
        Node::Client(client) => write_lettered(b'c', u64::from(client), out),
        Node::Switch(switch) => write_lettered(b's', u64::from(switch), out),
        Node::Replica(replica) => write_lettered(b'r', u64::from(replica), out),
        Node::Config => write_bytes(b"cfg", out),
    }
}
