ghost use Rattle.std.specs.Prelude.{◌≡◌, ◌<◌, ◌≤◌, ◌+◌, ◌++◌, length, map};
ghost use Rattle.hm_base.specs.Logs.{writes};
ghost use Rattle.hm_packet.specs.Steps.{max_outs};
ghost use Rattle.hm_replica.specs.Steps.{with_log};
ghost use Rattle.hm_rules.specs.ReplicaSteps as steps;

use crate::acts::push;
use crate::packets::{done_packet, reply_packet};
use hm_base::entry::{Act, Entry};
use hm_codec::acted::Acted;
use hm_codec::outs::Outs;
use hm_packet::acted::Declared;
use hm_packet::packet::Packet;
use hm_shim::shim::{Shim, reply_to};

/// How many entries of a declared range are answered at most.
pub const MAX_ANSWERED: u32 = 16;

/// What a committed entry is answered by: a write by its completion, a logged read by the reply to its client.
pub fn answer_entry(me: u8, shim: &Shim, entry: &Entry) -> Packet<'static>
    requires { me ≤ 6 }
    ensures { result ≡ steps.answer_entry (with_log me shim.now) entry.now }
{
    match entry.act {
        Act::Put(_) => done_packet(me, shim.accepted(), entry),
        Act::Look => {
            let found = shim.log().applied(entry.object);
            reply_packet(me, entry.client, reply_to(entry.request, found))
        }
    }
}

/// Puts the answers to a declared range of the log behind the packets, to the last entries of it: a client whose answer isn't
/// sent asks again.
pub fn push_answers(outs: &mut Outs, me: u8, shim: &Shim, from: u32, to: u32)
    requires me { me ≤ 6 }
    requires rises { from ≤ to }
    requires within { to ≤ length shim.now.entries }
    requires room { length outs.old + steps.max_answered ≤ max_outs }
    ensures value { outs.new ≡ outs.old ++ steps.answers (with_log me shim.now) from to }
    ensures few { length outs.new ≤ length outs.old + steps.max_answered }
{
    let first = from.max(to.saturating_sub(MAX_ANSWERED));
    push_answers_to(outs, me, shim, shim.log().entries(first, to));
}

/// Applies the log up to a length and declares it from a place on, with the answers behind the packets that it sends.
pub fn declare(acted: &mut Acted, me: u8, shim: &mut Shim, from: u32, to: u32)
    requires me { me ≤ 6 }
    requires range { from ≤ to }
    requires rises { shim.old.applied ≤ to }
    requires within { to ≤ length shim.old.entries }
    requires room { length acted.old.outs + steps.max_answered ≤ max_outs }
    ensures shim { shim.new ≡ record shim.old { applied = to } }
    ensures acted { acted.new ≡ record acted.old { outs = acted.old.outs ++ steps.answers (with_log me (record shim.old { applied = to })) from to; declared = record { from = from; to = to } } }
    ensures few { length acted.new.outs ≤ length acted.old.outs + steps.max_answered }
{
    shim.apply_to(to);
    push_answers(&mut acted.outs, me, shim, from, to);
    acted.declared = Declared { from, to };
}

/// Puts the completion of the last applied write behind the packets, if there is one.
pub fn push_last_done(outs: &mut Outs, me: u8, shim: &Shim)
    requires me { me ≤ 6 }
    requires room { length outs.old < max_outs }
    ensures { outs.new ≡ outs.old ++ steps.last_done (with_log me shim.now) }
{
    let log = shim.log();
    if let Some(entry) = last_write(log.entries(0, log.applied_len())) {
        push(outs, &done_packet(me, shim.accepted(), &entry));
    }
}

/// The last write of some entries, if there is one.
fn last_write(entries: &[Entry]) -> Option<Entry>
    ensures { result ≡ steps.last_of (writes entries.now) }
{
    let mut end = entries.len();
    while end > 0 {
        let entry = entries[end - 1];
        if entry.is_write() {
            return Some(entry);
        }
        end -= 1;
    }
    None
}

/// Puts the answers to some entries behind the packets.
fn push_answers_to(outs: &mut Outs, me: u8, shim: &Shim, entries: &[Entry])
    requires me { me ≤ 6 }
    requires room { length outs.old + length entries.now ≤ max_outs }
    ensures { outs.new ≡ outs.old ++ map (steps.answer_entry (with_log me shim.now)) entries.now }
{
    for entry in entries {
        push(outs, &answer_entry(me, shim, entry));
    }
}
