ghost use Rattle.std.specs.Prelude.{◌≡◌, ◌<◌, ◌≤◌, ◌+◌, ◌++◌, length, slice_get, IfOk, IfSome, Some};
ghost use Rattle.hm_chain.specs.Parts as parts;
ghost use Rattle.hm_packet.specs.Steps.{max_outs};
ghost use Rattle.hm_rules.specs.Chain as rules;
ghost use Rattle.hm_rules.specs.Replica.{opened};
ghost use Rattle.hm_rules.specs.ReplicaSteps as steps;
ghost use Rattle.hm_replica.specs.Given.{Gives};
ghost use Rattle.hm_replica.specs.Steps.{step_of, sends_act};
ghost use Rattle.hm_store.specs.Log.{max_log_len};

use crate::neighbours::{numbered, predecessor, successor};
use hm_base::entry::Entry;
use hm_base::members::Members;
use hm_base::memory::NoMemory;
use hm_base::node::Node;
use hm_base::verdict::{Admit, Verdict};
use hm_base::why::Why;
use hm_codec::acted::Acted;
use hm_codec::outs::Outs;
use hm_feed::follower::{Took, take};
use hm_feed::sender::Sender;
use hm_packet::body::{Ask, Body, Config, FastRead, Feed, FeedAck, NormalRead, Put, Refuse};
use hm_packet::packet::Packet;
use hm_replica::acts::{ignore, log_full, push, refuse, send_none, send_one};
use hm_replica::answers::declare;
use hm_replica::group::{first_member, is_member, last_member};
use hm_replica::law::{refused_packets_are_ignored, steps_give_their_parts};
use hm_replica::packets::{as_normal, done_packet, entry_of, packet_from, reply_packet};
use hm_replica::senders::{number, refusal};
use hm_shim::shim::{Local, Shim, reply_to};
use std::alloc::Global;
use std::marker::Model;

/// A member of a chain (van Renesse and Schneider): it holds its log, the members of its epoch, and what its successor
/// acknowledged. Contracts see the replica of the rules.
#[derive(Drop)]
pub struct Chain {
    me: u8,
    members: Members,
    shim: Shim,
    sender: Sender,
}

impl Model for Chain {
    ghost use Rattle.hm_rules.specs.Replica.{Replica};

    ghost Value = { Replica };

    ghost use Rattle.hm_chain.specs.Standing.{replica_of, IsKept};

    ghost view = { replica_of };

    ghost invariant = { IsKept };
}

impl Chain {
    /// A member before its first packet, with room for `cap` entries. All memory is taken here.
    pub fn open(alloc: Global, me: u8, members: &Members, cap: u32) -> Result<Chain, NoMemory>
        requires me { me ≤ 6 }
        requires bounded { cap ≤ max_log_len }
        ensures { IfOk result (λ c. c ≡ opened me members.now cap) }
    {
        Ok(Chain {
            me,
            members: members.copy(),
            shim: Shim::open(alloc, cap)?,
            sender: Sender::open(0, 0),
        })
    }

    /// The log and the accepted switch.
    pub fn shim(&self) -> &Shim
        ensures { result.now ≡ record { entries = self.now.log; applied = self.now.known; cap = self.now.cap; accepted = self.now.accepted } }
    {
        &self.shim
    }

    /// The epoch.
    pub fn view(&self) -> u32
        ensures { result ≡ self.now.view }
    {
        self.sender.view()
    }

    /// What the member makes of a packet, by the rules of a chain.
    pub fn step(&mut self, packet: &Packet, acted: &mut Acted)
        ensures { Gives self.new acted.new (rules.chain_step self.old packet.now) }
    {
        refused_packets_are_ignored();
        steps_give_their_parts();
        match refusal(self.me, takes(&packet.body), packet) {
            Some(why) => ignore(acted, why),
            None => self.row(number(packet.src), &packet.body, acted),
        }
    }

    /// The tail completes its last entry again; another member passes on what its successor hasn't acknowledged.
    pub fn tick(&mut self, acted: &mut Acted)
        ensures { Gives self.new acted.new (rules.chain_tick self.old) }
    {
        if self.is_tail() {
            self.complete_last(acted);
        } else {
            self.pass_on_rest(acted);
        }
    }

    /// What the member makes of what a packet says, whose sender has this number.
    fn row(&mut self, from: u32, body: &Body, acted: &mut Acted)
        ensures { step_of self.new acted.new ≡ rules.chain_row self.old from body.now }
    {
        match body {
            Body::Put(put) => self.on_put(put, acted),
            Body::FastRead(read) => self.on_fast_read(read, acted),
            Body::NormalRead(read) => self.on_normal_read(read, acted),
            Body::Feed(feed) => self.on_feed(from, feed, acted),
            Body::FeedAck(ack) => self.on_feed_ack(from, ack, acted),
            Body::Ask(ask) => self.on_ask(from, ask, acted),
            Body::Config(config) => self.on_config(config, acted),
            Body::Refuse(refuse) => self.on_refuse(refuse, acted),
            _ => ignore(acted, Why::Kind),
        }
    }

    /// A numbered write, at the head.
    fn on_put(&mut self, put: &Put, acted: &mut Acted)
        ensures { step_of self.new acted.new ≡ rules.chain_put self.old put.now }
    {
        if !self.is_head() {
            return ignore(acted, Why::Status);
        }
        match self.shim.admit(put) {
            Admit::Drop(why) => ignore(acted, why),
            Admit::Again { index } => self.answer_again(index, acted),
            Admit::Take => self.append(put, acted),
        }
    }

    /// Puts an admitted write behind the log, and passes it on.
    fn append(&mut self, put: &Put, acted: &mut Acted)
        ensures { step_of self.new acted.new ≡ steps.appends rules.chain_grew self.old (steps.entry_of put.now) }
    {
        match self.shim.append(entry_of(put)) {
            Ok(()) => {
                send_none(acted);
                self.grew(acted);
            }
            Err(_full) => log_full(acted),
        }
    }

    /// A write that the log has already: the tail completes it again, another head asks the tail to.
    fn answer_again(&self, index: u32, acted: &mut Acted)
        ensures { step_of self.now acted.new ≡ steps.answers_again rules.chain_again self.now index (slice_get self.now.log index) }
    {
        match self.shim.log().entry(index) {
            Some(entry) => self.write_again(&entry, index, acted),
            None => ignore(acted, Why::Repeat),
        }
    }

    /// A stamped read: answered where the read-ahead test holds, else a normal read at the tail.
    fn on_fast_read(&self, read: &FastRead, acted: &mut Acted)
        ensures { step_of self.now acted.new ≡ rules.chain_fast_read self.now read.now }
    {
        match self.shim.read_ahead(read) {
            Local::Answer(reply) => send_one(acted, &reply_packet(self.me, read.client, reply)),
            Local::Pass => self.read_at_tail(&as_normal(read), acted),
        }
    }

    /// A read at the tail, which answers from its log: all of it is committed.
    fn on_normal_read(&self, read: &NormalRead, acted: &mut Acted)
        ensures { step_of self.now acted.new ≡ rules.chain_normal_read self.now read.now }
    {
        if !self.is_tail() {
            return ignore(acted, Why::Status);
        }
        let found = self.shim.log().latest(read.object);
        let reply = reply_to(read.request, found);
        send_one(acted, &reply_packet(self.me, read.client, reply));
    }

    /// A page, from the predecessor.
    fn on_feed(&mut self, from: u32, feed: &Feed, acted: &mut Acted)
        ensures { step_of self.new acted.new ≡ rules.chain_feed self.old from feed.now }
    {
        if feed.view != self.view() {
            return ignore(acted, Why::Epoch);
        }
        match numbered(self.predecessor(), from) {
            Some(before) => self.take_in(before, feed, acted),
            None => ignore(acted, Why::Foreign),
        }
    }

    /// An acknowledgement, from the successor.
    fn on_feed_ack(&mut self, from: u32, ack: &FeedAck, acted: &mut Acted)
        ensures { step_of self.new acted.new ≡ rules.chain_feed_ack self.old from ack.now }
    {
        if ack.view != self.view() {
            return ignore(acted, Why::Epoch);
        }
        match numbered(self.successor(), from) {
            Some(behind) => self.note(behind, ack.len, acted),
            None => ignore(acted, Why::Foreign),
        }
    }

    /// The head asks the tail to complete a write again.
    fn on_ask(&self, from: u32, ask: &Ask, acted: &mut Acted)
        ensures { step_of self.now acted.new ≡ rules.chain_ask self.now from ask.now }
    {
        if ask.view != self.view() {
            return ignore(acted, Why::Epoch);
        }
        if !self.is_tail() {
            return ignore(acted, Why::Status);
        }
        if u32::from(first_member(&self.members)) != from {
            return ignore(acted, Why::Foreign);
        }
        match self.shim.judge(ask.client, ask.request) {
            Verdict::Old => ignore(acted, Why::Repeat),
            Verdict::New => ignore(acted, Why::Gap),
            Verdict::Again { index } => self.complete(index, acted),
        }
    }

    /// The members of a later epoch, in which nothing is acknowledged yet.
    fn on_config(&mut self, config: &Config, acted: &mut Acted)
        ensures { step_of self.new acted.new ≡ rules.chain_config self.old config.now }
    {
        if config.view <= self.view() {
            return ignore(acted, Why::Epoch);
        }
        if !is_member(&config.members, self.me) {
            return ignore(acted, Why::Foreign);
        }
        let was_tail = self.is_tail();
        self.members = config.members.copy();
        self.sender = Sender::open(config.view, 0);
        self.configured(was_tail, acted);
    }

    /// Nothing more is taken of a switch and of those before it.
    fn on_refuse(&mut self, told: &Refuse, acted: &mut Acted)
        ensures { step_of self.new acted.new ≡ steps.on_refuse self.old told.now }
    {
        if told.switch == u32::MAX {
            return ignore(acted, Why::Foreign);
        }
        refuse(acted, self.me, &mut self.shim, told.switch);
    }

    /// A write that the log has at this index: the tail completes it again, another head asks the tail to.
    fn write_again(&self, entry: &Entry, index: u32, acted: &mut Acted)
        ensures { step_of self.now acted.new ≡ steps.answers_again rules.chain_again self.now index (Some entry.now) }
    {
        if !entry.is_write() {
            return ignore(acted, Why::Repeat);
        }
        if self.is_tail() {
            return send_one(acted, &done_packet(self.me, self.shim.accepted(), entry));
        }
        let ask = Body::Ask(Ask {
            view: self.view(),
            client: entry.client,
            request: entry.request,
        });
        let tail = last_member(&self.members);
        send_one(acted, &packet_from(self.me, Node::Replica(tail), ask));
    }

    /// A normal read, here at the tail, else passed on to it.
    fn read_at_tail(&self, read: &NormalRead, acted: &mut Acted)
        ensures { step_of self.now acted.new ≡ parts.read_at_tail self.now read.now }
    {
        if self.is_tail() {
            return self.on_normal_read(read, acted);
        }
        let tail = Node::Replica(last_member(&self.members));
        send_one(acted, &packet_from(self.me, tail, Body::NormalRead(*read)));
    }

    /// Takes a page in and acknowledges it. New entries go on.
    fn take_in(&mut self, from: u8, feed: &Feed, acted: &mut Acted)
        requires { from ≤ 6 }
        ensures { step_of self.new acted.new ≡ parts.taken_in self.old from feed.now }
    {
        match take(&mut self.shim, feed) {
            Took::Gap => ignore(acted, Why::Gap),
            Took::LogFull => log_full(acted),
            Took::Grown(_) => {
                send_one(acted, &self.ack_to(from));
                self.grew(acted);
            }
            Took::Same(_) | Took::Staged(_) | Took::Adopted(_) => {
                send_one(acted, &self.ack_to(from));
            }
        }
    }

    /// Notes what the successor acknowledged, and sends it what it lacks.
    fn note(&mut self, behind: u8, len: u32, acted: &mut Acted)
        requires { behind ≤ 6 }
        ensures { step_of self.new acted.new ≡ parts.noted self.old behind len }
    {
        if len > self.shim.log().len() {
            return ignore(acted, Why::Foreign);
        }
        if !self.sender.note(behind, len) {
            return ignore(acted, Why::Repeat);
        }
        send_none(acted);
        if len < self.shim.log().len() {
            self.pass_on(&mut acted.outs);
        }
    }

    /// A new tail declares all of its log, another member passes its log on.
    fn configured(&mut self, was_tail: bool, acted: &mut Acted)
        ensures { step_of self.new acted.new ≡ rules.chain_configured was_tail self.old }
    {
        send_none(acted);
        if self.is_tail() {
            if !was_tail {
                self.declare(0, acted);
            }
        } else if self.shim.log().len() != 0 {
            self.pass_on(&mut acted.outs);
        }
    }

    /// After new entries: the tail declares them, another member passes them on, behind the packets that it has sent.
    fn grew(&mut self, acted: &mut Acted)
        requires room { length acted.old.outs + steps.max_answered ≤ max_outs }
        requires sent { acted.old ≡ sends_act acted.old.outs }
        ensures { step_of self.new acted.new ≡ steps.sends_first acted.old.outs (rules.chain_grew self.old) }
    {
        if self.is_tail() {
            let from = self.shim.log().applied_len();
            self.declare(from, acted);
        } else {
            self.pass_on(&mut acted.outs);
        }
    }

    /// Declares the log from a place on, with the answers behind the packets that it has sent.
    fn declare(&mut self, from: u32, acted: &mut Acted)
        requires room { length acted.old.outs + steps.max_answered ≤ max_outs }
        requires within { from ≤ length self.old.log }
        requires sent { acted.old ≡ sends_act acted.old.outs }
        ensures { step_of self.new acted.new ≡ steps.sends_first acted.old.outs (steps.declares self.old from (length self.old.log)) }
    {
        let to = self.shim.log().len();
        declare(acted, self.me, &mut self.shim, from, to);
    }

    /// Completes the entry at an index again, if there is one.
    fn complete(&self, index: u32, acted: &mut Acted)
        ensures { step_of self.now acted.new ≡ steps.sends self.now (steps.done_if_any self.now (slice_get self.now.log index)) }
    {
        match self.shim.log().entry(index) {
            Some(entry) => send_one(acted, &done_packet(self.me, self.shim.accepted(), &entry)),
            None => send_none(acted),
        }
    }

    /// Completes the last entry again, if there is one.
    fn complete_last(&self, acted: &mut Acted)
        ensures { step_of self.now acted.new ≡ steps.sends self.now (steps.done_if_any self.now (steps.last_of self.now.log)) }
    {
        self.complete(self.shim.log().len().saturating_sub(1), acted);
    }

    /// Passes on what the successor hasn't acknowledged.
    fn pass_on_rest(&self, acted: &mut Acted)
        ensures { step_of self.now acted.new ≡ parts.passes_rest self.now }
    {
        send_none(acted);
        if let Some(behind) = self.successor() {
            if self.sender.acked(behind) < self.shim.log().len() {
                self.pass_on(&mut acted.outs);
            }
        }
    }

    /// Puts the page to the successor behind the packets, if there is a successor.
    #[inline(always)]
    fn pass_on(&self, outs: &mut Outs)
        requires { length outs.old < max_outs }
        ensures { outs.new ≡ outs.old ++ rules.passes_on self.now }
    {
        if let Some(behind) = self.successor() {
            push(outs, &self.page_to(behind));
        }
    }

    /// The page to a replica.
    #[inline(always)]
    fn page_to(&self, other: u8) -> Packet<'_>
        requires { other ≤ 6 }
        ensures { result ≡ steps.page_to self.now 0 0 other }
    {
        let feed = self.sender.page(self.shim.log(), 0, other);
        packet_from(self.me, Node::Replica(other), Body::Feed(feed))
    }

    /// The acknowledgement of what the log holds.
    #[inline(always)]
    fn ack_to(&self, other: u8) -> Packet<'static>
        requires { other ≤ 6 }
        ensures { result ≡ steps.ack_to self.now other }
    {
        let ack = FeedAck {
            view: self.view(),
            len: self.shim.log().len(),
        };
        packet_from(self.me, Node::Replica(other), Body::FeedAck(ack))
    }

    /// Whether this is the first member.
    #[inline]
    fn is_head(&self) -> bool
        ensures { result ≡ rules.is_head self.now }
    {
        first_member(&self.members) == self.me
    }

    /// Whether this is the last member.
    #[inline]
    fn is_tail(&self) -> bool
        ensures { result ≡ rules.is_tail self.now }
    {
        last_member(&self.members) == self.me
    }

    /// The next member, if there is one.
    #[inline]
    fn successor(&self) -> Option<u8>
        ensures value { result ≡ rules.successor self.now }
        ensures within { IfSome result (λ m. m ≤ 6) }
    {
        successor(&self.members, self.me)
    }

    /// The member before, if there is one.
    #[inline]
    fn predecessor(&self) -> Option<u8>
        ensures value { result ≡ rules.predecessor self.now }
        ensures within { IfSome result (λ m. m ≤ 6) }
    {
        predecessor(&self.members, self.me)
    }
}

/// Whether a chain has a row for bodies of this kind.
fn takes(body: &Body) -> bool
    ensures { result ≡ rules.chain_takes body.now }
{
    matches!(
        body,
        Body::Put(_)
            | Body::FastRead(_)
            | Body::NormalRead(_)
            | Body::Feed(_)
            | Body::FeedAck(_)
            | Body::Ask(_)
            | Body::Config(_)
            | Body::Refuse(_)
    )
}
