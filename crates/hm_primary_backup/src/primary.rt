ghost use Rattle.std.specs.Prelude.{◌≡◌, ◌≤◌, ◌+◌, ◌↔◌, ◌++◌, ◌==◌, [], true, false, None, length, map, slice_get, slice_index, All, IfOk, IfSome, IsTrue};
ghost use Rattle.std.specs.List.{list_any};
ghost use Rattle.hm_feed.specs.Sending.{above};
ghost use Rattle.hm_primary_backup.specs.Parts as parts;
ghost use Rattle.hm_replica.specs.Given.{Gives};
ghost use Rattle.hm_replica.specs.Steps.{step_of};
ghost use Rattle.hm_rules.specs.PrimaryBackup as rules;
ghost use Rattle.hm_rules.specs.Replica.{opened, others, acked_by, held_len};
ghost use Rattle.hm_rules.specs.ReplicaSteps as steps;
ghost use Rattle.hm_store.specs.Log.{max_log_len};

use hm_base::members::Members;
use hm_base::memory::NoMemory;
use hm_base::node::Node;
use hm_base::verdict::Admit;
use hm_base::why::Why;
use hm_codec::acted::Acted;
use hm_codec::outs::Outs;
use hm_feed::follower::{Follower, Took};
use hm_feed::sender::Sender;
use hm_packet::body::{Body, Config, FastRead, Feed, FeedAck, Known, NormalRead, Put, Refuse};
use hm_packet::packet::Packet;
use hm_replica::acts::{ignore, log_full, push, refuse, send_none, send_one};
use hm_replica::answers::{declare, push_last_done};
use hm_replica::group::{first_member, is_member};
use hm_replica::law::{refused_packets_are_ignored, steps_give_their_parts};
use hm_replica::packets::{as_normal, done_packet, entry_of, packet_from, reply_packet};
use hm_replica::senders::{number, refusal};
use hm_shim::shim::{Local, Shim, reply_to};
use std::alloc::Global;
use std::marker::Model;

/// A member of a primary-backup group: it holds its log, the members of its epoch, what each other member acknowledged, and
/// the list that is to replace its log. Contracts see the replica of the rules.
#[derive(Drop)]
pub struct Primary {
    me: u8,
    members: Members,
    shim: Shim,
    sender: Sender,
    follower: Follower,
}

impl Model for Primary {
    ghost use Rattle.hm_rules.specs.Replica.{Replica};

    ghost Value = { Replica };

    ghost use Rattle.hm_primary_backup.specs.Standing.{replica_of, IsKept};

    ghost view = { replica_of };

    ghost invariant = { IsKept };
}

impl Primary {
    /// A member before its first packet, with room for `cap` entries. All memory is taken here.
    pub fn open(alloc: Global, me: u8, members: &Members, cap: u32) -> Result<Primary, NoMemory>
        requires me { me ≤ 6 }
        requires bounded { cap ≤ max_log_len }
        ensures { IfOk result (λ p. p ≡ opened me members.now cap) }
    {
        Ok(Primary {
            me,
            members: members.copy(),
            shim: Shim::open(alloc, cap)?,
            sender: Sender::open(0, 0),
            follower: Follower::open(alloc, cap)?,
        })
    }

    /// The log and the accepted switch.
    pub fn shim(&self) -> &Shim
        ensures { result.now ≡ record { entries = self.now.log; applied = self.now.known; cap = self.now.cap; accepted = self.now.accepted } }
    {
        &self.shim
    }

    /// The epoch.
    pub fn view(&self) -> u32
        ensures { result ≡ self.now.view }
    {
        self.sender.view()
    }

    /// Whether every other member acknowledged at least the log with which the epoch began.
    pub fn settled(&self) -> bool
        ensures value { result ≡ rules.is_settled self.now }
        ensures each { IsTrue result ↔ All (λ other. self.now.start ≤ acked_by self.now other) (others self.now) }
    {
        for member in self.members.as_slice() {
            if *member != self.me && self.sender.acked(*member) < self.sender.start() {
                return false;
            }
        }
        true
    }

    /// What the member makes of a packet, by the rules of primary-backup.
    pub fn step(&mut self, packet: &Packet, acted: &mut Acted)
        ensures { Gives self.new acted.new (rules.primary_step self.old packet.now) }
    {
        refused_packets_are_ignored();
        steps_give_their_parts();
        match refusal(self.me, takes(&packet.body), packet) {
            Some(why) => ignore(acted, why),
            None => self.row(number(packet.src), &packet.body, acted),
        }
    }

    /// The primary tells each other member what is committed, or sends what it lacks, and completes its last applied write
    /// again; a backup does nothing.
    pub fn tick(&mut self, acted: &mut Acted)
        ensures { Gives self.new acted.new (rules.primary_tick self.old) }
    {
        send_none(acted);
        if self.is_primary() {
            self.push_known_or_pages(&mut acted.outs);
            push_last_done(&mut acted.outs, self.me, &self.shim);
        }
    }

    /// What the member makes of what a packet says, whose sender has this number.
    fn row(&mut self, from: u32, body: &Body, acted: &mut Acted)
        ensures { step_of self.new acted.new ≡ rules.primary_row self.old from body.now }
    {
        match body {
            Body::Put(put) => self.on_put(put, acted),
            Body::FastRead(read) => self.on_fast_read(read, acted),
            Body::NormalRead(read) => self.on_normal_read(read, acted),
            Body::Feed(feed) => self.on_feed(from, feed, acted),
            Body::FeedAck(ack) => self.on_feed_ack(from, ack, acted),
            Body::Known(told) => self.on_known(from, told, acted),
            Body::Config(config) => self.on_config(config, acted),
            Body::Refuse(told) => self.on_refuse(told, acted),
            _ => ignore(acted, Why::Kind),
        }
    }

    /// A numbered write, at the primary.
    fn on_put(&mut self, put: &Put, acted: &mut Acted)
        ensures { step_of self.new acted.new ≡ rules.primary_put self.old put.now }
    {
        if !self.is_primary() {
            return ignore(acted, Why::Status);
        }
        match self.shim.admit(put) {
            Admit::Drop(why) => ignore(acted, why),
            Admit::Again { index } => self.answer_again(index, acted),
            Admit::Take => self.append(put, acted),
        }
    }

    /// Puts an admitted write behind the primary's log, and sends it to the others.
    fn append(&mut self, put: &Put, acted: &mut Acted)
        requires { rules.is_primary self.old ≡ true }
        ensures { step_of self.new acted.new ≡ steps.appends rules.primary_grew self.old (steps.entry_of put.now) }
    {
        match self.shim.append(entry_of(put)) {
            Ok(()) => self.grew(acted),
            Err(_full) => log_full(acted),
        }
    }

    /// A write that the log has already is completed again where it is applied.
    fn answer_again(&self, index: u32, acted: &mut Acted)
        ensures { step_of self.now acted.new ≡ steps.answers_again steps.done_again self.now index (slice_get self.now.log index) }
    {
        match self.shim.log().entry(index) {
            Some(entry) if entry.is_write() && index < self.shim.log().applied_len() => {
                send_one(acted, &done_packet(self.me, self.shim.accepted(), &entry));
            }
            _ => ignore(acted, Why::Repeat),
        }
    }

    /// A stamped read: answered where the read-ahead test holds, else a normal read at the primary.
    fn on_fast_read(&self, read: &FastRead, acted: &mut Acted)
        ensures { step_of self.now acted.new ≡ rules.primary_fast_read self.now read.now }
    {
        match self.shim.read_ahead(read) {
            Local::Answer(reply) => send_one(acted, &reply_packet(self.me, read.client, reply)),
            Local::Pass => self.read_at_primary(&as_normal(read), acted),
        }
    }

    /// A normal read, here at the primary, else passed on to it.
    fn read_at_primary(&self, read: &NormalRead, acted: &mut Acted)
        ensures { step_of self.now acted.new ≡ parts.read_at_primary self.now read.now }
    {
        if self.is_primary() {
            return self.on_normal_read(read, acted);
        }
        let primary = Node::Replica(first_member(&self.members));
        send_one(
            acted,
            &packet_from(self.me, primary, Body::NormalRead(*read)),
        );
    }

    /// A read at the primary, which answers from what it has applied once it is settled.
    fn on_normal_read(&self, read: &NormalRead, acted: &mut Acted)
        ensures { step_of self.now acted.new ≡ rules.primary_normal_read self.now read.now }
    {
        if !self.is_primary() {
            return ignore(acted, Why::Status);
        }
        if !self.settled() {
            return ignore(acted, Why::Unsettled);
        }
        let found = self.shim.log().applied(read.object);
        let reply = reply_to(read.request, found);
        send_one(acted, &reply_packet(self.me, read.client, reply));
    }

    /// A page, from the primary.
    fn on_feed(&mut self, from: u32, feed: &Feed, acted: &mut Acted)
        ensures { step_of self.new acted.new ≡ rules.primary_feed self.old from feed.now }
    {
        if feed.view != self.view() {
            return ignore(acted, Why::Epoch);
        }
        let primary = first_member(&self.members);
        if self.is_primary() || u32::from(primary) != from {
            return ignore(acted, Why::Foreign);
        }
        self.take_in(primary, feed, acted);
    }

    /// Takes a page in and acknowledges it.
    fn take_in(&mut self, from: u8, feed: &Feed, acted: &mut Acted)
        requires sender { from ≤ 6 }
        requires backup { rules.is_primary self.old ≡ false }
        ensures { step_of self.new acted.new ≡ parts.taken_in self.old from feed.now }
    {
        match self.follower.take(&mut self.shim, feed) {
            Took::Gap => ignore(acted, Why::Gap),
            Took::LogFull => log_full(acted),
            Took::Grown(held) | Took::Adopted(held) | Took::Staged(held) | Took::Same(held) => {
                self.acknowledge(from, held, feed.commit, acted);
            }
        }
    }

    /// Applies what a page tells to be committed, unless it stages, and acknowledges the list that it holds.
    fn acknowledge(&mut self, from: u8, held: u32, commit: u32, acted: &mut Acted)
        requires sender { from ≤ 6 }
        requires held { held ≡ held_len self.old }
        ensures { step_of self.new acted.new ≡ parts.acknowledged self.old from commit }
    {
        if !self.follower.staging() {
            self.learn(commit);
        }
        let ack = FeedAck {
            view: self.view(),
            len: held,
        };
        send_one(
            acted,
            &packet_from(self.me, Node::Replica(from), Body::FeedAck(ack)),
        );
    }

    /// Applies what is told to be committed, as far as the log goes.
    fn learn(&mut self, commit: u32)
        requires { self.old.staged ≡ None }
        ensures { self.new ≡ steps.learns commit self.old }
    {
        let known = self.shim.log().applied_len();
        let len = self.shim.log().len();
        self.shim.apply_to(known.max(commit.min(len)));
    }

    /// An acknowledgement, at the primary.
    fn on_feed_ack(&mut self, from: u32, ack: &FeedAck, acted: &mut Acted)
        ensures { step_of self.new acted.new ≡ rules.primary_feed_ack self.old from ack.now }
    {
        if ack.view != self.view() {
            return ignore(acted, Why::Epoch);
        }
        if !self.is_primary() {
            return ignore(acted, Why::Status);
        }
        if !self.is_other(from) {
            return ignore(acted, Why::Foreign);
        }
        self.note(from as u8, ack.len, acted);
    }

    /// Notes what a backup acknowledged, declares what is committed by that, and sends it what it lacks.
    fn note(&mut self, other: u8, len: u32, acted: &mut Acted)
        requires primary { rules.is_primary self.old ≡ true }
        requires other { other ≤ 6 }
        ensures { step_of self.new acted.new ≡ parts.noted self.old other len }
    {
        if len > self.shim.log().len() {
            return ignore(acted, Why::Foreign);
        }
        if !self.sender.note(other, len) {
            return ignore(acted, Why::Repeat);
        }
        self.commit(acted);
        if len < self.shim.log().len() {
            push(&mut acted.outs, &self.page_to(other));
        }
    }

    /// The primary tells how much is committed.
    fn on_known(&mut self, from: u32, told: &Known, acted: &mut Acted)
        ensures { step_of self.new acted.new ≡ rules.primary_known self.old from told.now }
    {
        if told.view != self.view() {
            return ignore(acted, Why::Epoch);
        }
        if u32::from(first_member(&self.members)) != from {
            return ignore(acted, Why::Foreign);
        }
        if self.follower.staging() {
            return ignore(acted, Why::Status);
        }
        if told.len > self.shim.log().len() {
            return ignore(acted, Why::Gap);
        }
        if told.len <= self.shim.log().applied_len() {
            return ignore(acted, Why::Repeat);
        }
        self.shim.apply_to(told.len);
        send_none(acted);
    }

    /// The members of a later epoch.
    fn on_config(&mut self, config: &Config, acted: &mut Acted)
        ensures { step_of self.new acted.new ≡ rules.primary_config self.old config.now }
    {
        if config.view <= self.view() {
            return ignore(acted, Why::Epoch);
        }
        if !is_member(&config.members, self.me) {
            return ignore(acted, Why::Foreign);
        }
        if first_member(&config.members) == self.me {
            self.lead(config, acted);
        } else {
            self.follow(config, acted);
        }
    }

    /// Begins an epoch as its primary, with its log, of which nobody has acknowledged anything in this epoch.
    fn lead(&mut self, config: &Config, acted: &mut Acted)
        requires { (slice_index config.now.members 0 == self.old.me) ≡ true }
        ensures { step_of self.new acted.new ≡ rules.primary_grew (parts.leading self.old config.now) }
    {
        self.members = config.members.copy();
        self.sender = Sender::open(config.view, self.shim.log().len());
        self.follower.end();
        self.grew(acted);
    }

    /// Begins an epoch as a backup: it stages a list from what it has applied, and is sure of nothing else.
    fn follow(&mut self, config: &Config, acted: &mut Acted)
        requires { (slice_index config.now.members 0 == self.old.me) ≡ false }
        ensures { step_of self.new acted.new ≡ steps.sends (parts.following self.old config.now) [] }
    {
        self.members = config.members.copy();
        self.sender.enter(config.view);
        let _len = self.shim.log().len();
        self.follower.begin();
        send_none(acted);
    }

    /// Nothing more is taken of a switch and of those before it.
    fn on_refuse(&mut self, told: &Refuse, acted: &mut Acted)
        ensures { step_of self.new acted.new ≡ steps.on_refuse self.old told.now }
    {
        if told.switch == u32::MAX {
            return ignore(acted, Why::Foreign);
        }
        refuse(acted, self.me, &mut self.shim, told.switch);
    }

    /// After new entries at the primary: it declares what is committed, and sends each other member its page.
    fn grew(&mut self, acted: &mut Acted)
        requires { rules.is_primary self.old ≡ true }
        ensures { step_of self.new acted.new ≡ rules.primary_grew self.old }
    {
        self.commit(acted);
        self.push_pages(&mut acted.outs);
    }

    /// The primary declares what all other members hold, once that takes in the log with which the epoch began.
    fn commit(&mut self, acted: &mut Acted)
        requires { rules.is_primary self.old ≡ true }
        ensures step { step_of self.new acted.new ≡ rules.primary_commits self.old }
        ensures few { length acted.new.outs ≤ steps.max_answered }
        ensures primary { rules.is_primary self.new ≡ true }
    {
        send_none(acted);
        let known = self.shim.log().applied_len();
        match self.to_commit(known) {
            Some(to) if self.sender.start() <= to => {
                declare(acted, self.me, &mut self.shim, known, to);
            }
            _ => {}
        }
    }

    /// How much of the log all other members hold, all of it where there are none, where that is more than is known.
    fn to_commit(&self, known: u32) -> Option<u32>
        requires { rules.is_primary self.now ≡ true }
        ensures value { result ≡ above known (steps.quorum_len self.now (length (others self.now))) }
        ensures within { IfSome result (λ len. len ≤ length self.now.log) }
    {
        // the primary is the first of the members
        let count = self.members.len() as u8 - 1;
        if count > 0 {
            return self.sender.held_above(&self.members, self.me, count, known);
        }
        let len = self.shim.log().len();
        if known < len { Some(len) } else { None }
    }

    /// Puts the page to each other member behind the packets.
    fn push_pages(&self, outs: &mut Outs)
        requires { length outs.old ≤ steps.max_answered }
        ensures { outs.new ≡ outs.old ++ steps.pages self.now }
    {
        for member in self.members.as_slice() {
            if *member != self.me {
                push(outs, &self.page_to(*member));
            }
        }
    }

    /// Puts behind the packets, for each other member, what is committed or else its page.
    fn push_known_or_pages(&self, outs: &mut Outs)
        requires { length outs.old ≤ steps.max_answered }
        ensures value { outs.new ≡ outs.old ++ map (steps.known_or_page self.now) (others self.now) }
        ensures few { length outs.new ≤ length outs.old + 7 }
    {
        for member in self.members.as_slice() {
            if *member != self.me {
                push(outs, &self.known_or_page(*member));
            }
        }
    }

    /// What is committed, to a member that has acknowledged all of the log, else its page.
    fn known_or_page(&self, other: u8) -> Packet<'_>
        requires { other ≤ 6 }
        ensures { result ≡ steps.known_or_page self.now other }
    {
        if self.sender.acked(other) != self.shim.log().len() {
            return self.page_to(other);
        }
        let told = Known {
            view: self.view(),
            len: self.shim.log().applied_len(),
        };
        packet_from(self.me, Node::Replica(other), Body::Known(told))
    }

    /// The page to a replica.
    fn page_to(&self, other: u8) -> Packet<'_>
        requires { other ≤ 6 }
        ensures { result ≡ steps.page_to self.now self.now.start self.now.known other }
    {
        let known = self.shim.log().applied_len();
        let feed = self.sender.page(self.shim.log(), known, other);
        packet_from(self.me, Node::Replica(other), Body::Feed(feed))
    }

    /// Whether this is the primary, the first member.
    fn is_primary(&self) -> bool
        ensures { result ≡ rules.is_primary self.now }
    {
        first_member(&self.members) == self.me
    }

    /// Whether this is another member's number.
    fn is_other(&self, number: u32) -> bool
        ensures value { result ≡ list_any (λ other. other == number) (others self.now) }
        ensures within { IsTrue result → number ≤ 6 }
    {
        let _count = self.members.len();
        if number > 6 {
            return false;
        }
        if number == u32::from(self.me) {
            return false;
        }
        is_member(&self.members, number as u8)
    }
}

/// Whether primary-backup has a row for bodies of this kind.
fn takes(body: &Body) -> bool
    ensures { result ≡ rules.primary_takes body.now }
{
    matches!(
        body,
        Body::Put(_)
            | Body::FastRead(_)
            | Body::NormalRead(_)
            | Body::Feed(_)
            | Body::FeedAck(_)
            | Body::Known(_)
            | Body::Config(_)
            | Body::Refuse(_)
    )
}
