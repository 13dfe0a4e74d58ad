ghost use Rattle.std.specs.Prelude.{◌≡◌, ◌<◌, ◌≤◌, ◌+◌, ◌++◌, ◌==◌, ◌%◌, true, false, length, map, slice_get, IfOk, IfSome};
ghost use Rattle.hm_rules.specs.Replica.{Status, opened, others, held_len};
ghost use Rattle.hm_rules.specs.ReplicaSteps as steps;
ghost use Rattle.hm_rules.specs.Service.{replicas_below};
ghost use Rattle.hm_rules.specs.ViewChange as changes;
ghost use Rattle.hm_rules.specs.Viewstamped as rules;
ghost use Rattle.hm_rules.specs.Votes.{size, faults, primary_of, is_own_view, is_change};
ghost use Rattle.hm_replica.specs.Given.{Gives};
ghost use Rattle.hm_replica.specs.Steps.{step_of};
ghost use Rattle.hm_feed.specs.Answers.{answer};
ghost use Rattle.hm_feed.specs.Sending.{above};
ghost use Rattle.hm_store.specs.Log.{max_log_len};
ghost use Rattle.hm_vr.specs.Parts as parts;

use crate::numbers::first_members;
use hm_base::entry::{Act, Entry};
use hm_base::members::Members;
use hm_base::memory::NoMemory;
use hm_base::node::Node;
use hm_base::verdict::{Admit, Verdict};
use hm_base::why::Why;
use hm_codec::acted::Acted;
use hm_codec::outs::Outs;
use hm_feed::follower::{Took, stage, take};
use hm_feed::sender::Sender;
use hm_packet::acted::{Declared, Did};
use hm_packet::body::{
    Body, FastRead, Feed, FeedAck, Known, NormalRead, Page, Pull, Put, Refuse, StartViewChange,
    Vote,
};
use hm_packet::packet::Packet;
use hm_packet::route::Route;
use hm_replica::acts::{ignore, log_full, push, refuse, send_none, send_one};
use hm_replica::answers::{declare, push_last_done};
use hm_replica::law::{refused_packets_are_ignored, steps_give_their_parts};
use hm_replica::packets::{as_normal, done_packet, entry_of, packet_from, reply_packet};
use hm_replica::senders::{number, refusal};
use hm_shim::shim::{Local, Shim, reply_to};
use hm_store::staged::Staged;
use hm_viewchange::view_change::ViewChange;
use hm_viewchange::vr_core::{VrCore, VrStatus};
use std::alloc::Global;
use std::marker::Model;

/// A replica of Viewstamped Replication: its log and its view, with the list that is to replace the log, what the others
/// acknowledged, and what it keeps while its view is being changed. Contracts see the replica of the rules.
#[derive(Drop)]
pub struct Vr {
    core: VrCore,
    members: Members,
    sender: Sender,
    change: ViewChange,
}

impl Model for Vr {
    ghost use Rattle.hm_rules.specs.Replica.{Replica};

    ghost Value = { Replica };

    ghost use Rattle.hm_vr.specs.Standing.{vr_of, IsKept};

    ghost view = { vr_of };

    ghost invariant = { IsKept };
}

impl Vr {
    /// A replica before its first packet, in a group of `size` replicas, with room for `cap` entries. All memory is taken here.
    pub fn open(alloc: Global, me: u8, size: u8, cap: u32) -> Result<Vr, NoMemory>
        requires me { me < size }
        requires size { size ≤ 7 }
        requires odd { size % 2 ≡ 1 }
        requires bounded { cap ≤ max_log_len }
        ensures { IfOk result (λ v. v ≡ opened me (replicas_below size) cap) }
    {
        let core = VrCore {
            shim: Shim::open(alloc, cap)?,
            staged: Staged::open(alloc, cap)?,
            me,
            size,
            view: 0,
            normal: 0,
            start: 0,
            status: VrStatus::Normal,
        };
        Ok(Vr {
            core,
            members: first_members(size),
            sender: Sender::open(0, 0),
            change: ViewChange::open(cap),
        })
    }

    /// The log and the accepted switch.
    pub fn shim(&self) -> &Shim
        ensures { result.now ≡ record { entries = self.now.log; applied = self.now.known; cap = self.now.cap; accepted = self.now.accepted } }
    {
        &self.core.shim
    }

    /// The view.
    pub fn view(&self) -> u32
        ensures { result ≡ self.now.view }
    {
        self.core.view
    }

    /// What the replica makes of a packet, by the rules of Viewstamped Replication.
    pub fn step(&mut self, packet: &Packet, acted: &mut Acted)
        ensures { Gives self.new acted.new (rules.vr_step self.old packet.now) }
    {
        refused_packets_are_ignored();
        steps_give_their_parts();
        match refusal(self.core.me, takes(&packet.body), packet) {
            Some(why) => ignore(acted, why),
            None => self.row(number(packet.src), &packet.body, acted),
        }
    }

    /// The primary tells each other replica what is committed, or sends what it lacks, tells the switch its route, and completes
    /// its last applied write again; while a view is being changed, what was sent for it is sent again.
    pub fn tick(&mut self, acted: &mut Acted)
        ensures { Gives self.new acted.new (rules.vr_tick self.old) }
    {
        if self.leads() {
            send_none(acted);
            self.push_known_or_pages(&mut acted.outs);
            push(&mut acted.outs, &self.route());
            push_last_done(&mut acted.outs, self.core.me, &self.core.shim);
        } else {
            self.change.again(&self.core, acted);
        }
    }

    /// The replica hears nothing of its primary, and enters the next view. Status exactly at the greatest view.
    pub fn timeout(&mut self, acted: &mut Acted)
        ensures { Gives self.new acted.new (rules.vr_timeout self.old) }
    {
        steps_give_their_parts();
        self.time_out(acted);
    }

    /// What the replica makes of what a packet says, whose sender has this number.
    fn row(&mut self, from: u32, body: &Body, acted: &mut Acted)
        ensures { step_of self.new acted.new ≡ rules.vr_row self.old from body.now }
    {
        match body {
            Body::Put(put) => self.on_put(put, acted),
            Body::FastRead(read) => self.on_fast_read(read, acted),
            Body::NormalRead(read) => self.on_normal_read(read, acted),
            Body::Feed(feed) => self.on_feed(from, feed, acted),
            Body::FeedAck(ack) => self.on_feed_ack(from, ack, acted),
            Body::Known(told) => self.on_known(from, told, acted),
            Body::StartViewChange(start) => self.on_start(from, start, acted),
            Body::Vote(vote) => self.on_vote(from, vote, acted),
            Body::Pull(pull) => self.change.on_pull(&self.core, from, pull, acted),
            Body::Page(page) => self.on_page(from, page, acted),
            Body::Refuse(told) => self.on_refuse(told, acted),
            _ => ignore(acted, Why::Kind),
        }
    }

    // ---- reads and writes

    /// A numbered write, at the primary.
    fn on_put(&mut self, put: &Put, acted: &mut Acted)
        ensures { step_of self.new acted.new ≡ rules.vr_put self.old put.now }
    {
        if !self.leads() {
            return ignore(acted, Why::Status);
        }
        match self.core.shim.admit(put) {
            Admit::Drop(why) => ignore(acted, why),
            Admit::Again { index } => self.answer_again(index, acted),
            Admit::Take => self.append(entry_of(put), acted),
        }
    }

    /// Puts an entry behind the primary's log, and sends it to the others.
    fn append(&mut self, entry: Entry, acted: &mut Acted)
        requires { rules.leads self.old ≡ true }
        ensures { step_of self.new acted.new ≡ steps.appends rules.vr_grew self.old entry }
    {
        match self.core.shim.append(entry) {
            Ok(()) => {
                send_none(acted);
                self.grew(acted);
            }
            Err(_full) => log_full(acted),
        }
    }

    /// A write that the log has already is completed again where it is applied.
    fn answer_again(&self, index: u32, acted: &mut Acted)
        ensures { step_of self.now acted.new ≡ steps.answers_again steps.done_again self.now index (slice_get self.now.log index) }
    {
        match self.core.shim.log().entry(index) {
            Some(entry) if entry.is_write() && index < self.core.shim.log().applied_len() => {
                send_one(
                    acted,
                    &done_packet(self.core.me, self.core.shim.accepted(), &entry),
                );
            }
            _ => ignore(acted, Why::Repeat),
        }
    }

    /// A stamped read: answered where the read-behind test holds, else a normal read at the primary.
    fn on_fast_read(&mut self, read: &FastRead, acted: &mut Acted)
        ensures { step_of self.new acted.new ≡ rules.vr_fast_read self.old read.now }
    {
        match self.core.shim.read_behind(read) {
            Local::Answer(reply) => {
                send_one(acted, &reply_packet(self.core.me, read.client, reply));
            }
            Local::Pass => self.read_at_primary(&as_normal(read), acted),
        }
    }

    /// A normal read, here where this is the view's primary, else passed on to it.
    fn read_at_primary(&mut self, read: &NormalRead, acted: &mut Acted)
        ensures { step_of self.new acted.new ≡ parts.read_at_primary self.old read.now }
    {
        let primary = self.primary_of(self.core.view);
        if primary == self.core.me {
            return self.on_normal_read(read, acted);
        }
        send_one(
            acted,
            &packet_from(
                self.core.me,
                Node::Replica(primary),
                Body::NormalRead(*read),
            ),
        );
    }

    /// A read at the primary becomes an entry of the log.
    fn on_normal_read(&mut self, read: &NormalRead, acted: &mut Acted)
        ensures { step_of self.new acted.new ≡ rules.vr_normal_read self.old read.now }
    {
        if !self.leads() {
            return ignore(acted, Why::Status);
        }
        match self.core.shim.judge(read.client, read.request) {
            Verdict::Old => ignore(acted, Why::Repeat),
            Verdict::Again { index } => self.read_again(read, index, acted),
            Verdict::New => self.append(self.look_of(read), acted),
        }
    }

    /// The entry of a read, with the stamp of the entry before it.
    fn look_of(&self, read: &NormalRead) -> Entry
        ensures { result ≡ rules.look_of self.now read.now }
    {
        Entry {
            stamp: self.core.shim.log().last(),
            client: read.client,
            request: read.request,
            object: read.object,
            act: Act::Look,
        }
    }

    /// A read that the log has already is answered again once it is applied.
    fn read_again(&self, read: &NormalRead, index: u32, acted: &mut Acted)
        ensures { step_of self.now acted.new ≡ rules.read_again self.now read.now index (slice_get self.now.log index) }
    {
        match self.core.shim.log().entry(index) {
            Some(entry) if !entry.is_write() && index < self.core.shim.log().applied_len() => {
                let found = self.core.shim.log().applied(read.object);
                let reply = reply_to(read.request, found);
                send_one(acted, &reply_packet(self.core.me, read.client, reply));
            }
            _ => ignore(acted, Why::Repeat),
        }
    }

    // ---- pages

    /// A page, from the primary of its view.
    fn on_feed(&mut self, from: u32, feed: &Feed, acted: &mut Acted)
        ensures { step_of self.new acted.new ≡ rules.vr_feed self.old from feed.now }
    {
        if feed.view < self.core.view {
            return ignore(acted, Why::Epoch);
        }
        let primary = self.primary_of(feed.view);
        if primary == self.core.me || u32::from(primary) != from {
            return ignore(acted, Why::Foreign);
        }
        if feed.view > self.core.view || self.core.status == VrStatus::Change {
            self.take_fresh(primary, feed, acted);
        } else {
            self.take_in(primary, feed, acted);
        }
    }

    /// Takes in the first page of a view that isn't held yet: a list is staged from what is applied, and this replica is sure of
    /// nothing else. A page that leaves a gap or has no room changes nothing.
    fn take_fresh(&mut self, from: u8, feed: &Feed, acted: &mut Acted)
        requires sender { from ≤ 6 }
        requires backup { (primary_of self.old feed.now.view == self.old.me) ≡ false }
        ensures { step_of self.new acted.new ≡ rules.takes_feed self.old (rules.staging feed.now.view self.old) from feed.now }
    {
        let known = self.core.shim.log().applied_len();
        if feed.first > known {
            return ignore(acted, Why::Gap);
        }
        let end = u64::from(feed.first) + u64::from(feed.entries.len());
        if end > u64::from(self.core.shim.log().cap()) {
            return log_full(acted);
        }
        let _len = self.core.shim.log().len();
        self.core.staged.clear();
        self.core.view = feed.view;
        self.core.status = VrStatus::Staging;
        self.take_in(from, feed, acted);
    }

    /// Takes a page in and acknowledges it.
    fn take_in(&mut self, from: u8, feed: &Feed, acted: &mut Acted)
        requires sender { from ≤ 6 }
        requires backup { is_own_view self.old ≡ false }
        requires entered { is_change self.old.status ≡ false }
        ensures { step_of self.new acted.new ≡ rules.takes_feed self.old self.old from feed.now }
    {
        match self.take(feed) {
            Took::Gap => ignore(acted, Why::Gap),
            Took::LogFull => log_full(acted),
            Took::Grown(held) | Took::Staged(held) | Took::Same(held) | Took::Adopted(held) => {
                self.acknowledge(from, held, feed.commit, acted);
            }
        }
    }

    /// Takes a page in. The view begins here once the staged list has become the log.
    fn take(&mut self, feed: &Feed) -> Took
        requires backup { is_own_view self.old ≡ false }
        requires entered { is_change self.old.status ≡ false }
        ensures replica { self.new ≡ parts.with_page self.old (parts.page_taken self.old feed.now) }
        ensures took { result ≡ answer (parts.page_taken self.old feed.now) }
    {
        if self.core.status != VrStatus::Staging {
            return take(&mut self.core.shim, feed);
        }
        let took = stage(&mut self.core.staged, &mut self.core.shim, feed);
        if matches!(took, Took::Adopted(_)) {
            self.core.status = VrStatus::Normal;
            self.core.normal = self.core.view;
        }
        took
    }

    /// Applies what a page tells to be committed, in a view that has begun here, and acknowledges the list that is held.
    fn acknowledge(&mut self, from: u8, held: u32, commit: u32, acted: &mut Acted)
        requires sender { from ≤ 6 }
        requires held { held ≡ held_len self.old }
        ensures { step_of self.new acted.new ≡ parts.acknowledged self.old from commit }
    {
        if self.core.status == VrStatus::Normal {
            self.learn(commit);
        }
        let ack = FeedAck {
            view: self.core.view,
            len: held,
        };
        send_one(
            acted,
            &packet_from(self.core.me, Node::Replica(from), Body::FeedAck(ack)),
        );
    }

    /// Applies what is told to be committed, as far as the log goes.
    fn learn(&mut self, commit: u32)
        requires { self.old.status ≡ Status.Normal }
        ensures { self.new ≡ steps.learns commit self.old }
    {
        let known = self.core.shim.log().applied_len();
        let len = self.core.shim.log().len();
        self.core.shim.apply_to(known.max(commit.min(len)));
    }

    /// An acknowledgement, at the primary.
    fn on_feed_ack(&mut self, from: u32, ack: &FeedAck, acted: &mut Acted)
        ensures { step_of self.new acted.new ≡ rules.vr_feed_ack self.old from ack.now }
    {
        if ack.view != self.core.view {
            return ignore(acted, Why::Epoch);
        }
        if !self.leads() {
            return ignore(acted, Why::Status);
        }
        if from >= self.size() {
            return ignore(acted, Why::Foreign);
        }
        self.note(from as u8, ack.len, acted);
    }

    /// Notes what a backup acknowledged, declares what is committed by that, and sends it what it lacks.
    fn note(&mut self, other: u8, len: u32, acted: &mut Acted)
        requires primary { rules.leads self.old ≡ true }
        requires other { other ≤ 6 }
        ensures { step_of self.new acted.new ≡ parts.noted self.old other len }
    {
        if len > self.core.shim.log().len() {
            return ignore(acted, Why::Foreign);
        }
        if !self.sender.note(other, len) {
            return ignore(acted, Why::Repeat);
        }
        send_none(acted);
        self.commit(acted);
        if len < self.core.shim.log().len() {
            push(&mut acted.outs, &self.page_to(other));
        }
    }

    /// The primary tells how much is committed.
    fn on_known(&mut self, from: u32, told: &Known, acted: &mut Acted)
        ensures { step_of self.new acted.new ≡ rules.vr_known self.old from told.now }
    {
        if told.view != self.core.view {
            return ignore(acted, Why::Epoch);
        }
        if u32::from(self.primary_of(self.core.view)) != from {
            return ignore(acted, Why::Foreign);
        }
        if self.core.status != VrStatus::Normal {
            return ignore(acted, Why::Status);
        }
        if told.len > self.core.shim.log().len() {
            return ignore(acted, Why::Gap);
        }
        if told.len <= self.core.shim.log().applied_len() {
            return ignore(acted, Why::Repeat);
        }
        self.core.shim.apply_to(told.len);
        send_none(acted);
    }

    /// Nothing more is taken of a switch and of those before it.
    fn on_refuse(&mut self, told: &Refuse, acted: &mut Acted)
        ensures { step_of self.new acted.new ≡ steps.on_refuse self.old told.now }
    {
        if told.switch == u32::MAX {
            return ignore(acted, Why::Foreign);
        }
        refuse(acted, self.core.me, &mut self.core.shim, told.switch);
    }

    // ---- view changes

    /// A replica enters a view.
    fn on_start(&mut self, from: u32, start: &StartViewChange, acted: &mut Acted)
        ensures { step_of self.new acted.new ≡ rules.led (changes.on_start self.old from start.now) }
    {
        self.change.on_start(&mut self.core, from, start, acted);
        begin_anew(&self.core, acted.did, &mut self.sender);
        self.lead_if_begun(acted);
    }

    /// A vote for this replica as the primary of a view.
    fn on_vote(&mut self, from: u32, vote: &Vote, acted: &mut Acted)
        ensures { step_of self.new acted.new ≡ rules.led (changes.on_vote self.old from vote.now) }
    {
        self.change.on_vote(&mut self.core, from, vote, acted);
        begin_anew(&self.core, acted.did, &mut self.sender);
        self.lead_if_begun(acted);
    }

    /// A page of the log that this primary has chosen.
    fn on_page(&mut self, from: u32, page: &Page, acted: &mut Acted)
        ensures { step_of self.new acted.new ≡ rules.led (changes.on_page self.old from page.now) }
    {
        self.change.on_page(&mut self.core, from, page, acted);
        begin_anew(&self.core, acted.did, &mut self.sender);
        self.lead_if_begun(acted);
    }

    /// The next view is entered.
    fn time_out(&mut self, acted: &mut Acted)
        ensures { step_of self.new acted.new ≡ rules.vr_timeout self.old }
    {
        self.change.timeout(&mut self.core, acted);
        begin_anew(&self.core, acted.did, &mut self.sender);
        self.lead_if_begun(acted);
    }

    /// Where a step has begun the view: what is committed is declared, each other replica gets its page, and the switch the route.
    fn lead_if_begun(&mut self, acted: &mut Acted)
        requires { parts.Begins self.old acted.old }
        ensures { step_of self.new acted.new ≡ rules.led (step_of self.old acted.old) }
    {
        if acted.did == Did::Done && self.core.status == VrStatus::Normal {
            self.grew(acted);
            push(&mut acted.outs, &self.route());
        }
    }

    // ---- the primary

    /// After new entries at the primary: it declares what is committed, and sends each other replica its page.
    fn grew(&mut self, acted: &mut Acted)
        requires primary { rules.leads self.old ≡ true }
        requires few { length acted.old.outs ≤ 1 }
        ensures step { step_of self.new acted.new ≡ steps.sends_first acted.old.outs (rules.vr_grew self.old) }
        ensures few { length acted.new.outs ≤ length acted.old.outs + 22 }
    {
        self.commit(acted);
        self.push_pages(&mut acted.outs);
    }

    /// The primary declares what enough others hold, once that takes in the log with which the view began. The answers come
    /// behind the packets.
    fn commit(&mut self, acted: &mut Acted)
        requires primary { rules.leads self.old ≡ true }
        requires few { length acted.old.outs ≤ 1 }
        ensures step { step_of self.new acted.new ≡ steps.sends_first acted.old.outs (rules.vr_commits self.old) }
        ensures few { length acted.new.outs ≤ length acted.old.outs + steps.max_answered }
        ensures primary { rules.leads self.new ≡ true }
    {
        acted.did = Did::Done;
        acted.declared = Declared { from: 0, to: 0 };
        let known = self.core.shim.log().applied_len();
        match self.to_commit(known) {
            Some(to) if self.sender.start() <= to => {
                declare(acted, self.core.me, &mut self.core.shim, known, to);
            }
            _ => {}
        }
    }

    /// How much of the log as many others hold as a quorum wants beside this replica, all of it where it wants none, where that
    /// is more than is known.
    fn to_commit(&self, known: u32) -> Option<u32>
        requires { rules.leads self.now ≡ true }
        ensures value { result ≡ above known (steps.quorum_len self.now (faults self.now)) }
        ensures within { IfSome result (λ len. len ≤ length self.now.log) }
    {
        let faults = self.faults();
        if faults > 0 {
            return self
                .sender
                .held_above(&self.members, self.core.me, faults, known);
        }
        let len = self.core.shim.log().len();
        if known < len { Some(len) } else { None }
    }

    /// Puts the page to each other replica behind the packets.
    fn push_pages(&self, outs: &mut Outs)
        requires primary { rules.leads self.now ≡ true }
        requires few { length outs.old ≤ 17 }
        ensures value { outs.new ≡ outs.old ++ steps.pages self.now }
        ensures few { length outs.new ≤ length outs.old + 6 }
    {
        for member in self.members.as_slice() {
            if *member != self.core.me {
                push(outs, &self.page_to(*member));
            }
        }
    }

    /// Puts behind the packets, for each other replica, what is committed or else its page.
    fn push_known_or_pages(&self, outs: &mut Outs)
        requires primary { rules.leads self.now ≡ true }
        requires few { length outs.old ≤ 1 }
        ensures value { outs.new ≡ outs.old ++ map (steps.known_or_page self.now) (others self.now) }
        ensures few { length outs.new ≤ length outs.old + 6 }
    {
        for member in self.members.as_slice() {
            if *member != self.core.me {
                push(outs, &self.known_or_page(*member));
            }
        }
    }

    /// What is committed, to a replica that has acknowledged all of the log, else its page.
    fn known_or_page(&self, other: u8) -> Packet<'_>
        requires primary { rules.leads self.now ≡ true }
        requires other { other ≤ 6 }
        ensures { result ≡ steps.known_or_page self.now other }
    {
        if self.sender.acked(other) != self.core.shim.log().len() {
            return self.page_to(other);
        }
        let told = Known {
            view: self.core.view,
            len: self.core.shim.log().applied_len(),
        };
        packet_from(self.core.me, Node::Replica(other), Body::Known(told))
    }

    /// The page to a replica.
    fn page_to(&self, other: u8) -> Packet<'_>
        requires primary { rules.leads self.now ≡ true }
        requires other { other ≤ 6 }
        ensures { result ≡ steps.page_to self.now self.now.start self.now.known other }
    {
        let known = self.core.shim.log().applied_len();
        let feed = self.sender.page(self.core.shim.log(), known, other);
        packet_from(self.core.me, Node::Replica(other), Body::Feed(feed))
    }

    /// Where the switch is to send in this view, whose primary this is.
    fn route(&self) -> Packet<'static>
        ensures { result ≡ rules.route_of self.now }
    {
        let route = Route {
            view: self.core.view,
            entry: self.core.me,
            normal: self.core.me,
            members: self.members.copy(),
        };
        packet_from(
            self.core.me,
            Node::Switch(self.core.shim.accepted()),
            Body::Route(route),
        )
    }

    /// Whether this is the primary of a view that has begun.
    fn leads(&self) -> bool
        ensures { result ≡ rules.leads self.now }
    {
        self.primary_of(self.core.view) == self.core.me && self.core.status == VrStatus::Normal
    }

    /// The primary of a view.
    fn primary_of(&self, view: u32) -> u8
        ensures value { result ≡ primary_of self.now view }
        ensures within { result ≤ 6 }
    {
        (view % self.size()) as u8
    }

    /// How many replicas may stop.
    fn faults(&self) -> u8
        ensures { result ≡ faults self.now }
    {
        ((self.size() - 1) / 2) as u8
    }

    /// How many replicas there are.
    fn size(&self) -> u32
        ensures value { result ≡ size self.now }
        ensures some { 0 < result }
        ensures few { result ≤ 7 }
    {
        u32::from(self.core.size)
    }
}

/// Where a step of the view change has begun the view, nothing counts as acknowledged in it yet.
fn begin_anew(core: &VrCore, did: Did, sender: &mut Sender)
    ensures { sender.new ≡ parts.sender_after did core.now.status core.now.view core.now.start sender.old }
{
    if did == Did::Done && core.status == VrStatus::Normal {
        *sender = Sender::open(core.view, core.start);
    }
}

/// Whether Viewstamped Replication has a row for bodies of this kind.
fn takes(body: &Body) -> bool
    ensures { result ≡ rules.vr_takes body.now }
{
    matches!(
        body,
        Body::Put(_)
            | Body::FastRead(_)
            | Body::NormalRead(_)
            | Body::Feed(_)
            | Body::FeedAck(_)
            | Body::Known(_)
            | Body::StartViewChange(_)
            | Body::Vote(_)
            | Body::Pull(_)
            | Body::Page(_)
            | Body::Refuse(_)
    )
}
