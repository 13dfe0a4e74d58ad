ghost use Rattle.std.specs.Prelude.{◌≡◌, ℕ, All, IfSome, ◌<◌, ◌≤◌, ◌↔◌, IsTrue, if◌then◌else◌};
ghost use Rattle.hm_base.specs.Taking as taking;
ghost use Rattle.hm_feed.specs.Sending as sending;

use crate::quorum::held_above;
use hm_base::members::{MAX_REPLICAS, Members};
use hm_packet::body::Feed;
use hm_store::ledger::Ledger;
use std::marker::Model;

/// What a replica that sends its log keeps of those that follow: the view, how long the log was with which the view began,
/// and what each replica acknowledged in this view. Contracts see the record of its fields.
#[derive(Drop)]
pub struct Sender {
    view: u32,
    start: u32,
    acked: [u32; MAX_REPLICAS],
}

impl Model for Sender {
    ghost use Rattle.hm_feed.specs.Sending.{Sending};

    ghost Value = { Sending };

    ghost view = { λ s. record { view = s.view; start = s.start; acked = s.acked } };
}

impl Sender {
    /// A view in which nothing is acknowledged yet.
    pub fn open(view: u32, start: u32) -> Sender
        ensures { result ≡ sending.opening view start }
    {
        Sender {
            view,
            start,
            acked: [0; MAX_REPLICAS],
        }
    }

    /// The view.
    pub fn view(&self) -> u32
        ensures { result ≡ self.now.view }
    {
        self.view
    }

    /// How long the log was with which the view began.
    pub fn start(&self) -> u32
        ensures { result ≡ self.now.start }
    {
        self.start
    }

    /// A later view, in which this replica sends no pages: what it keeps of those that follow is as before.
    pub fn enter(&mut self, view: u32)
        ensures { self.new ≡ record self.old { view = view } }
    {
        self.view = view;
    }

    /// The page of the log for a replica: what it hasn't acknowledged yet, at most a page.
    pub fn page<'a>(&self, log: &'a Ledger, commit: u32, to: u8) -> Feed<'a>
        requires { to ≤ 6 }
        ensures { result ≡ sending.page_to self.now log.now.entries commit to }
    {
        let first = self.acked(to);
        Feed {
            view: self.view,
            start: self.start,
            first,
            commit,
            entries: log.page(first),
        }
    }

    /// Notes that a replica acknowledged a length. True and taken exactly where that is above what it had acknowledged.
    pub fn note(&mut self, from: u8, len: u32) -> bool
        requires { from ≤ 6 }
        ensures rises { IsTrue result ↔ (sending.acked_by self.old from < len) }
        ensures acked { self.new ≡ (if result then sending.with_acked self.old from len else self.old) }
    {
        if len <= self.acked(from) {
            return false;
        }
        self.acked[from as usize] = len;
        true
    }

    /// How long a list a replica acknowledged.
    pub fn acked(&self, to: u8) -> u32
        requires { to ≤ 6 }
        ensures { result ≡ sending.acked_by self.now to }
    {
        self.acked[to as usize]
    }

    /// The greatest length that at least `k` members other than `me` acknowledged, where it is above a floor.
    pub fn held_above(&self, members: &Members, me: u8, k: u8, floor: u32) -> Option<u32>
        ensures value { result ≡ sending.above floor (taking.held_by k (sending.others_acked self.now me members.now)) }
        ensures within { (most : ℕ) → All (λ n. n ≤ most) self.now.acked → IfSome result (λ len. len ≤ most) }
    {
        held_above(self, members, me, k, floor)
    }
}
