ghost use Rattle.std.specs.Prelude.{◌≡◌, ◌<◌, ◌≤◌, ◌+◌, ◌++◌, ◌&&◌, false, not, nat_lt, nat_le, length, drop, count_by, slice_get, slice_set, is_some, IfSome, Some, List, ℕ};
ghost use Rattle.hm_packet.specs.Steps.{max_outs};
ghost use Rattle.hm_replica.specs.Steps.{step_of, sends_act};
ghost use Rattle.hm_rules.specs.Replica.{Status};
ghost use Rattle.hm_rules.specs.ReplicaSteps as steps;
ghost use Rattle.hm_rules.specs.ViewChange as rules;
ghost use Rattle.hm_rules.specs.Votes as votes;
ghost use Rattle.hm_viewchange.specs.Ballots.{ballot_of, ballot_in};
ghost use Rattle.hm_viewchange.specs.Changing.{idle};
ghost use Rattle.hm_viewchange.specs.Parts as parts;
ghost use Rattle.hm_viewchange.specs.Parts.{bare, stands};
ghost use Rattle.hm_viewchange.specs.Standing.{replica_of, staged_list, status_of, IsStep, StagedFits, Fits, Stays, Leaves};

use crate::group::{faults, group_size, primary_of};
use crate::packets::{own_vote, page_packet, pull_packet, push_starts, vote_packet};
use crate::votes::{Ballot, best, count_heard, count_votes, greatest_commit};
use crate::vr_core::{VrCore, VrStatus};
use hm_base::entry::Entry;
use hm_base::members::MAX_REPLICAS;
use hm_base::why::Why;
use hm_codec::acted::Acted;
use hm_codec::outs::Outs;
use hm_packet::body::{Page, Pull, StartViewChange, Vote};
use hm_replica::acts::{ignore, push, send_none, send_one};
use std::marker::Model;

/// What a replica keeps while its view is being changed: who was heard to enter the view, who voted in it, and whose log is pulled.
/// Contracts see the record of its fields.
#[derive(Drop)]
pub struct ViewChange {
    heard: [bool; MAX_REPLICAS],
    votes: [Option<Vote>; MAX_REPLICAS],
    choice: Option<u8>,
    cap: u32,
}

impl Model for ViewChange {
    ghost use Rattle.hm_viewchange.specs.Changing.{Changing};

    ghost Value = { Changing };

    ghost use Rattle.hm_viewchange.specs.Kept.{changing_of, IsKept};

    ghost view = { changing_of };

    ghost invariant = { IsKept };
}

impl ViewChange {
    /// Nobody heard, and no votes, in a group whose logs have at most `cap` entries.
    pub fn open(cap: u32) -> ViewChange
        ensures { result ≡ idle cap }
    {
        ViewChange {
            heard: [false; MAX_REPLICAS],
            votes: [None; MAX_REPLICAS],
            choice: None,
            cap,
        }
    }

    /// The replica hears nothing of its primary, and enters the next view. Status exactly at the greatest view.
    pub fn timeout(&mut self, core: &mut VrCore, acted: &mut Acted)
        requires { Fits core.old self.old }
        ensures step { IsStep core.old self.old core.new self.new acted.new rules.on_timeout }
        ensures leaves { Leaves core.old self.old core.new self.new acted.new }
    {
        if core.view == u32::MAX {
            return ignore(acted, Why::Status);
        }
        send_none(acted);
        let next = core.view + 1;
        self.enter(core, next, &mut acted.outs);
    }

    /// A replica of this number enters a view: a later view is entered here too, and after f others were heard a replica votes.
    pub fn on_start(
        &mut self,
        core: &mut VrCore,
        from: u32,
        start: &StartViewChange,
        acted: &mut Acted,
    )
        requires { Fits core.old self.old }
        ensures step { IsStep core.old self.old core.new self.new acted.new (λ r. rules.on_start r from start.now) }
        ensures leaves { Leaves core.old self.old core.new self.new acted.new }
    {
        if start.view < core.view {
            return ignore(acted, Why::Epoch);
        }
        if from >= u32::from(group_size(core)) {
            return ignore(acted, Why::Foreign);
        }
        let from = from as u8;
        match stale(core, start.view, self.was_heard(from)) {
            Some(why) => ignore(acted, why),
            None => self.note_start(core, from, start.view, acted),
        }
    }

    /// A vote of the replica of this number, for this one as the primary of a view: with f + 1 votes it takes the log with the greatest
    /// last normal view and, among those, the greatest length.
    pub fn on_vote(&mut self, core: &mut VrCore, from: u32, vote: &Vote, acted: &mut Acted)
        requires { Fits core.old self.old }
        ensures step { IsStep core.old self.old core.new self.new acted.new (λ r. rules.on_vote r from vote.now) }
        ensures leaves { Leaves core.old self.old core.new self.new acted.new }
    {
        if vote.view < core.view {
            return ignore(acted, Why::Epoch);
        }
        if is_unlawful(core, from, vote) {
            return ignore(acted, Why::Foreign);
        }
        let from = from as u8;
        match stale(core, vote.view, self.vote_of(from).is_some()) {
            Some(why) => ignore(acted, why),
            None => self.note_vote(core, from, vote, acted),
        }
    }

    /// The primary of a view, which has this number, asks for the log. Nothing changes.
    pub fn on_pull(&self, core: &VrCore, from: u32, pull: &Pull, acted: &mut Acted)
        requires { Fits core.now self.now }
        ensures { (acked : List ℕ) → step_of (replica_of acked core.now self.now) acted.new ≡ rules.on_pull (replica_of acked core.now self.now) from pull.now }
    {
        send_page(core, from, pull, acted)
    }

    /// A page of the chosen log, from the replica of this number. The view begins once the whole log is there, else the next page is
    /// pulled.
    pub fn on_page(&mut self, core: &mut VrCore, from: u32, page: &Page, acted: &mut Acted)
        requires { Fits core.old self.old }
        ensures step { IsStep core.old self.old core.new self.new acted.new (λ r. rules.on_page r from page.now) }
        ensures leaves { Leaves core.old self.old core.new self.new acted.new }
    {
        if page.view < core.view {
            return ignore(acted, Why::Epoch);
        }
        if page.view > core.view || core.status != VrStatus::Pulling {
            return ignore(acted, Why::Status);
        }
        match self.chosen() {
            Some(chosen) => self.take_page(core, from, page, &chosen, acted),
            None => ignore(acted, Why::Status),
        }
    }

    /// What was sent for a view that hasn't begun is sent again; nothing where the status is Normal or Staging.
    pub fn again(&self, core: &VrCore, acted: &mut Acted)
        requires { Fits core.now self.now }
        ensures { (acked : List ℕ) → acted.new ≡ sends_act (rules.again (replica_of acked core.now self.now) (status_of core.now.status)) }
    {
        send_none(acted);
        match core.status {
            VrStatus::Change => self.push_change_again(core, &mut acted.outs),
            VrStatus::Pulling => self.push_pull_again(core, &mut acted.outs),
            _ => {}
        }
    }

    /// Enters a view, of which nobody else was heard yet, and tells each other replica.
    fn enter(&mut self, core: &mut VrCore, view: u32, outs: &mut Outs)
        requires fits { Fits core.old self.old }
        requires room { length outs.old ≤ 8 }
        ensures sent { steps.sends (stands core.new self.new) outs.new ≡ steps.sends_first outs.old (rules.enters view (stands core.old self.old)) }
        ensures stays { Stays core.old core.new self.new }
        ensures few { length outs.new ≤ length outs.old + 8 }
    {
        core.view = view;
        core.status = VrStatus::Change;
        self.heard = [false; MAX_REPLICAS];
        self.votes = [None; MAX_REPLICAS];
        self.choice = None;
        push_starts(core, outs);
        self.check(core, outs);
    }

    /// Enters a view that is later than the own one.
    fn enter_later(&mut self, core: &mut VrCore, view: u32, outs: &mut Outs)
        requires fits { Fits core.old self.old }
        requires room { length outs.old ≤ 8 }
        ensures sent { steps.sends (stands core.new self.new) outs.new ≡ steps.sends_first outs.old (parts.enters_later view (stands core.old self.old)) }
        ensures stays { Stays core.old core.new self.new }
        ensures few { length outs.new ≤ length outs.old + 8 }
    {
        if core.view < view {
            self.enter(core, view, outs);
        }
    }

    /// Notes that a replica enters a view, and checks what follows.
    fn note_start(&mut self, core: &mut VrCore, from: u8, view: u32, acted: &mut Acted)
        requires fits { Fits core.old self.old }
        requires from { from ≤ 6 }
        ensures step { step_of (stands core.new self.new) acted.new ≡ parts.noted view (votes.with_heard from) (stands core.old self.old) }
        ensures stays { Stays core.old core.new self.new }
    {
        send_none(acted);
        self.enter_later(core, view, &mut acted.outs);
        self.heard[from as usize] = true;
        self.check(core, &mut acted.outs);
    }

    /// Notes a replica's vote in a view, and checks what follows.
    fn note_vote(&mut self, core: &mut VrCore, from: u8, vote: &Vote, acted: &mut Acted)
        requires fits { Fits core.old self.old }
        requires from { from ≤ 6 }
        requires room { vote.now.len ≤ core.old.shim.cap }
        ensures step { step_of (stands core.new self.new) acted.new ≡ parts.noted vote.now.view (votes.with_vote from vote.now) (stands core.old self.old) }
        ensures stays { Stays core.old core.new self.new }
    {
        send_none(acted);
        self.enter_later(core, vote.view, &mut acted.outs);
        self.put_vote(from, *vote);
        self.check(core, &mut acted.outs);
    }

    /// The view's primary votes for itself once f others were heard, and takes the best log with f + 1 votes; another replica sends
    /// its vote at the first check at which f others were heard, which is the one with just f.
    fn check(&mut self, core: &mut VrCore, outs: &mut Outs)
        requires fits { Fits core.old self.old }
        requires room { length outs.old < max_outs }
        ensures sent { steps.sends (stands core.new self.new) outs.new ≡ steps.sends_first outs.old (rules.checks (stands core.old self.old)) }
        ensures stays { Stays core.old core.new self.new }
        ensures few { length outs.new ≤ length outs.old + 1 }
    {
        if primary_of(core, core.view) == core.me {
            self.add_own_vote(core);
            self.tally(core, outs);
        } else if count_heard(&self.heard) == faults(core) {
            push(outs, &vote_packet(core));
        }
    }

    /// The own vote is there as soon as f others were heard.
    fn add_own_vote(&mut self, core: &VrCore)
        requires fits { Fits core.now self.old }
        ensures vote { stands core.now self.new ≡ rules.with_own_vote (stands core.now self.old) }
        ensures fits { Fits core.now self.new }
    {
        if self.owes_own_vote(core) {
            self.put_vote(core.me, own_vote(core));
        }
    }

    /// Whether f others were heard and the own vote isn't there yet.
    fn owes_own_vote(&self, core: &VrCore) -> bool
        requires fits { Fits core.now self.now }
        ensures { result ≡ (nat_le (votes.faults (bare core.now)) (count_by (λ h. h) self.now.heard) && not (is_some (votes.or_none (slice_get self.now.votes core.now.me)))) }
    {
        count_heard(&self.heard) >= faults(core) && self.vote_of(core.me).is_none()
    }

    /// Whether the own vote and more than f votes in all are there.
    fn has_quorum(&self, core: &VrCore) -> bool
        requires fits { Fits core.now self.now }
        ensures { result ≡ (is_some (votes.or_none (slice_get self.now.votes core.now.me)) && nat_lt (votes.faults (bare core.now)) (length (votes.ballots_from 0 self.now.votes))) }
    {
        self.vote_of(core.me).is_some() && count_votes(&self.votes) > faults(core)
    }

    /// The vote of a replica, if it voted.
    fn vote_of(&self, voter: u8) -> Option<Vote>
        requires { voter ≤ 6 }
        ensures value { result ≡ votes.or_none (slice_get self.now.votes voter) }
        ensures room { IfSome result (λ vote. vote.len ≤ self.now.cap) }
    {
        self.votes[voter as usize]
    }

    /// Notes a replica's vote.
    fn put_vote(&mut self, voter: u8, vote: Vote)
        requires voter { voter ≤ 6 }
        requires room { vote.len ≤ self.old.cap }
        ensures { self.new ≡ record self.old { votes = slice_set self.old.votes voter (Some vote) } }
    {
        self.votes[voter as usize] = Some(vote);
    }

    /// Whether a replica was heard to enter the view.
    fn was_heard(&self, from: u8) -> bool
        requires { from ≤ 6 }
        ensures { result ≡ votes.is_heard (slice_get self.now.heard from) }
    {
        self.heard[from as usize]
    }

    /// With the own vote and f + 1 votes in all the best log is taken.
    fn tally(&mut self, core: &mut VrCore, outs: &mut Outs)
        requires fits { Fits core.old self.old }
        requires room { length outs.old < max_outs }
        ensures sent { steps.sends (stands core.new self.new) outs.new ≡ steps.sends_first outs.old (rules.tallies (stands core.old self.old)) }
        ensures stays { Stays core.old core.new self.new }
        ensures few { length outs.new ≤ length outs.old + 1 }
    {
        if self.has_quorum(core) {
            self.choose(core, outs);
        }
    }

    /// Takes the best log: the own one, with which the view begins, or another's.
    fn choose(&mut self, core: &mut VrCore, outs: &mut Outs)
        requires fits { Fits core.old self.old }
        requires room { length outs.old < max_outs }
        ensures sent { steps.sends (stands core.new self.new) outs.new ≡ steps.sends_first outs.old (rules.chooses (stands core.old self.old) (votes.best (votes.ballots (stands core.old self.old)))) }
        ensures stays { Stays core.old core.new self.new }
        ensures few { length outs.new ≤ length outs.old + 1 }
    {
        match best(&self.votes) {
            Some(chosen) if chosen.voter == core.me => self.begin(core),
            Some(chosen) => self.fetch(core, &chosen, outs),
            None => {}
        }
    }

    /// Stages the chosen log behind what is applied, and pulls it unless that is all of it.
    fn fetch(&mut self, core: &mut VrCore, chosen: &Ballot, outs: &mut Outs)
        requires fits { Fits core.old self.old }
        requires chosen { chosen.now.voter ≤ 6 }
        requires room { length outs.old < max_outs }
        ensures sent { steps.sends (stands core.new self.new) outs.new ≡ steps.sends_first outs.old (rules.fetches chosen.now.voter chosen.now.vote (stands core.old self.old)) }
        ensures stays { Stays core.old core.new self.new }
        ensures few { length outs.new ≤ length outs.old + 1 }
    {
        let known = core.shim.log().applied_len();
        let _len = core.shim.log().len();
        core.staged.clear();
        if known == chosen.vote.len {
            return self.adopt(core);
        }
        core.status = VrStatus::Pulling;
        self.choice = Some(chosen.voter);
        push(outs, &pull_packet(core, chosen.voter, known));
    }

    /// The staged list becomes the log, with its client table, and the view begins with it.
    fn adopt(&mut self, core: &mut VrCore)
        requires fits { Fits core.old self.old }
        requires room { StagedFits core.old }
        ensures begun { stands core.new self.new ≡ rules.begun_with (staged_list core.old) (stands core.old self.old) }
        ensures stays { Stays core.old core.new self.new }
    {
        core.shim.adopt(core.staged.as_slice());
        self.begin(core);
    }

    /// The view begins with the log as it is, of which as much is applied as any vote knew to be committed.
    fn begin(&mut self, core: &mut VrCore)
        requires fits { Fits (record core.old { status = VrStatus.Normal }) self.old }
        ensures begun { stands core.new self.new ≡ rules.begun (stands core.old self.old) }
        ensures stays { Stays core.old core.new self.new }
    {
        let known = core.shim.log().applied_len();
        let len = core.shim.log().len();
        core.shim
            .apply_to(known.max(greatest_commit(&self.votes).min(len)));
        core.status = VrStatus::Normal;
        core.normal = core.view;
        core.start = len;
        self.choice = None;
    }

    /// The vote of the replica whose log is pulled, if there is one.
    fn chosen(&self) -> Option<Ballot>
        ensures value { ballot_in result ≡ parts.chosen_of self.now.choice self.now.votes }
        ensures room { IfSome result (λ b. b.vote.len ≤ self.now.cap) }
        ensures voter { IfSome result (λ b. b.voter ≤ 6) }
    {
        let voter = self.choice?;
        match self.vote_of(voter) {
            Some(vote) => Some(Ballot { voter, vote }),
            None => None,
        }
    }

    /// Takes a page of the chosen log into the staged list, where it is the next one.
    fn take_page(
        &mut self,
        core: &mut VrCore,
        from: u32,
        page: &Page,
        chosen: &Ballot,
        acted: &mut Acted,
    )
        requires fits { Fits core.old self.old }
        requires pulling { core.old.status ≡ VrStatus.Pulling }
        requires voter { chosen.now.voter ≤ 6 }
        requires room { chosen.now.vote.len ≤ self.old.cap }
        ensures step { step_of (stands core.new self.new) acted.new ≡ rules.takes_page (stands core.old self.old) from page.now (staged_list core.old) (Some (ballot_of chosen.now)) }
        ensures leaves { Leaves core.old self.old core.new self.new acted.new }
    {
        let end = u64::from(page.first) + u64::from(page.entries.len());
        let held = held(core);
        if u32::from(chosen.voter) != from || end > u64::from(chosen.vote.len) {
            return ignore(acted, Why::Foreign);
        }
        if page.first > held {
            return ignore(acted, Why::Gap);
        }
        if end <= u64::from(held) {
            return ignore(acted, Why::Repeat);
        }
        send_none(acted);
        core.staged.extend(new_of(page, held - page.first));
        self.pull_on(core, chosen, &mut acted.outs);
    }

    /// Begins the view with the staged list where that is as long as the chosen vote says, else pulls what is missing.
    fn pull_on(&mut self, core: &mut VrCore, chosen: &Ballot, outs: &mut Outs)
        requires fits { Fits core.old self.old }
        requires pulling { core.old.status ≡ VrStatus.Pulling }
        requires voter { chosen.now.voter ≤ 6 }
        requires room { length outs.old < max_outs }
        ensures sent { steps.sends (stands core.new self.new) outs.new ≡ steps.sends_first outs.old (rules.pulled (stands core.old self.old) chosen.now.voter chosen.now.vote.len (staged_list core.old)) }
        ensures stays { Stays core.old core.new self.new }
        ensures few { length outs.new ≤ length outs.old + 1 }
    {
        let held = held(core);
        if held == chosen.vote.len {
            return self.adopt(core);
        }
        push(outs, &pull_packet(core, chosen.voter, held));
    }

    /// Puts behind the packets that the view is entered, and the vote where it was sent before.
    fn push_change_again(&self, core: &VrCore, outs: &mut Outs)
        requires fits { Fits core.now self.now }
        requires room { length outs.old ≤ 8 }
        ensures { outs.new ≡ outs.old ++ rules.again (stands core.now self.now) Status.Change }
    {
        push_starts(core, outs);
        let own = primary_of(core, core.view) == core.me;
        if count_heard(&self.heard) >= faults(core) && !own {
            push(outs, &vote_packet(core));
        }
    }

    /// Puts behind the packets what is pulled, if anything is.
    fn push_pull_again(&self, core: &VrCore, outs: &mut Outs)
        requires fits { Fits core.now self.now }
        requires pulling { core.now.status ≡ VrStatus.Pulling }
        requires room { length outs.old ≤ 8 }
        ensures { outs.new ≡ outs.old ++ rules.again (stands core.now self.now) Status.Pulling }
    {
        if let Some(chosen) = self.choice {
            push(outs, &pull_packet(core, chosen, held(core)));
        }
    }
}

/// Why no notice is taken of news of a view that isn't earlier than the own one: the view isn't being entered, or the news isn't new.
fn stale(core: &VrCore, view: u32, known: bool) -> Option<Why>
    ensures { result ≡ parts.stale view known (bare core.now) }
{
    if view > core.view {
        None
    } else if core.status != VrStatus::Change {
        Some(Why::Status)
    } else if known {
        Some(Why::Repeat)
    } else {
        None
    }
}

/// Whether a vote isn't for this replica, not of a member, or of lengths that can't be.
fn is_unlawful(core: &VrCore, from: u32, vote: &Vote) -> bool
    requires me { core.now.me < core.now.size }
    ensures value { result ≡ rules.is_unlawful (bare core.now) from vote.now }
    ensures from { result ≡ false → from < core.now.size }
    ensures room { result ≡ false → vote.now.len ≤ core.now.shim.cap }
{
    primary_of(core, vote.view) != core.me
        || from >= u32::from(group_size(core))
        || vote.commit > vote.len
        || vote.len > core.shim.log().cap()
}

/// Answers the primary of a view with the page of the log that it asks for.
fn send_page(core: &VrCore, from: u32, pull: &Pull, acted: &mut Acted)
    requires me { core.now.me < core.now.size }
    requires size { core.now.size ≤ 7 }
    ensures { acted.new ≡ parts.answers_pull from pull.now (bare core.now) }
{
    if pull.view < core.view {
        return ignore(acted, Why::Epoch);
    }
    let primary = primary_of(core, pull.view);
    if u32::from(primary) != from {
        return ignore(acted, Why::Foreign);
    }
    if pull.view > core.view || core.status != VrStatus::Change {
        return ignore(acted, Why::Status);
    }
    if pull.first > core.shim.log().len() {
        return ignore(acted, Why::Gap);
    }
    send_one(acted, &page_packet(core, primary, pull.first));
}

/// How much of the chosen log is there.
fn held(core: &VrCore) -> u32
    requires { StagedFits core.now }
    ensures len { result ≡ length (staged_list core.now) }
    ensures sum { result ≡ core.now.shim.applied + length core.now.staged.entries }
{
    core.shim.staged_len(&core.staged)
}

/// The entries of a page from a place on.
fn new_of<'a>(page: &Page<'a>, from: u32) -> &'a [Entry]
    ensures { result.now ≡ drop from page.now.entries }
{
    let all = page.entries.as_slice();
    &all[all.len().min(from as usize)..]
}
