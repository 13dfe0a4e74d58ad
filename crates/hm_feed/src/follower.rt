ghost use Rattle.std.specs.Prelude.{◌≡◌, ◌<◌, ◌≤◌, ◌+◌, ◌-◌, [], ◌∷◌, ◌++◌, length, take, drop, is_some, None, Some, IfOk, IfSome};
ghost use Rattle.hm_feed.specs.Answers as answers;
ghost use Rattle.hm_feed.specs.Answers.{staged_on};
ghost use Rattle.hm_shim.specs.State.{applied_entries};
ghost use Rattle.hm_store.specs.Log.{max_log_len};

use hm_base::entries::Entries;
use hm_base::entry::Entry;
use hm_base::memory::NoMemory;
use hm_packet::body::Feed;
use hm_shim::shim::Shim;
use hm_store::staged::Staged;
use std::alloc::Global;
use std::marker::Model;

/// What a follower made of a page, with the length that it holds afterwards.
#[derive(Clone, Copy, Debug, PartialEq, Eq)]
pub enum Took {
    /// The log has new entries.
    Grown(u32),
    /// The staged list became the log.
    Adopted(u32),
    /// The page was taken into the staged list.
    Staged(u32),
    /// Nothing in it was new.
    Same(u32),
    /// What stands before the page is missing.
    Gap,
    /// The page reaches past the log's bound.
    LogFull,
}

/// Takes pages of another's log. While it stages, what is new in them goes into a list that is to stand behind the applied prefix:
/// both become the log once they reach the start of the view. All memory is taken at opening. Contracts see what is staged behind
/// the applied prefix, if it stages, and how many entries that may be.
#[derive(Drop)]
pub struct Follower {
    list: Staged,
    staging: bool,
}

impl Model for Follower {
    ghost use Rattle.hm_feed.specs.Answers.{Following, staged_list};

    ghost Value = { Following };

    ghost view = { λ f. record { behind = staged_list f.staging f.list.entries; cap = f.list.cap } };
}

impl Follower {
    ghost use Rattle.hm_feed.specs.Answers.{HasRoom, staged_on};

    /// A follower that doesn't stage, with room for `cap` entries.
    pub fn open(alloc: Global, cap: u32) -> Result<Follower, NoMemory>
        requires { cap ≤ max_log_len }
        ensures { IfOk result (λ f. f ≡ record { behind = None; cap = cap }) }
    {
        Ok(Follower {
            list: Staged::open(alloc, cap)?,
            staging: false,
        })
    }

    /// Begins to stage, with the applied prefix alone.
    pub fn begin(&mut self)
        ensures { self.new ≡ record self.old { behind = Some [] } }
    {
        self.list.clear();
        self.staging = true;
    }

    /// Stages no more.
    pub fn end(&mut self)
        ensures { self.new ≡ record self.old { behind = None } }
    {
        self.staging = false;
    }

    /// Whether it stages.
    pub fn staging(&self) -> bool
        ensures { result ≡ is_some self.now.behind }
    {
        self.staging
    }

    /// Takes a page: its entries past the end come behind the staged list, or else behind the log. Gap where the page begins
    /// behind the end, then LogFull where it reaches past the log's bound; both change nothing.
    pub fn take(&mut self, shim: &mut Shim, feed: &Feed) -> Took
        requires caps { self.old.cap ≡ shim.old.cap }
        requires room { HasRoom shim.old self.old.behind }
        ensures log { shim.new ≡ record shim.old { entries = (answers.taken shim.old (staged_on shim.old self.old.behind) feed.now).log } }
        ensures staged { staged_on shim.new self.new.behind ≡ (answers.taken shim.old (staged_on shim.old self.old.behind) feed.now).staged }
        ensures room { HasRoom shim.new self.new.behind }
        ensures cap { self.new.cap ≡ self.old.cap }
        ensures took { result ≡ answers.answer (answers.taken shim.old (staged_on shim.old self.old.behind) feed.now) }
    {
        if !self.staging {
            return take(shim, feed);
        }
        let took = stage(&mut self.list, shim, feed);
        self.staging = !matches!(took, Took::Adopted(_));
        took
    }
}

/// Takes a page where nothing is staged.
pub fn take(shim: &mut Shim, feed: &Feed) -> Took
    ensures log { shim.new ≡ record shim.old { entries = (answers.taken shim.old None feed.now).log } }
    ensures took { result ≡ answers.answer (answers.taken shim.old None feed.now) }
{
    let held = shim.log().len();
    match new_from(feed, held, shim.log().cap()) {
        Err(refusal) => refusal,
        Ok(from) => {
            extend(shim, new_of(&feed.entries, from));
            grown(held, shim.log().len())
        }
    }
}

/// Takes a page where a list is staged behind the applied prefix: its entries past the end come behind the list, and both become
/// the log once they reach the start of the view. Gap and LogFull as where a follower takes it; both change nothing.
pub fn stage(staged: &mut Staged, shim: &mut Shim, feed: &Feed) -> Took
    requires caps { staged.old.cap ≡ shim.old.cap }
    requires room { shim.old.applied + length staged.old.entries ≤ shim.old.cap }
    ensures log { shim.new ≡ record shim.old { entries = (answers.taken shim.old (Some (applied_entries shim.old ++ staged.old.entries)) feed.now).log } }
    ensures staged { staged_on shim.new (answers.staged_list (answers.stages_on result) staged.new.entries) ≡ (answers.taken shim.old (Some (applied_entries shim.old ++ staged.old.entries)) feed.now).staged }
    ensures room { shim.new.applied + length staged.new.entries ≤ shim.new.cap }
    ensures cap { staged.new.cap ≡ staged.old.cap }
    ensures took { result ≡ answers.answer (answers.taken shim.old (Some (applied_entries shim.old ++ staged.old.entries)) feed.now) }
{
    let held = shim.staged_len(staged);
    match new_from(feed, held, shim.log().cap()) {
        Err(refusal) => refusal,
        Ok(from) => {
            staged.extend(new_of(&feed.entries, from));
            adopt_from(feed.start, staged, shim)
        }
    }
}

/// A staged list that has reached the start of the view becomes the log.
fn adopt_from(start: u32, staged: &Staged, shim: &mut Shim) -> Took
    requires { shim.old.applied + length staged.now.entries ≤ shim.old.cap }
    ensures log { shim.new ≡ record shim.old { entries = (answers.staged_from shim.old (applied_entries shim.old ++ staged.now.entries) start).log } }
    ensures staged { staged_on shim.new (answers.staged_list (answers.stages_on result) staged.now.entries) ≡ (answers.staged_from shim.old (applied_entries shim.old ++ staged.now.entries) start).staged }
    ensures took { result ≡ answers.answer (answers.staged_from shim.old (applied_entries shim.old ++ staged.now.entries) start) }
{
    let len = shim.staged_len(staged);
    if len < start {
        return Took::Staged(len);
    }
    shim.adopt(staged.as_slice());
    Took::Adopted(len)
}

/// The place in a page from which on it is new to one who holds so many entries, or why it isn't taken.
fn new_from(feed: &Feed, held: u32, cap: u32) -> Result<u32, Took>
    requires { held ≤ cap }
    ensures value { result ≡ answers.new_from cap held feed.now.first (length feed.now.entries) }
    ensures room { IfOk result (λ from. held + (length feed.now.entries - from) ≤ cap) }
{
    if feed.first > held {
        return Err(Took::Gap);
    }
    let end = u64::from(feed.first) + u64::from(feed.entries.len());
    if end > u64::from(cap) {
        return Err(Took::LogFull);
    }
    Ok(held - feed.first)
}

/// What is told of a log that had one length and has another.
fn grown(before: u32, len: u32) -> Took
    ensures { result ≡ answers.grown before len }
{
    if len == before {
        Took::Same(len)
    } else {
        Took::Grown(len)
    }
}

/// The entries of a page from a place on.
#[inline]
fn new_of<'a>(entries: &Entries<'a>, from: u32) -> &'a [Entry]
    ensures { result.now ≡ drop from entries.now }
{
    let all = entries.as_slice();
    &all[all.len().min(from as usize)..]
}

/// Puts entries behind the log, which has room for them.
fn extend(shim: &mut Shim, entries: &[Entry])
    requires { length shim.old.entries + length entries.now ≤ shim.old.cap }
    ensures { shim.new ≡ record shim.old { entries = shim.old.entries ++ entries.now } }
{
    for entry in entries {
        let _ = shim.append(*entry);
    }
}
