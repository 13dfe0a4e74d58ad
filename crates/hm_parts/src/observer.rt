ghost use Rattle.std.specs.Prelude.{◌≡◌, ◌≤◌, ◌<◌, ◌+◌, ◌++◌, ◌∷◌, [], length, take, map, vec_len, vec_capacity, IfOk, OnOk, OnErr};
ghost use Rattle.hm_base.specs.Logs.{writes};
ghost use Rattle.hm_store.specs.Log.{max_log_len};
ghost use Rattle.hm_order.specs.Marks.{commit_of};
ghost use Rattle.hm_rules.specs.Declared.{declared_after, commits_since};

use hm_base::entry::Entry;
use hm_base::memory::NoMemory;
use hm_base::operation::OpId;
use hm_order::history::History;
use hm_order::mark::Mark;
use hm_store::ledger::Ledger;
use std::alloc::Global;
use std::marker::Model;

/// What an observer of all nodes writes down: the declared list, and the history of the clients' operations. Contracts see both,
/// how many entries the list may have, and how many marks there may be before room is made again.
#[derive(Drop)]
pub struct Observer {
    declared: Vec<Entry>,
    history: History,
    cap: u32,
    limit: usize,
}

impl Model for Observer {
    ghost use Rattle.hm_parts.specs.Seen.{Noted};

    ghost Value = { Noted };

    ghost use Rattle.hm_parts.specs.ObserverFields.{noted_of, IsKept};

    ghost view = { noted_of };

    ghost invariant = { IsKept };
}

impl Observer {
    /// An observer who has seen nothing, of logs of at most `cap` entries.
    pub fn open(alloc: Global, cap: u32) -> Result<Observer, NoMemory>
        ensures { IfOk result (λ o. o ≡ record { declared = []; history = []; cap = cap; limit = 0 }) }
    {
        Ok(Observer {
            declared: Vec::with_capacity(alloc, cap as usize)?,
            history: History::new(alloc),
            cap,
            limit: 0,
        })
    }

    /// The history of the clients' operations.
    pub fn history(&self) -> &History
        ensures { result.now.marks ≡ self.now.history }
    {
        &self.history
    }

    /// Makes room for a mark and for those of a log of at most `cap` entries, and for that log.
    pub fn reserve(&mut self, cap: u32) -> Result<(), NoMemory>
        requires { cap ≤ max_log_len }
        ensures ok { OnOk result (self.new ≡ record self.old { cap = cap; limit = length self.old.history + cap + 1 }) }
        ensures err { OnErr result (self.new ≡ self.old) }
    {
        let limit = self.history.marks().len() + cap as usize + 1;
        if self.cap == cap && self.limit == limit {
            return Ok(());
        }
        self.history.reserve(cap + 1)?;
        let len = self.declared.len();
        self.declared.reserve((cap as usize).saturating_sub(len))?;
        self.cap = cap;
        self.limit = limit;
        Ok(())
    }

    /// Puts a mark behind the history.
    pub fn mark(&mut self, mark: Mark)
        requires { length self.old.history < self.old.limit }
        ensures { self.new ≡ record self.old { history = self.old.history ++ mark ∷ [] } }
    {
        push(&mut self.history, mark);
    }

    /// The declared list grows to the log's first `to` entries where those are more, and each write that is new in it gives a
    /// mark Commit.
    pub fn declare(&mut self, log: &Ledger, to: u32)
        requires front { length self.old.declared < to → take (length self.old.declared) log.now.entries ≡ self.old.declared }
        requires few { length log.now.entries ≤ self.old.cap }
        requires room { length self.old.history + length log.now.entries ≤ self.old.limit }
        ensures { self.new ≡ record self.old { declared = declared_after self.old.declared log.now.entries to; history = self.old.history ++ commits_since self.old.declared (declared_after self.old.declared log.now.entries to) } }
    {
        if self.declared.len() < to as usize {
            let end = to.min(log.len());
            let from = self.declared.len() as u32;
            declare_all(
                &mut self.declared,
                &mut self.history,
                log.entries(from, end),
            );
        }
    }
}

/// Puts a mark into room that is there.
fn push(history: &mut History, mark: Mark)
    requires { 0 < history.old.spare }
    ensures marks { history.new.marks ≡ history.old.marks ++ mark ∷ [] }
    ensures room { history.old.spare ≤ history.new.spare + 1 }
{
    let pushed: Result<_, _> = history.push(mark);
    pushed.unwrap();
}

/// These entries join the declared list, and each write of them gives a mark.
fn declare_all(declared: &mut Vec<Entry>, history: &mut History, entries: &[Entry])
    requires declared_room { vec_len declared.old + length entries.now ≤ vec_capacity declared.old }
    requires mark_room { length entries.now ≤ history.old.spare }
    ensures declared { declared.new.items ≡ declared.old.items ++ entries.now }
    ensures history { history.new.marks ≡ history.old.marks ++ map commit_of (writes entries.now) }
    ensures declared_room { vec_capacity declared.old ≤ vec_capacity declared.new }
    ensures mark_room { length history.old.marks + history.old.spare ≤ length history.new.marks + history.new.spare }
{
    for entry in entries {
        put(declared, *entry);
        mark_commit(history, entry);
    }
}

/// Puts an entry into room that is there.
fn put(declared: &mut Vec<Entry>, entry: Entry)
    requires { vec_len declared.old < vec_capacity declared.old }
    ensures items { declared.new.items ≡ declared.old.items ++ entry ∷ [] }
    ensures room { vec_capacity declared.old ≤ vec_capacity declared.new }
{
    let _act = entry.act;
    let pushed: Result<_, _> = declared.push(entry);
    pushed.unwrap();
}

/// Marks the commit of an entry that is a write.
fn mark_commit(history: &mut History, entry: &Entry)
    requires { 0 < history.old.spare }
    ensures marks { history.new.marks ≡ history.old.marks ++ map commit_of (writes (entry.now ∷ [])) }
    ensures room { length history.old.marks + history.old.spare ≤ length history.new.marks + history.new.spare }
    ensures spare { history.old.spare ≤ history.new.spare + 1 }
{
    if entry.is_write() {
        let op = OpId {
            client: entry.client,
            request: entry.request,
        };
        let stamp = entry.stamp;
        push(history, Mark::Commit { op, stamp });
    }
}
