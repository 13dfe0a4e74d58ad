ghost use Rattle.std.specs.Prelude.{◌≡◌, ◌<◌, ◌≤◌, ◌+◌, ◌^◌, ◌↔◌, ◌++◌, ◌∷◌, [], max, length, take, IfOk, IsOk, OnOk, OnErr, IsTrue, nat_lt, Option, List};
ghost use Rattle.hm_base.specs.Lists.{IsPrefix};
ghost use Rattle.hm_base.specs.Logs as logs;
ghost use Rattle.hm_base.specs.Verdicts as verdicts;
ghost use Rattle.hm_store.specs.Log.{max_log_len};
ghost use Rattle.hm_clients.specs.Table.{StandsFor};
ghost use Rattle.hm_shim.specs.State.{applied_entries};
ghost use Rattle.hm_shim.specs.Answered.{answered};

use hm_base::entry::Entry;
use hm_base::memory::NoMemory;
use hm_base::reply::reply_of;
use hm_base::stamp::{Stamp, is_at_most, is_below};
use hm_base::value::Value;
use hm_base::verdict::{Admit, Verdict};
use hm_base::why::Why;
use hm_clients::table::ClientTable;
use hm_packet::body::{FastRead, Put, Reply};
use hm_store::ledger::{Ledger, LogFull};
use hm_store::staged::Staged;
use std::alloc::Global;
use std::marker::Model;

/// What a replica makes of a stamped read by itself.
#[derive(Clone, Copy, Debug, PartialEq, Eq)]
pub enum Local {
    Answer(Reply),
    /// The test on the stamp fails, and the read goes the normal way.
    Pass,
}

/// The log, the client table of that log, and the number of the switch whose stamps are taken, 1 at opening. Contracts see
/// the log's entries, the applied length, the capacity and that number.
#[derive(Drop)]
pub struct Shim {
    log: Ledger,
    clients: ClientTable,
    accepted: u32,
}

impl Model for Shim {
    ghost use Rattle.std.specs.Prelude.{◌≡◌};
    ghost use Rattle.hm_shim.specs.State.{State};
    ghost use Rattle.hm_clients.specs.Table.{StandsFor};

    ghost Value = { State };

    ghost view = { λ s. record { entries = s.log.entries; applied = s.log.applied; cap = s.log.cap; accepted = s.accepted } };

    ghost invariant = { λ s. StandsFor s.clients s.log.entries × (s.clients.cap ≡ s.log.cap) };
}

impl Shim {
    /// An empty log with room for `cap` entries, under switch 1.
    pub fn open(alloc: Global, cap: u32) -> Result<Shim, NoMemory>
        requires { cap ≤ max_log_len }
        ensures { IfOk result (λ s. s ≡ record { entries = []; applied = 0; cap = cap; accepted = 1 }) }
    {
        Ok(Shim {
            log: Ledger::open(alloc, cap)?,
            clients: ClientTable::open(alloc, cap)?,
            accepted: 1,
        })
    }

    /// What becomes of a numbered write, but for the replica's role and the room in its log: refused for its switch, its
    /// order or an older request, found in the log already, or to be taken (Harmonia's writes in the order of their numbers;
    /// a client's request is executed once).
    pub fn admit(&self, put: &Put) -> Admit
        ensures { result ≡ verdicts.admission self.now.accepted self.now.entries put.now.stamp put.now.client put.now.request }
    {
        if self.accepted != put.stamp.switch {
            Admit::Drop(Why::OldSwitch)
        } else if is_below(self.log.last(), put.stamp) {
            admit_by(self.clients.judge(put.client, put.request))
        } else {
            Admit::Drop(Why::Order)
        }
    }

    /// The read-ahead test: answers exactly where the stamp's switch is accepted and the object's last write in the log, 0.0
    /// for none, has a stamp that is at most the read's.
    pub fn read_ahead(&self, read: &FastRead) -> Local
        ensures { result ≡ answered read.now.request (logs.read_ahead self.now.accepted self.now.entries read.now.stamp read.now.object) }
    {
        let reply = reply_to(read.request, self.log.latest(read.object));
        if self.accepted == read.stamp.switch && is_at_most(reply.version, read.stamp) {
            Local::Answer(reply)
        } else {
            Local::Pass
        }
    }

    /// The read-behind test: answers exactly where the stamp's switch is accepted and the applied prefix isn't empty and ends
    /// with a stamp that is at least the read's.
    pub fn read_behind(&self, read: &FastRead) -> Local
        ensures { result ≡ answered read.now.request (logs.read_behind self.now.accepted (applied_entries self.now) read.now.stamp read.now.object) }
    {
        match self.log.last_applied() {
            Some(last) => {
                if self.accepted == read.stamp.switch && is_at_most(read.stamp, last) {
                    Local::Answer(reply_to(read.request, self.log.applied(read.object)))
                } else {
                    Local::Pass
                }
            }
            None => Local::Pass,
        }
    }

    /// Takes nothing more of a switch and of those before it; true where the accepted number changed.
    pub fn refuse(&mut self, switch: u32) -> bool
        requires { switch + 1 < 2 ^ 32 }
        ensures accepted { self.new ≡ record self.old { accepted = max self.old.accepted (switch + 1) } }
        ensures changed { IsTrue result ↔ (self.old.accepted < switch + 1) }
    {
        let before = self.accepted;
        self.accepted = before.max(switch + 1);
        before < switch + 1
    }

    /// The number of the switch whose stamps are taken.
    pub fn accepted(&self) -> u32
        ensures { result ≡ self.now.accepted }
    {
        self.accepted
    }

    /// The log.
    pub fn log(&self) -> &Ledger
        ensures { result.now ≡ record { entries = self.now.entries; applied = self.now.applied; cap = self.now.cap } }
    {
        &self.log
    }

    /// How a client's request stands to those of the log.
    pub fn judge(&self, client: u32, request: u64) -> Verdict
        ensures { result ≡ verdicts.judge self.now.entries client request }
    {
        self.clients.judge(client, request)
    }

    /// Puts any entry behind the log. LogFull exactly at `cap` entries; then nothing changes.
    pub fn append(&mut self, entry: Entry) -> Result<(), LogFull>
        ensures room { IsOk result ↔ (length self.old.entries < self.old.cap) }
        ensures ok { OnOk result (self.new ≡ record self.old { entries = self.old.entries ++ entry ∷ [] }) }
        ensures err { OnErr result (self.new ≡ self.old) }
    {
        let index = self.log.len();
        self.log.push(entry)?;
        self.clients.note(&entry, index);
        Ok(())
    }

    /// How long the log is that the applied prefix and the staged entries behind it make.
    pub fn staged_len(&self, staged: &Staged) -> u32
        requires { self.now.applied + length staged.now.entries ≤ self.now.cap }
        ensures len { result ≡ length (applied_entries self.now ++ staged.now.entries) }
        ensures sum { result ≡ self.now.applied + length staged.now.entries }
    {
        let _cap = self.log.cap();
        self.log.applied_len() + staged.len()
    }

    /// The log becomes its applied prefix with the staged entries behind it, with the client table of that log. A log and its
    /// table are one: a request that only the old log had is new again (Liskov and Cowling: the table goes with the log).
    pub fn adopt(&mut self, staged: &[Entry])
        requires { self.old.applied + length staged.now ≤ self.old.cap }
        ensures { self.new ≡ record self.old { entries = applied_entries self.old ++ staged.now } }
    {
        let applied = self.log.applied_len();
        self.log.truncate(applied);
        self.clients.truncate(applied);
        for entry in staged {
            let _ = self.append(*entry);
        }
    }

    /// Applies the log up to `k` entries.
    pub fn apply_to(&mut self, k: u32)
        requires rises { self.old.applied ≤ k }
        requires within { k ≤ length self.old.entries }
        ensures { self.new ≡ record self.old { applied = k } }
    {
        self.log.apply_to(k);
    }
}

/// What a verdict on a write's request makes of it.
fn admit_by(verdict: Verdict) -> Admit
    ensures { result ≡ verdicts.admitted verdict }
{
    match verdict {
        Verdict::New => Admit::Take,
        Verdict::Again { index } => Admit::Again { index },
        Verdict::Old => Admit::Drop(Why::Repeat),
    }
}

/// The reply to a read whose object was written last by this write: version 0.0 and no value for none.
pub fn reply_to(request: u64, latest: Option<(Stamp, Value)>) -> Reply
    ensures { result ≡ record { request = request; version = (logs.reply_of latest).0; answer = (logs.reply_of latest).1 } }
{
    let (version, answer) = reply_of(latest);
    Reply {
        request,
        version,
        answer,
    }
}
