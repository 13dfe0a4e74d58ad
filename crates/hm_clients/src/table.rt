ghost use Rattle.std.specs.Prelude.{◌≡◌, ◌<◌, ◌≤◌, ◌+◌, ◌-◌, ℕ, [], ◌∷◌, ◌++◌, List, length, take, reverse, slice_get, IfOk, Some};
ghost use Rattle.hm_base.specs.declared.entry.Entry.{Entry};
ghost use Rattle.hm_base.specs.Logs.{greatest_request, is_newer};
ghost use Rattle.hm_base.specs.Verdicts.{judge, judged};
ghost use Rattle.hm_base.specs.declared.verdict.LatestRequest.{LatestRequest};
ghost use Rattle.hm_clients.specs.Cut.{noted_below};
ghost use Rattle.hm_clients.specs.Table.{StandsFor, latest_of};
ghost use Rattle.hm_store.specs.Log.{max_log_len};

use hm_base::entry::Entry;
use hm_base::memory::NoMemory;
use hm_base::verdict::{LatestRequest, Verdict};
use hm_store::last_places::LastPlaces;
use std::alloc::Global;
use std::marker::Model;

/// Each client's latest request among the entries noted since opening or the last `clear`, the log of the table. All memory
/// is taken at opening. Clauses speak of every log that the table stands for.
#[derive(Drop)]
pub struct ClientTable {
    /// Each request that was above its client's others when it was noted, with its client.
    requests: Vec<(u32, LatestRequest)>,
    clients: LastPlaces,
    count: u32,
    cap: u32,
}

impl Model for ClientTable {
    ghost use Rattle.hm_clients.specs.Table.{Table};

    ghost Value = { Table };

    ghost use Rattle.hm_clients.specs.Indexed.{table_of, IsIndexed};

    ghost view = { table_of };

    ghost invariant = { IsIndexed };
}

impl ClientTable {
    /// The table of the empty log, with room for `cap` entries.
    pub fn open(alloc: Global, cap: u32) -> Result<ClientTable, NoMemory>
        requires { cap ≤ max_log_len }
        ensures empty { IfOk result (λ t. StandsFor t []) }
        ensures cap { IfOk result (λ t. t.cap ≡ cap) }
    {
        Ok(ClientTable {
            requests: Vec::with_capacity(alloc, cap as usize)?,
            clients: LastPlaces::open(alloc, cap)?,
            count: 0,
            cap,
        })
    }

    /// How a client's request stands to those of the log.
    pub fn judge(&self, client: u32, request: u64) -> Verdict
        ensures { (log : List Entry) → StandsFor self.now log → result ≡ judge log client request }
    {
        match self.latest_of(client) {
            None => Verdict::New,
            Some(known) => judge_latest(known, request),
        }
    }

    /// Notes an entry at its index, which is the number of entries noted before: it becomes the client's greatest request
    /// where it is above that.
    pub fn note(&mut self, entry: &Entry, index: u32)
        requires next { index ≡ self.old.count }
        requires room { index < self.old.cap }
        ensures noted { (log : List Entry) → StandsFor self.old log → StandsFor self.new (log ++ entry.now ∷ []) }
        ensures count { self.new.count ≡ index + 1 }
        ensures cap { self.new.cap ≡ self.old.cap }
    {
        let request = entry.request;
        if self.is_newer(entry.client, request) {
            let latest = LatestRequest { request, index };
            self.requests.push_reserved((entry.client, latest));
            self.clients.push(Some(entry.client));
        }
        self.count = index + 1;
    }

    /// Keeps what was noted of the first `len` entries, and forgets the others.
    pub fn truncate(&mut self, len: u32)
        requires { len ≤ self.old.count }
        ensures front { (log : List Entry) → StandsFor self.old log → StandsFor self.new (take len log) }
        ensures count { self.new.count ≡ len }
        ensures cap { self.new.cap ≡ self.old.cap }
    {
        let kept = count_below(&self.requests, len);
        self.requests.truncate(kept);
        self.clients.truncate(kept as u32);
        self.count = len;
    }

    /// The client's latest request.
    fn latest_of(&self, client: u32) -> Option<LatestRequest>
        ensures { result ≡ latest_of self.now client }
    {
        match self.clients.last_below(client, self.requests.len() as u32) {
            Some(i) => Some(self.requests[i as usize].1),
            None => None,
        }
    }

    /// Whether a request is above the client's latest.
    fn is_newer(&self, client: u32, request: u64) -> bool
        ensures { result ≡ is_newer (latest_of self.now client) request }
    {
        match self.latest_of(client) {
            None => true,
            Some(known) => known.request < request,
        }
    }
}

/// How many of the requests, the first ones, are of entries below this index.
fn count_below(requests: &[(u32, LatestRequest)], index: u32) -> usize
    ensures within { result ≤ length requests.now }
    ensures last { (request : ℕ × LatestRequest) → 0 < result → slice_get requests.now (result - 1) ≡ Some request → request.1.index < index }
    ensures front { reverse (take result requests.now) ≡ noted_below index (reverse requests.now) }
{
    let mut count = requests.len();
    while count > 0 && requests[count - 1].1.index >= index {
        count -= 1;
    }
    count
}

/// How a request stands to the client's latest.
fn judge_latest(known: LatestRequest, request: u64) -> Verdict
    ensures { result ≡ judged (Some known) request }
{
    if known.request == request {
        Verdict::Again { index: known.index }
    } else if request < known.request {
        Verdict::Old
    } else {
        Verdict::New
    }
}
