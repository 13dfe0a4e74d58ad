ghost use Rattle.std.specs.Prelude.{◌≡◌, ◌<◌, ◌≤◌, ◌+◌, [], nat_eq, OnOk, OnErr};
ghost use Rattle.indexmap.specs.IndexMap.{insert_entry, spare, index_map_len};
ghost use Rattle.hm_rules.specs.World.{with_client};
ghost use Rattle.hm_parts.specs.ClientsAt.{client_at, client_in};

use hm_base::memory::NoMemory;
use hm_order::mark::Want;
use indexmap::IndexMap;
use std::alloc::Global;
use std::marker::Model;

/// A client's last request number, 0 for none, and what that request asks for while it isn't answered.
#[derive(Clone, Copy, Debug, PartialEq, Eq)]
pub struct ClientState {
    pub request: u64,
    pub outstanding: Option<Want>,
}

/// The clients that were seen. Contracts see them in the order in which they came, how often a client's state was kept, and how
/// often it may be before room is made again.
#[derive(Drop)]
pub struct Clients {
    states: IndexMap<u32, ClientState>,
    kept: u64,
    limit: u64,
}

impl Model for Clients {
    ghost use Rattle.hm_parts.specs.Seen.{Known};

    ghost Value = { Known };

    ghost use Rattle.hm_parts.specs.ClientFields.{known_of, IsKept};

    ghost view = { known_of };

    ghost invariant = { IsKept };
}

impl Clients {
    /// No client yet. It takes no memory.
    pub fn new(alloc: Global) -> Clients
        ensures { result ≡ record { clients = []; kept = 0; limit = 0 } }
    {
        Clients {
            states: IndexMap::new(alloc),
            kept: 0,
            limit: 0,
        }
    }

    /// A client's state, that of a new client where it isn't known.
    pub fn get(&self, number: u32) -> ClientState
        ensures few { result.request ≤ self.now.kept }
        ensures known { client_at number result ≡ client_in self.now.clients number }
    {
        match self.states.get(&number) {
            Some(client) => *client,
            None => ClientState {
                request: 0,
                outstanding: None,
            },
        }
    }

    /// Makes room to keep one client's state.
    pub fn reserve(&mut self) -> Result<(), NoMemory>
        requires { self.old.kept < 18446744073709551615 }
        ensures ok { OnOk result (self.new ≡ record self.old { limit = self.old.kept + 1 }) }
        ensures err { OnErr result (self.new ≡ self.old) }
    {
        self.states.reserve(1)?;
        self.limit = self.kept + 1;
        Ok(())
    }

    /// Keeps a client's state.
    pub fn keep(&mut self, number: u32, client: ClientState)
        requires room { self.old.kept < self.old.limit }
        requires few { client.request ≤ self.old.kept + 1 }
        ensures { self.new ≡ record self.old { clients = with_client (client_at number client) self.old.clients; kept = self.old.kept + 1 } }
    {
        insert(&mut self.states, number, client);
        self.kept += 1;
    }
}

/// Keeps a client's state in room that is there.
fn insert(states: &mut IndexMap<u32, ClientState>, number: u32, client: ClientState)
    requires { 0 < spare states.old }
    ensures entries { states.new.entries ≡ insert_entry nat_eq states.old.entries number client }
    ensures room { spare states.old ≤ spare states.new + 1 }
{
    let _want = Want::Read { object: 0 };
    let kept: Result<_, _> = states.insert(number, client);
    let _ = kept.unwrap();
}
