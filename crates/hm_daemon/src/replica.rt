ghost use Rattle.std.specs.Prelude.{◌≡◌, ◌↔◌, map, string_bytes};
ghost use Rattle.hm_daemon.specs.Serves.{IsIdle, Serves, starts};
ghost use Rattle.hm_daemon.specs.Words.{IsReplicaWords};
ghost use Rattle.hm_daemon.specs.declared.words.ReplicaWords.{ReplicaWords};

use crate::server::Server;
use crate::status::NodeStatus;
use crate::words::replica_words;
use hm_frame::link::Link;
use std::alloc::Global;

/// Runs a replica: each packet that comes over the link is a step of it, each waiting time in which nothing comes a tick, or, where
/// Viewstamped Replication has waited too long, a timeout; and what these send goes out in their order. All memory is taken before
/// the first take.
pub fn serve_replica<L: Link>(alloc: Global, words: &[String], link: &mut L) -> NodeStatus
    ensures words { (result ≡ NodeStatus.BadWords) ↔ ((w : ReplicaWords) → IsReplicaWords (map string_bytes words.now) w → ⊥) }
    ensures untouched { result ≡ NodeStatus.BadWords → IsIdle (record { coming = L.coming link.old; came = L.coming link.new; sent = L.sent link.old; posted = L.sent link.new; before = L.faults link.old; after = L.faults link.new }) }
    ensures serves { (w : ReplicaWords) → IsReplicaWords (map string_bytes words.now) w
        → Serves result (starts w) w.turns (record { coming = L.coming link.old; came = L.coming link.new; sent = L.sent link.old; posted = L.sent link.new; before = L.faults link.old; after = L.faults link.new }) }
{
    let Some(words) = replica_words(words) else {
        return NodeStatus::BadWords;
    };
    match Server::open(alloc, &words) {
        Ok(mut server) => server.serve(words.turns, link),
        Err(_) => NodeStatus::NoMemory,
    }
}
