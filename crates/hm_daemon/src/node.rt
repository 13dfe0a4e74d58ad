ghost use Rattle.std.specs.Prelude.{◌≡◌, ◌↔◌, length, map, string_bytes};
ghost use Rattle.hm_daemon.specs.Asks.{IsUnput};
ghost use Rattle.hm_daemon.specs.Nodes.{IsNodeWords, OfOne, Runs, status_of};
ghost use Rattle.hm_daemon.specs.declared.words.SwitchWords.{SwitchWords};
ghost use Rattle.hm_schedule.specs.Schedules.{IsLawfulGroup};

use crate::status::NodeStatus;
use crate::words::{SwitchWords, switch_words};
use hm_frame::link::Link;
use hm_outside::device::{NotPut, Sink};
use hm_reconfig::service::Service;
use hm_shared::book::Book;
use hm_worker::worker::Worker;
use hm_worker::worker_end::WorkerEnd;
use std::alloc::Global;
use std::sync::Wait;
use std::thread::Threads;

/// The status of a daemon whose worker ended so.
fn status_of(end: WorkerEnd) -> NodeStatus
    ensures { result ≡ status_of end }
{
    match end {
        WorkerEnd::Ended => NodeStatus::Done,
        WorkerEnd::TurnsSpent => NodeStatus::TurnsSpent,
        WorkerEnd::SwitchSpent => NodeStatus::SwitchSpent,
        WorkerEnd::LinkFault => NodeStatus::LinkFault,
    }
}

/// Runs the switch of these words by one worker, and then writes the journal.
fn run_switch<L: Link, K: Sink>(
    alloc: Global,
    words: &SwitchWords,
    worker: &mut Worker<L>,
    sink: &mut K,
) -> NodeStatus
    requires group { IsLawfulGroup words.now.kind words.now.size }
    ensures { Runs result words.now
        (record { ended = worker.old.end; work = record { took = worker.old.took; sent = worker.old.sent; came = L.coming worker.old.link; posted = L.sent worker.old.link; faults = L.faults worker.old.link } })
        (record { ended = worker.new.end; work = record { took = worker.new.took; sent = worker.new.sent; came = L.coming worker.new.link; posted = L.sent worker.new.link; faults = L.faults worker.new.link } })
        (record { held = K.held sink.old; put = K.held sink.new; before = K.faults sink.old; after = K.faults sink.new }) }
{
    let route = Service::open(words.kind, words.size).route();
    let Ok(book) = Book::open(
        alloc,
        words.id,
        words.stages,
        words.bits,
        words.life,
        &route,
    ) else {
        return NodeStatus::NoMemory;
    };
    match worker.run(alloc, book, words.turns, sink) {
        Ok(()) => status_of(worker.end),
        Err(NotPut::Failed) => NodeStatus::WriteFault,
        Err(NotPut::NoMemory) => NodeStatus::NoMemory,
    }
}

/// Runs a switch: each packet that comes over the worker's link is a turn of it, whose packet goes out; then the journal of all turns
/// is written to the sink. The words must want one worker, and one be at hand.
pub fn run_node<R: Threads + Wait + Sync, L: Link + Send, K: Sink>(
    _rt: &R,
    alloc: Global,
    words: &[String],
    workers: &mut [Worker<L>],
    sink: &mut K,
) -> NodeStatus
    ensures words { (result ≡ NodeStatus.BadWords) ↔ ((w : SwitchWords) → IsNodeWords (map string_bytes words.now) (length workers.old) w → ⊥) }
    ensures untouched { result ≡ NodeStatus.BadWords → (workers.new ≡ workers.old) × IsUnput (record { held = K.held sink.old; put = K.held sink.new; before = K.faults sink.old; after = K.faults sink.new }) }
    ensures runs { (w : SwitchWords) → IsNodeWords (map string_bytes words.now) (length workers.old) w → OfOne (λ old new. Runs result w
        (record { ended = old.end; work = record { took = old.took; sent = old.sent; came = L.coming old.link; posted = L.sent old.link; faults = L.faults old.link } })
        (record { ended = new.end; work = record { took = new.took; sent = new.sent; came = L.coming new.link; posted = L.sent new.link; faults = L.faults new.link } })
        (record { held = K.held sink.old; put = K.held sink.new; before = K.faults sink.old; after = K.faults sink.new })) workers.old workers.new }
{
    let Some(words) = switch_words(words) else {
        return NodeStatus::BadWords;
    };
    if words.workers != 1 {
        return NodeStatus::BadWords;
    }
    match workers {
        [worker] => run_switch(alloc, &words, worker, sink),
        _ => NodeStatus::BadWords,
    }
}
