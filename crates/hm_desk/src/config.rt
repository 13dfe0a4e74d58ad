ghost use Rattle.std.specs.Prelude.{◌≡◌, ◌↔◌, [], map, string_bytes};
ghost use Rattle.hm_daemon.specs.Words.{IsConfigWords};
ghost use Rattle.hm_daemon.specs.declared.words.ConfigWords.{ConfigWords};
ghost use Rattle.hm_desk.specs.Ends.{Ends, IsIdle, first_service};
ghost use Rattle.hm_desk.specs.Steps.{Comes};

use crate::desk::Desk;
use hm_daemon::status::NodeStatus;
use hm_daemon::words::config_words;
use hm_frame::link::Link;
use hm_frame::link_law::link_calls_add_up;
use hm_operator::order::Order;
use hm_operator::reading::read_order;
use hm_outside::device::{Sink, Source};
use hm_outside::law::calls_add_up;
use hm_schedule::line::LineReason;
use hm_schedule::lines::{Found, LineReader};
use std::alloc::Global;

/// The order of the line with this number, which is the next. A status is where there is none.
fn next_order<S: Source>(
    lines: &mut LineReader,
    line: u64,
    source: &mut S,
) -> Result<Order, NodeStatus>
    ensures { Comes result line lines.old.ahead lines.new.ahead (record { left = S.left source.old; faults = S.faults source.old }) (record { left = S.left source.new; faults = S.faults source.new }) }
{
    match lines.next(source) {
        Ok(Found::Line) => match read_order(lines.line()) {
            Ok(order) => Ok(order),
            Err(reason) => Err(NodeStatus::BadLine { line, reason }),
        },
        Ok(Found::End) => Err(NodeStatus::Done),
        Ok(Found::Unfinished) => Err(NodeStatus::BadLine {
            line,
            reason: LineReason::End,
        }),
        Ok(Found::Long) => Err(NodeStatus::BadLine {
            line,
            reason: LineReason::Long,
        }),
        Err(_) => Err(NodeStatus::ReadFault),
    }
}

/// Carries orders out, so many at most.
fn serve_orders<S: Source, L: Link, K: Sink>(
    desk: &mut Desk,
    lines: &mut LineReader,
    turns: u64,
    source: &mut S,
    link: &mut L,
    sink: &mut K,
) -> NodeStatus
    requires { lines.old.ahead ≡ [] }
    ensures { Ends result desk.old.service turns
        (record { source = record { left = S.left source.old; faults = S.faults source.old }; link = record { coming = L.coming link.old; sent = L.sent link.old; faults = L.faults link.old }; sink = record { held = K.held sink.old; faults = K.faults sink.old } })
        (record { source = record { left = S.left source.new; faults = S.faults source.new }; link = record { coming = L.coming link.new; sent = L.sent link.new; faults = L.faults link.new }; sink = record { held = K.held sink.new; faults = K.faults sink.new } }) }
{
    calls_add_up();
    link_calls_add_up();
    for served in 0..turns {
        let order = match next_order(lines, served + 1, source) {
            Ok(order) => order,
            Err(status) => return status,
        };
        match desk.serve(&order, link, sink) {
            Ok(()) => {}
            Err(status) => return status,
        }
    }
    match lines.has_more(source) {
        Ok(true) => NodeStatus::TurnsSpent,
        Ok(false) => NodeStatus::Done,
        Err(_) => NodeStatus::ReadFault,
    }
}

/// Runs the configuration service: it reads orders, a line each, carries each out, sends what results, and writes a line of what it
/// came to, before it reads the next. Behind as many orders as its words say there may be nothing more.
pub fn serve_config<S: Source, L: Link, K: Sink>(
    alloc: Global,
    words: &[String],
    source: &mut S,
    link: &mut L,
    sink: &mut K,
) -> NodeStatus
    ensures words { (result ≡ NodeStatus.BadWords) ↔ ((w : ConfigWords) → IsConfigWords (map string_bytes words.now) w → ⊥) }
    ensures untouched { result ≡ NodeStatus.BadWords → IsIdle
        (record { source = record { left = S.left source.old; faults = S.faults source.old }; link = record { coming = L.coming link.old; sent = L.sent link.old; faults = L.faults link.old }; sink = record { held = K.held sink.old; faults = K.faults sink.old } })
        (record { source = record { left = S.left source.new; faults = S.faults source.new }; link = record { coming = L.coming link.new; sent = L.sent link.new; faults = L.faults link.new }; sink = record { held = K.held sink.new; faults = K.faults sink.new } }) }
    ensures ends { (w : ConfigWords) → IsConfigWords (map string_bytes words.now) w → Ends result (first_service w) w.turns
        (record { source = record { left = S.left source.old; faults = S.faults source.old }; link = record { coming = L.coming link.old; sent = L.sent link.old; faults = L.faults link.old }; sink = record { held = K.held sink.old; faults = K.faults sink.old } })
        (record { source = record { left = S.left source.new; faults = S.faults source.new }; link = record { coming = L.coming link.new; sent = L.sent link.new; faults = L.faults link.new }; sink = record { held = K.held sink.new; faults = K.faults sink.new } }) }
{
    let Some(words) = config_words(words) else {
        return NodeStatus::BadWords;
    };
    let Ok(mut lines) = LineReader::open(alloc) else {
        return NodeStatus::NoMemory;
    };
    let mut desk = Desk::open(alloc, words.kind, words.size);
    serve_orders(&mut desk, &mut lines, words.turns, source, link, sink)
}
