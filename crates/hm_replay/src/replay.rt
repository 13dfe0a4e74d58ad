ghost use Rattle.std.specs.Prelude.{◌≡◌, ◌≢◌, ◌+◌, ◌≤◌, ◌++◌, ◌⊎◌, ℕ, List, [], ◌∷◌, length, Some, codes, flat_map, map, string_bytes, Option};
ghost use Rattle.std.specs.List.{AllByRecursion};
ghost use Rattle.hm_packet.specs.Messages.{Message};
ghost use Rattle.hm_wire.specs.Packets.{HasSpelling};
ghost use Rattle.hm_frame.specs.Frames.{frame};
ghost use Rattle.hm_show.specs.Shows.{max_frames};
ghost use Rattle.hm_order.specs.Order.{order};
ghost use Rattle.hm_rules.specs.RunText.{order_text};
ghost use Rattle.hm_rules.specs.Runs.{slotted};
ghost use Rattle.hm_rules.specs.World.{opens};
ghost use Rattle.hm_replay.specs.Statuses.{Ends, EndsShow, refused};
ghost use Rattle.hm_outside.specs.Faults.{Rose};
ghost use Rattle.hm_outside.specs.Puts.{Puts};
ghost use Rattle.hm_replay.specs.Commands.{IsMade, IsCommand, command_words, made_lines};
ghost use Rattle.hm_replay.specs.Replays.{IsWholeRun, IsRefusedRun, refusal_text};
ghost use Rattle.hm_replay.specs.Summaries.{summary_of};
ghost use Rattle.hm_replay.specs.Written.{EndsWriting};
ghost use Rattle.hm_replay.specs.declared.words.Made.{Made};
ghost use Rattle.hm_schedule.specs.Nexts.{Opens};
ghost use Rattle.hm_schedule.specs.Orders.{IsBegun, IsSchedule, IsOutside, lines_text, stage_of};
ghost use Rattle.hm_schedule.specs.Refusals.{BreaksOff, IsRefused};
ghost use Rattle.hm_schedule.specs.Setups.{setup_of};
ghost use Rattle.hm_schedule.specs.declared.line.Line.{Line};
ghost use Rattle.hm_schedule.specs.declared.line.LineReason.{LineReason};
ghost use Rattle.hm_world.specs.WorldFields.{with_slots};

use crate::commands::{put_schedule, put_summary};
use crate::events::write_event;
use crate::law::schedules_run_lawfully;
use crate::run_text::{write_order, write_refusal};
use crate::status::{Status, ended, refused, status_of};
use crate::words::{Command, read_command};
use hm_base::buffer::Text;
use hm_outside::device::{NotPut, Sink, Source, put_all, put_closing};
use hm_outside::law::calls_add_up;
use hm_schedule::law::{bytes_break_off_once, schedules_grow_by_lines};
use hm_schedule::lines::LineReader;
use hm_schedule::opening::Opening;
use hm_schedule::reading::{NextEvent, next_event, read_opening};
use hm_schedule::refusal::Refusal;
use hm_show::show::show;
use hm_world::world::World;
use std::alloc::Global;

/// Does what a program's words, without its name, say. `replay` reads a schedule from the source, runs it, and writes the text
/// of its run to the sink, each event's text and the ending as one piece. `show` reads frames and writes each packet's text.
/// `schedule N KIND SIZE` writes the schedule that is made of the number N, and `generate N KIND SIZE` runs it and writes a summary:
/// both read nothing. No other words are a command, and then nothing is read or put.
///
/// The clauses on what was read and put hold where source and sink tell their bytes.
pub fn run<S: Source, K: Sink>(
    alloc: Global,
    words: &[String],
    source: &mut S,
    sink: &mut K,
) -> Status
    // BadWords comes exactly where the words are no command.
    ensures command { result ≢ Status.BadWords → (c : Command) × IsCommand c × (map string_bytes words.now ≡ command_words c) }
    ensures no_command { (c : Command) → IsCommand c → map string_bytes words.now ≡ command_words c → result ≢ Status.BadWords }
    ensures untouched { result ≡ Status.BadWords → (source.new ≡ source.old) × (sink.new ≡ sink.old) }

    // A fault comes only where the device's count rose in this call.
    ensures read_fault { result ≡ Status.ReadFault → Rose (S.faults source.old) (S.faults source.new) }
    ensures write_fault { result ≡ Status.WriteFault → Rose (K.faults sink.old) (K.faults sink.new) }

    // Every status that a replay ends with, and what it owes: no other comes.
    ensures replay { map string_bytes words.now ≡ codes "replay" ∷ []
        → Ends result (S.left source.old) (S.left source.new) (K.held sink.old) (K.held sink.new)
        (record { read_before = S.faults source.old; read_after = S.faults source.new; put_before = K.faults sink.old; put_after = K.faults sink.new }) }

    // A whole run: what it read and put, and that the order which it puts is lawful.
    ensures done { map string_bytes words.now ≡ codes "replay" ∷ [] → result ≡ Status.Done
        → IsWholeRun (S.left source.old) (S.left source.new) (K.held sink.old) (K.held sink.new) }
    ensures bad_line { (line : ℕ) → (reason : LineReason) → result ≡ Status.BadLine line reason
        → IsRefusedRun (S.left source.old) (K.held sink.old) (K.held sink.new) line (Refusal.Bad reason) }
    ensures too_long { (line : ℕ) → map string_bytes words.now ≡ codes "replay" ∷ [] → result ≡ Status.TooLong line
        → IsRefusedRun (S.left source.old) (K.held sink.old) (K.held sink.new) line Refusal.TooLong }

    // BadLine and TooLong come wherever a source tells bytes that break off, and name the line there with the first reason, unless a
    // device fails or memory is wanting.
    ensures breaks { (begun : List Line) → (why : Refusal) → (bytes : List ℕ) → IsBegun begun → BreaksOff begun why bytes → S.left source.old ≡ Some bytes
        → map string_bytes words.now ≡ codes "replay" ∷ []
        → (Rose (S.faults source.old) (S.faults source.new) → ⊥)
        → (Rose (K.faults sink.old) (K.faults sink.new) → ⊥)
        → (result ≡ refused (length begun + 1) why) ⊎ (result ≡ Status.NoMemory) }
    // And so wherever bytes are outside the grammar behind lines of a schedule: there is always such a reason.
    ensures outside { (begun : List Line) → (rest : List ℕ) → IsBegun begun → IsOutside (stage_of begun) rest → S.left source.old ≡ Some (lines_text begun ++ rest)
        → map string_bytes words.now ≡ codes "replay" ∷ []
        → (Rose (S.faults source.old) (S.faults source.new) → ⊥)
        → (Rose (K.faults sink.old) (K.faults sink.new) → ⊥)
        → ((why : Refusal) × IsRefused (stage_of begun) rest why × (result ≡ refused (length begun + 1) why)) ⊎ (result ≡ Status.NoMemory) }

    // A schedule that is read without a fault, and whose text is put without one, is replayed whole, unless memory is wanting.
    ensures complete { (lines : List Line) → IsSchedule lines → S.left source.old ≡ Some (lines_text lines)
        → map string_bytes words.now ≡ codes "replay" ∷ []
        → (Rose (S.faults source.old) (S.faults source.new) → ⊥)
        → (Rose (K.faults sink.old) (K.faults sink.new) → ⊥)
        → (result ≡ Status.Done) ⊎ (result ≡ Status.NoMemory) }

    // Every status that a show ends with, and what it read and put then: no other comes.
    ensures show { map string_bytes words.now ≡ codes "show" ∷ []
        → EndsShow result (S.left source.old) (S.left source.new) (K.held sink.old) (K.held sink.new)
        (record { read_before = S.faults source.old; read_after = S.faults source.new; put_before = K.faults sink.old; put_after = K.faults sink.new }) }
    // Frames within the limits, over a source and a sink whose counts don't rise, are shown whole, or memory is wanting.
    ensures show_complete { map string_bytes words.now ≡ codes "show" ∷ [] → (packets : List Message) → S.left source.old ≡ Some (flat_map frame packets)
        → AllByRecursion HasSpelling packets → length packets ≤ max_frames
        → (Rose (S.faults source.old) (S.faults source.new) → ⊥) → (Rose (K.faults sink.old) (K.faults sink.new) → ⊥)
        → (result ≡ Status.Done) ⊎ (result ≡ Status.NoMemory) }

    // What is made of a number: every status that comes, and what was put then. The source stays as it is.
    ensures schedule { (made : Made) → IsMade made → map string_bytes words.now ≡ command_words (Command.Schedule made)
        → EndsWriting result (lines_text (made_lines made)) (K.held sink.old) (K.held sink.new) (K.faults sink.old) (K.faults sink.new) }
    ensures generate { (made : Made) → IsMade made → map string_bytes words.now ≡ command_words (Command.Generate made)
        → EndsWriting result (summary_of (made_lines made)) (K.held sink.old) (K.held sink.new) (K.faults sink.old) (K.faults sink.new) }
    ensures unread { (made : Made) → IsMade made
        → (map string_bytes words.now ≡ command_words (Command.Schedule made)) ⊎ (map string_bytes words.now ≡ command_words (Command.Generate made))
        → source.new ≡ source.old }
    // Over a sink whose count doesn't rise all of it is put, or memory is wanting.
    ensures made_complete { (made : Made) → IsMade made
        → (map string_bytes words.now ≡ command_words (Command.Schedule made)) ⊎ (map string_bytes words.now ≡ command_words (Command.Generate made))
        → (Rose (K.faults sink.old) (K.faults sink.new) → ⊥)
        → (result ≡ Status.Done) ⊎ (result ≡ Status.NoMemory) }
{
    bytes_break_off_once();
    match read_command(words) {
        Some(Command::Replay) => replay(alloc, source, sink),
        Some(Command::Show) => status_of(show(alloc, source, sink)),
        Some(Command::Schedule(made)) => put_schedule(alloc, made, sink),
        Some(Command::Generate(made)) => put_summary(alloc, made, sink),
        None => Status::BadWords,
    }
}

/// Reads a schedule to its end, and writes the text of its run.
fn replay<S: Source, K: Sink>(alloc: Global, source: &mut S, sink: &mut K) -> Status
    ensures { Ends result (S.left source.old) (S.left source.new) (K.held sink.old) (K.held sink.new)
        (record { read_before = S.faults source.old; read_after = S.faults source.new; put_before = K.faults sink.old; put_after = K.faults sink.new }) }
{
    calls_add_up();
    schedules_grow_by_lines();
    schedules_run_lawfully();
    let Ok(mut reader) = LineReader::open(alloc) else {
        return Status::NoMemory;
    };
    let (opening, first) = match read_opening(&mut reader, source) {
        Ok(opened) => opened,
        Err(_) => return Status::ReadFault,
    };
    let Ok(mut world) = World::open(alloc, &opening.setup) else {
        return Status::NoMemory;
    };
    play(
        alloc,
        &opening,
        first,
        &mut world,
        &mut reader,
        source,
        sink,
    )
}

/// Runs a schedule in the world that its opening lines set up, from what comes first behind them on.
fn play<S: Source, K: Sink>(
    alloc: Global,
    opening: &Opening,
    first: NextEvent,
    world: &mut World,
    reader: &mut LineReader,
    source: &mut S,
    sink: &mut K,
) -> Status
    requires opens { (left : Option (List ℕ)) × Opens opening.now first reader.old.ahead left (S.left source.old) }
    requires opened { with_slots world.old ≡ slotted (opens (setup_of opening.now.setup)) }
    requires events { world.old.events ≡ 0 }
    ensures { (left : Option (List ℕ)) → Opens opening.now first reader.old.ahead left (S.left source.old)
        → Ends result left (S.left source.new) (K.held sink.old) (K.held sink.new)
        (record { read_before = S.faults source.old; read_after = S.faults source.new; put_before = K.faults sink.old; put_after = K.faults sink.new }) }
{
    calls_add_up();
    schedules_grow_by_lines();
    schedules_run_lawfully();
    let mut text = Text::new(alloc);
    let mut next = first;
    loop {
        match next {
            NextEvent::Event(event) => {
                match write_event(world, &event, &mut text) {
                    Ok(()) => {}
                    Err(_) => return Status::NoMemory,
                }
                match put_all(sink, text.as_slice()) {
                    Ok(()) => {}
                    Err(_) => return Status::WriteFault,
                }
            }
            NextEvent::End => {
                return ended(finish(alloc, world, &mut text, sink), Status::Done);
            }
            NextEvent::Refused(refusal) => {
                let line = opening.lines + world.events() + 1;
                let closed = refuse(line, refusal, &mut text, sink);
                return ended(closed, refused(line, refusal));
            }
        }
        next = match next_event(reader, source, world.events()) {
            Ok(next) => next,
            Err(_) => return Status::ReadFault,
        };
    }
}

/// Writes the order of the operations, which ends the text of a whole run.
fn finish<K: Sink>(
    alloc: Global,
    world: &World,
    text: &mut Text,
    sink: &mut K,
) -> Result<(), NotPut>
    ensures { Puts result (order_text (order world.now.world.history)) (K.held sink.old) (K.held sink.new) (K.faults sink.old) (K.faults sink.new) }
{
    let Ok(ops) = world.history().order(alloc) else {
        return Err(NotPut::NoMemory);
    };
    text.clear();
    match write_order(&ops, text) {
        Ok(()) => put_closing(sink, text.as_slice()),
        Err(_) => Err(NotPut::NoMemory),
    }
}

/// Writes the number of the line that is refused, counted from 1, and why, which ends the text where the schedule breaks off.
fn refuse<K: Sink>(line: u32, refusal: Refusal, text: &mut Text, sink: &mut K) -> Result<(), NotPut>
    ensures { Puts result (refusal_text line refusal) (K.held sink.old) (K.held sink.new) (K.faults sink.old) (K.faults sink.new) }
{
    text.clear();
    match write_refusal(line, refusal, text) {
        Ok(()) => put_closing(sink, text.as_slice()),
        Err(_) => Err(NotPut::NoMemory),
    }
}
