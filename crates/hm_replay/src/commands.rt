//! Commands that read nothing: a schedule is made of a number.

ghost use Rattle.std.specs.Prelude.{◌≡◌, IfOk};
ghost use Rattle.hm_replay.specs.Commands.{IsMade, made_lines};
ghost use Rattle.hm_replay.specs.Summaries.{summary_of};
ghost use Rattle.hm_replay.specs.Written.{EndsWriting};
ghost use Rattle.hm_rules.specs.Runs.{slotted};
ghost use Rattle.hm_rules.specs.World.{opens};
ghost use Rattle.hm_schedule.specs.Orders as orders;
ghost use Rattle.hm_schedule.specs.Orders.{lines_text};
ghost use Rattle.hm_world.specs.WorldFields.{with_slots};

use crate::status::Status;
use crate::summary::{Counts, write_end, write_outcomes};
use crate::words::Made;
use hm_base::buffer::Text;
use hm_base::memory::NoMemory;
use hm_count_law::counts::ordered_count;
use hm_group_laws::groups::every_group_is_linearizable;
use hm_outside::device::{Sink, put_all};
use hm_outside::law::calls_add_up;
use hm_refusal_laws::outcomes::outcomes_are_the_slotted_runs;
use hm_refusal_laws::refusals::{full_events_are_the_refusals, slotted_run_goes_on};
use hm_schedule::generator::{Generator, generated_is_a_schedule};
use hm_schedule::stage::default_setup;
use hm_schedule::write_line::write_line;
use hm_world::world::World;
use std::alloc::Global;

/// A piece of a schedule is put once it has so many bytes.
const PIECE: usize = 65_536;

/// Puts the schedule that is made, in pieces.
pub(crate) fn put_schedule<K: Sink>(alloc: Global, made: Made, sink: &mut K) -> Status
    requires { IsMade made }
    ensures { EndsWriting result (lines_text (made_lines made)) (K.held sink.old) (K.held sink.new) (K.faults sink.old) (K.faults sink.new) }
{
    calls_add_up();
    let mut generator = Generator::open(made.number, made.kind, made.size);
    let mut text = Text::new(alloc);
    while let Some(line) = generator.next_line() {
        match write_line(&line, &mut text) {
            Ok(()) => {}
            Err(_) => return Status::NoMemory,
        }
        if text.len() >= PIECE {
            match put_all(sink, text.as_slice()) {
                Ok(()) => text.clear(),
                Err(_) => return Status::WriteFault,
            }
        }
    }
    match put_all(sink, text.as_slice()) {
        Ok(()) => Status::Done,
        Err(_) => Status::WriteFault,
    }
}

/// Runs the schedule that is made, and puts a summary of the run.
pub(crate) fn put_summary<K: Sink>(alloc: Global, made: Made, sink: &mut K) -> Status
    requires { IsMade made }
    ensures { EndsWriting result (summary_of (made_lines made)) (K.held sink.old) (K.held sink.new) (K.faults sink.old) (K.faults sink.new) }
{
    calls_add_up();
    let Ok(text) = summary(alloc, made) else {
        return Status::NoMemory;
    };
    match put_all(sink, text.as_slice()) {
        Ok(()) => Status::Done,
        Err(_) => Status::WriteFault,
    }
}

/// The summary of the run of the schedule that is made.
fn summary(alloc: Global, made: Made) -> Result<Text, NoMemory>
    requires { IsMade made }
    ensures { IfOk result (λ text. text.items ≡ summary_of (made_lines made)) }
{
    let Ok(mut world) = World::open(alloc, &default_setup(made.kind, made.size)) else {
        return Err(NoMemory);
    };
    sum_up(alloc, made, &mut world)
}

/// Runs the schedule that is made in a world opened for it, and writes the summary.
fn sum_up(alloc: Global, made: Made, world: &mut World) -> Result<Text, NoMemory>
    requires made { IsMade made }
    requires opened { with_slots world.old ≡ slotted (opens (orders.default_setup made.kind made.size)) }
    requires events { world.old.events ≡ 0 }
    ensures { IfOk result (λ text. text.items ≡ summary_of (made_lines made)) }
{
    generated_is_a_schedule();
    full_events_are_the_refusals();
    outcomes_are_the_slotted_runs();
    slotted_run_goes_on();
    every_group_is_linearizable();
    let mut generator = Generator::open(made.number, made.kind, made.size);
    let _group = generator.next_line();
    let mut counts = Counts::none();
    while let Some(event) = generator.next_event() {
        counts.add(world.event(&event)?);
    }
    let ordered = ordered_count(world.history().marks());
    let mut text = Text::new(alloc);
    write_outcomes(world.events(), &counts, &mut text)?;
    write_end(
        world.sent_count(),
        world.history().marks(),
        ordered,
        &mut text,
    )?;
    Ok(text)
}
