ghost use Rattle.std.specs.Prelude.{◌≡◌, ◌<◌, ◌+◌, ◌++◌, drop, flat_map, OnOk};
ghost use Rattle.hm_rules.specs.RunText.{event_text, mark_line, packet_lines};
ghost use Rattle.hm_refusal_laws.specs.Slotting.{slot_happens, slot_step};
ghost use Rattle.hm_schedule.specs.Limits.{max_events};
ghost use Rattle.hm_schedule.specs.Setups.{event_of};
ghost use Rattle.hm_world.specs.WorldFields.{with_slots};

use crate::run_text::{write_marks, write_outcome, write_sent};
use hm_base::buffer::Text;
use hm_base::memory::NoMemory;
use hm_order::mark::Mark;
use hm_schedule::event::Event;
use hm_world::world::World;

/// Lets an event happen, and makes its text in place of what the buffer held.
pub(crate) fn write_event(world: &mut World, event: &Event, text: &mut Text) -> Result<(), NoMemory>
    requires { world.old.events < max_events }
    ensures text { OnOk result (text.new.items ≡ event_text (world.old.events + 1) world.old.world (slot_happens (with_slots world.old) (event_of event.now))) }
    ensures world { OnOk result (with_slots world.new ≡ slot_step (with_slots world.old) (event_of event.now)) }
    ensures events { OnOk result (world.new.events ≡ world.old.events + 1) }
{
    let marked = world.history().marks().len();
    let sent = world.sent_count();
    let outcome = world.event(event)?;
    text.clear();
    write_outcome(world.events(), outcome, text)?;
    write_marks_from(world.history().marks(), marked, text)?;
    write_sent_from(world, sent, text)
}

/// Appends the lines of the marks from this place on, counted from 0.
fn write_marks_from(marks: &[Mark], first: usize, text: &mut Text) -> Result<(), NoMemory>
    ensures { OnOk result (text.new.items ≡ text.old.items ++ flat_map mark_line (drop first marks.now)) }
{
    write_marks(&marks[first.min(marks.len())..], text)
}

/// Appends the lines of the packets sent after the first ones.
fn write_sent_from(world: &World, before: u32, text: &mut Text) -> Result<(), NoMemory>
    ensures { OnOk result (text.new.items ≡ text.old.items ++ packet_lines (before + 1) (drop before world.now.world.net)) }
{
    for i in before..world.sent_count() {
        if let Some(bytes) = world.sent(i + 1) {
            write_sent(i + 1, bytes, text)?;
        }
    }
    Ok(())
}
