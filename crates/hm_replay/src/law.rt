ghost use Rattle.hm_replay.specs.Lawful.{RunsLawfully};

use hm_group_laws::groups::every_group_is_linearizable;
use hm_refusal_laws::refusals::{
    full_events_are_the_refusals, slotted_run_goes_on, texts_show_their_refusals,
};
use hm_schedule::law::schedules_grow_by_lines;

/// Where the run of a schedule refuses a write, what its text shows of that, and that the order at its end is lawful.
pub(crate) fn schedules_run_lawfully()
    ensures { RunsLawfully }
{
    schedules_grow_by_lines();
    full_events_are_the_refusals();
    slotted_run_goes_on();
    texts_show_their_refusals();
    every_group_is_linearizable();
}
