ghost use Rattle.std.specs.Prelude.{◌≡◌};
ghost use Rattle.hm_base.specs.declared.node.GroupKind.TheVariants.{Primary};
ghost use Rattle.hm_rules.specs.Events.{Setup};
ghost use Rattle.hm_rules.specs.World.{World, opens};
ghost use Rattle.hm_core_laws.specs.Core.{Core};
ghost use Rattle.hm_core_laws.specs.Changes.{Change};
ghost use Rattle.hm_core_laws.specs.Owed.{StepsSound};
ghost use Rattle.hm_primary_laws.specs.Led.{PrimaryHolds};

use hm_core_laws::epochs::{epochs_go_on, epochs_hold_at_first, replicas_open};
use hm_core_laws::later::{lists_go_on_holding, true_packet_stays_true};
use hm_core_laws::steps::{
    declared_answers_are_true, declaring_step_is_sound, quiet_step_is_sound,
};
use hm_due_law::answers::{answer_ahead_is_due, whole_list_answer_is_due};
use hm_due_law::tidy::admitted_write_keeps_tidy;

/// What holds of a primary-backup group holds of one of any size before its first event.
pub fn primary_holds_at_first()
    ensures { (setup : Setup) → setup.kind ≡ Primary → PrimaryHolds (opens setup) }
{
    replicas_open();
    epochs_hold_at_first();
}

/// Each step that a live replica may take is as it is owed: what it sends is true, and what it declares goes on from the declared list.
pub fn primary_steps_are_sound()
    ensures { (w : World) → Core w → PrimaryHolds w → StepsSound w }
{
    whole_list_answer_is_due();
    answer_ahead_is_due();
    admitted_write_keeps_tidy();
    quiet_step_is_sound();
    declared_answers_are_true();
    true_packet_stays_true();
    lists_go_on_holding();
    declaring_step_is_sound();
}

/// It goes on holding, whatever an event changes.
pub fn primary_goes_on()
    ensures { (w new : World) → Core w → PrimaryHolds w → Change w new → PrimaryHolds new }
{
    whole_list_answer_is_due();
    answer_ahead_is_due();
    admitted_write_keeps_tidy();
    quiet_step_is_sound();
    declared_answers_are_true();
    true_packet_stays_true();
    lists_go_on_holding();
    epochs_go_on();
}
