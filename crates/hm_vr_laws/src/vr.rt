ghost use Rattle.std.specs.Prelude.{◌≡◌};
ghost use Rattle.hm_base.specs.declared.node.GroupKind.TheVariants.{Vr};
ghost use Rattle.hm_rules.specs.Events.{Setup};
ghost use Rattle.hm_rules.specs.World.{World, opens};
ghost use Rattle.hm_core_laws.specs.Core.{Core};
ghost use Rattle.hm_core_laws.specs.Changes.{Change};
ghost use Rattle.hm_core_laws.specs.Owed.{StepsSound};
ghost use Rattle.hm_core_laws.specs.Accepted.{OneAccepted};
ghost use Rattle.hm_vr_laws.specs.Voted.{HasQuorums, VrHolds};

use hm_core_laws::epochs::replicas_open;
use hm_core_laws::later::{lists_go_on_holding, true_packet_stays_true};
use hm_core_laws::steps::{declared_answers_are_true, declaring_step_is_sound};
use hm_due_law::answers::{answer_behind_is_due, look_answer_is_due};
use hm_due_law::tidy::{
    admitted_write_keeps_tidy, logged_read_keeps_tidy, repeated_request_stands,
};

/// What holds of a group of Viewstamped Replication holds of one of odd size before its first event.
pub fn vr_holds_at_first()
    ensures { (setup : Setup) → setup.kind ≡ Vr → HasQuorums setup.size → VrHolds (opens setup) }
{
    replicas_open();
}

/// Each step that a live replica may take is as it is owed, timeouts and the steps of a view change too, where no live replica takes
/// anything of a switch below one of which a write was committed.
pub fn vr_steps_are_sound()
    ensures { (w : World) → Core w → OneAccepted w → VrHolds w → StepsSound w }
{
    answer_behind_is_due();
    look_answer_is_due();
    admitted_write_keeps_tidy();
    logged_read_keeps_tidy();
    repeated_request_stands();
    declared_answers_are_true();
    true_packet_stays_true();
    lists_go_on_holding();
    declaring_step_is_sound();
}

/// It goes on holding, whatever an event changes, under the same premise.
pub fn vr_goes_on()
    ensures { (w new : World) → Core w → OneAccepted w → VrHolds w → Change w new → VrHolds new }
{
    answer_behind_is_due();
    look_answer_is_due();
    admitted_write_keeps_tidy();
    logged_read_keeps_tidy();
    repeated_request_stands();
    declared_answers_are_true();
    true_packet_stays_true();
    lists_go_on_holding();
}
