ghost use Rattle.std.specs.Prelude.{Bool};
ghost use Rattle.hm_rules.specs.Events.{Setup, Event};
ghost use Rattle.hm_rules.specs.World.{World, opens};
ghost use Rattle.hm_rules.specs.Happens.{happens};
ghost use Rattle.hm_core_laws.specs.Core.{Core};
ghost use Rattle.hm_core_laws.specs.Accepted.{OneAccepted};
ghost use Rattle.hm_replacement_laws.specs.Replacement.{ReplacementHolds, NoneStartedAbove, StampsNeverFall, StampsEnd};

use hm_core_laws::epochs::replicas_open;
use hm_core_laws::events::{events_are_changes, started_switches_are_counted};
use hm_due_law::growth::commits_are_of_declared_switches;
use hm_step_laws::steps::every_step_keeps;

/// The facts on replaced switches hold before the first event, whatever the setup.
pub fn replacement_holds_at_first()
    ensures { (setup : Setup) → ReplacementHolds (opens setup) }
{
    replicas_open();
}

/// Each event keeps the facts on replaced switches, whatever the protocol of the replicas.
pub fn events_keep_replacement()
    ensures { (w : World) (e : Event) (refuse : Bool) → ReplacementHolds w → ReplacementHolds (happens w e refuse).world }
{
    events_are_changes();
    every_step_keeps();
}

/// No switch was started that is above the one that a live replica takes.
pub fn no_switch_above()
    ensures { (w : World) → Core w → ReplacementHolds w → NoneStartedAbove w }
{
    started_switches_are_counted();
}

/// No live replica takes writes or stamped reads of a switch that is below one of which a write was committed.
pub fn one_switch_is_accepted()
    ensures { (w : World) → Core w → ReplacementHolds w → OneAccepted w }
{
    no_switch_above();
    started_switches_are_counted();
    commits_are_of_declared_switches();
}

/// No entry of the declared list has a lower stamp than one before it, of whichever switches they are.
pub fn declared_stamps_never_fall()
    ensures { (w : World) → Core w → StampsNeverFall w.declared }
{}

/// A read that a switch stamped is answered by its stamp only before the next switch was started: from then on each live replica
/// treats it as a read without a stamp.
pub fn stamps_end_with_their_switch()
    ensures { (w : World) → Core w → ReplacementHolds w → StampsEnd w }
{
    no_switch_above();
}
