ghost use Rattle.std.specs.Prelude.{◌≡◌, ℕ, Bool, List};
ghost use Rattle.hm_base.specs.declared.node.GroupKind.TheVariants.{Chain, Primary, Vr};
ghost use Rattle.hm_order.specs.Legal.{IsWellFormed, AllDue, IsLegal};
ghost use Rattle.hm_order.specs.Order.{order};
ghost use Rattle.hm_rules.specs.Events.{Setup, Event};
ghost use Rattle.hm_rules.specs.World.{World, opens};
ghost use Rattle.hm_rules.specs.Happens.{happens};
ghost use Rattle.hm_rules.specs.Runs.{run};
ghost use Rattle.hm_core_laws.specs.Owed.{StepsSound};
ghost use Rattle.hm_replacement_laws.specs.Replacement.{StampsNeverFall, StampsEnd};
ghost use Rattle.hm_vr_laws.specs.Voted.{HasQuorums};
ghost use Rattle.hm_group_laws.specs.Groups.{CanForm, IsLinearizable, IsSound};

use hm_chain_laws::chain::{chain_goes_on, chain_holds_at_first, chain_steps_are_sound};
use hm_core_laws::events::{
    core_explains_history, core_holds_at_first, events_are_changes, events_keep_core,
};
use hm_primary_laws::primary::{primary_goes_on, primary_holds_at_first, primary_steps_are_sound};
use hm_replacement_laws::replacement::{
    declared_stamps_never_fall, events_keep_replacement, one_switch_is_accepted,
    replacement_holds_at_first, stamps_end_with_their_switch,
};
use hm_vr_laws::vr::{vr_goes_on, vr_holds_at_first, vr_steps_are_sound};

/// In a sound world each step that a live replica may take is as it is owed: what it sends is true, and what it declares goes on from
/// the declared list.
pub fn sound_group_is_ready()
    ensures { (w : World) → IsSound w → StepsSound w }
{
    one_switch_is_accepted();
    chain_steps_are_sound();
    primary_steps_are_sound();
    vr_steps_are_sound();
}

/// A group of any kind is sound before its first event, and stays sound in every event.
pub fn group_stays_sound()
    ensures opens { (setup : Setup) → CanForm setup → IsSound (opens setup) }
    ensures happens { (w : World) (e : Event) (refuse : Bool) → IsSound w → IsSound (happens w e refuse).world }
{
    core_holds_at_first();
    replacement_holds_at_first();
    chain_holds_at_first();
    primary_holds_at_first();
    vr_holds_at_first();
    events_are_changes();
    events_keep_core();
    events_keep_replacement();
    one_switch_is_accepted();
    sound_group_is_ready();
    chain_goes_on();
    primary_goes_on();
    vr_goes_on();
}

/// Every group is sound after every schedule, wherever a switch refuses a write.
pub fn every_group_is_sound()
    ensures { (setup : Setup) (es : List Event) (refused : List ℕ) → CanForm setup → IsSound (run (opens setup) es refused) }
{
    group_stays_sound();
}

/// Switches follow one another in every group, after every schedule: no entry of the declared list has a lower stamp than one before
/// it, and a read that a switch stamped is answered by its stamp only before the next switch was started.
pub fn every_group_replaces_its_switches()
    ensures stamps { (setup : Setup) (es : List Event) (refused : List ℕ) → CanForm setup → StampsNeverFall (run (opens setup) es refused).declared }
    ensures reads { (setup : Setup) (es : List Event) (refused : List ℕ) → CanForm setup → StampsEnd (run (opens setup) es refused) }
{
    every_group_is_sound();
    declared_stamps_never_fall();
    stamps_end_with_their_switch();
}

/// Every group is linearizable, be it a chain, of primary-backup or of Viewstamped Replication: after every schedule of writes, reads,
/// lost, late and repeated packets, stops, removals, timeouts, view changes, ticks and replaced switches, wherever a switch refuses a
/// write, the history is well formed, each of its replies is due, and its order explains it.
pub fn every_group_is_linearizable()
    ensures formed { (setup : Setup) (es : List Event) (refused : List ℕ) → CanForm setup → IsWellFormed (run (opens setup) es refused).history }
    ensures due { (setup : Setup) (es : List Event) (refused : List ℕ) → CanForm setup → AllDue (run (opens setup) es refused).history }
    ensures legal { (setup : Setup) (es : List Event) (refused : List ℕ)
        → CanForm setup
        → IsLegal (run (opens setup) es refused).history (order (run (opens setup) es refused).history) }
{
    every_group_is_sound();
    core_explains_history();
}

/// A chain of any length is linearizable (van Renesse and Schneider, with Harmonia's reads at every member).
pub fn chain_is_linearizable()
    ensures { (setup : Setup) (es : List Event) (refused : List ℕ) → setup.kind ≡ Chain → IsLinearizable (run (opens setup) es refused).history }
{
    every_group_is_linearizable();
}

/// A primary with any number of backups is linearizable, whoever of them stops.
pub fn primary_is_linearizable()
    ensures { (setup : Setup) (es : List Event) (refused : List ℕ) → setup.kind ≡ Primary → IsLinearizable (run (opens setup) es refused).history }
{
    every_group_is_linearizable();
}

/// A group of Viewstamped Replication of odd size is linearizable, whoever times out and whatever views follow.
pub fn vr_is_linearizable()
    ensures { (setup : Setup) (es : List Event) (refused : List ℕ)
        → setup.kind ≡ Vr
        → HasQuorums setup.size
        → IsLinearizable (run (opens setup) es refused).history }
{
    every_group_is_linearizable();
}
