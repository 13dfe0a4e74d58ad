ghost use Rattle.std.specs.Prelude.{◌≡◌, ℕ, ◌≤◌, Bool, Some, IsSome};
ghost use Rattle.hm_base.specs.declared.entry.Entry.{Entry};
ghost use Rattle.hm_order.specs.Legal.{IsLegal};
ghost use Rattle.hm_order.specs.Order.{order};
ghost use Rattle.hm_rules.specs.Events.{Setup, Event};
ghost use Rattle.hm_rules.specs.Switch.{AbstractSwitch};
ghost use Rattle.hm_rules.specs.World.{World, opens, switch_at};
ghost use Rattle.hm_rules.specs.Happens.{happens};
ghost use Rattle.hm_core_laws.specs.Sourced.{IsNumbered};
ghost use Rattle.hm_core_laws.specs.Core.{Core};
ghost use Rattle.hm_core_laws.specs.Changes.{Change};
ghost use Rattle.hm_core_laws.specs.Owed.{StepsSound};

use hm_due_law::answers::completion_is_due;
use hm_due_law::growth::{
    beginning_agrees, clean_read_is_fresh, declaring_keeps_agreement, due_reply_keeps_agreement,
    due_reply_stays_due, fresh_read_stays_fresh, invocation_keeps_agreement,
};
use hm_due_law::tidy::prefix_is_tidy;
use hm_order::law::order_is_legal;

/// The core facts hold before the first event, whatever the setup.
pub fn core_holds_at_first()
    ensures { (setup : Setup) → Core (opens setup) }
{
    beginning_agrees();
}

/// Each event keeps the core facts, where each step of a live replica is as its protocol owes it.
pub fn events_keep_core()
    ensures { (w : World) (e : Event) (refuse : Bool) → Core w → StepsSound w → Core (happens w e refuse).world }
{
    completion_is_due();
    prefix_is_tidy();
    due_reply_stays_due();
    clean_read_is_fresh();
    fresh_read_stays_fresh();
    invocation_keeps_agreement();
    due_reply_keeps_agreement();
    declaring_keeps_agreement();
}

/// An event lets one live replica take a step, or removes a stopped member, or changes nothing that a protocol's own facts
/// speak of.
pub fn events_are_changes()
    ensures { (w : World) (e : Event) (refuse : Bool) → Change w (happens w e refuse).world }
{}

/// From the core facts follows that the history's order explains it.
pub fn core_explains_history()
    ensures { (w : World) → Core w → IsLegal w.history (order w.history) }
{
    order_is_legal();
}

/// The number of a started switch is at most the service's newest, and a numbered write is of a started switch.
pub fn started_switches_are_counted()
    ensures counted { (w : World) (number : ℕ) (s : AbstractSwitch) → Core w → switch_at w number ≡ Some s → number ≤ w.service.newest }
    ensures numbered { (w : World) (e : Entry) → Core w → IsNumbered w.net e → IsSome (switch_at w e.stamp.switch) }
{}
