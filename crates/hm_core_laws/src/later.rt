ghost use Rattle.hm_core_laws.specs.Laws.{TruePacketStaysTrue, SourcedListStaysSourced, ListGoesOnHolding, FrontHolds};

use hm_due_law::growth::{due_reply_stays_due, fresh_read_stays_fresh};
use hm_due_law::tidy::prefix_is_tidy;

/// What is true of a packet stays true as history, declared list and net grow.
pub fn true_packet_stays_true()
    ensures { TruePacketStaysTrue }
{
    due_reply_stays_due();
    fresh_read_stays_fresh();
}

/// A list of requests that were made and are in order stays one as history and net grow, and each front of it is one.
pub fn lists_go_on_holding()
    ensures sources { SourcedListStaysSourced }
    ensures later { ListGoesOnHolding }
    ensures front { FrontHolds }
{
    prefix_is_tidy();
}
