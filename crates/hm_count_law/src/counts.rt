ghost use Rattle.std.specs.Prelude.{◌≡◌, List, count_by, length};
ghost use Rattle.hm_order.specs.declared.mark.Mark.{Mark};
ghost use Rattle.hm_order.specs.Legal.{IsWellFormed, AllDue};
ghost use Rattle.hm_order.specs.Order.{order};
ghost use Rattle.hm_count_law.specs.Ends.{ends_one};

use hm_base::operation::Answer;
use hm_order::law::order_is_legal;
use hm_order::mark::Mark;

/// Where a history is well formed and each of its replies is due, its order has one operation for each Commit and for each reply
/// to a read.
pub fn order_counts()
    ensures { (h : List Mark) → IsWellFormed h → AllDue h → length (order h) ≡ count_by ends_one h }
{
    order_is_legal();
}

/// How many operations stand in the order of a history that is well formed and each of whose replies is due.
pub fn ordered_count(marks: &[Mark]) -> usize
    ensures { IsWellFormed marks.now → AllDue marks.now → result ≡ length (order marks.now) }
{
    order_counts();
    marks.iter().filter(|mark| stands(mark)).count()
}

/// Whether the mark is one of those that the order has an operation for.
fn stands(mark: &Mark) -> bool
    ensures { result ≡ ends_one mark.now }
{
    match mark {
        Mark::Invoke { .. } => false,
        Mark::Commit { .. } => true,
        Mark::Reply { answer, .. } => !matches!(answer, Answer::Wrote),
    }
}
