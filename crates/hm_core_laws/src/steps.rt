ghost use Rattle.hm_core_laws.specs.Laws.{QuietStepIsSound, QuietStepDeclaresNothing, DeclaringStepIsSound, DeclaredAnswersAreSent, DeclaredAnswersAreTrue};

use hm_due_law::answers::look_answer_is_due;
use hm_due_law::growth::{declaring_keeps_agreement, due_reply_stays_due, fresh_read_stays_fresh};
use hm_due_law::tidy::prefix_is_tidy;

/// A step that leaves a replica's lists and declares nothing is as it is owed, where the packets that it sends are true.
pub fn quiet_step_is_sound()
    ensures sound { QuietStepIsSound }
    ensures rests { QuietStepDeclaresNothing }
{
    due_reply_stays_due();
    fresh_read_stays_fresh();
}

/// A step is as it is owed where its lists are of requests that were made and are in order, it declares a longer list and applies what
/// is declared, and each of its packets stays true in every later world.
pub fn declaring_step_is_sound()
    ensures { DeclaringStepIsSound }
{
    prefix_is_tidy();
    declaring_keeps_agreement();
}

/// The answers to a declared range of a log are true: completions of declared writes, and replies to declared reads.
pub fn declared_answers_are_true()
    ensures senders { DeclaredAnswersAreSent }
    ensures holds { DeclaredAnswersAreTrue }
{
    look_answer_is_due();
}
