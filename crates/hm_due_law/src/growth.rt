ghost use Rattle.std.specs.Prelude.{◌≡◌, ℕ, ◌≤◌, true, ◌<◌, List, [], ◌∷◌, ◌++◌, length};
ghost use Rattle.hm_base.specs.declared.stamp.Stamp.{Stamp};
ghost use Rattle.hm_base.specs.declared.entry.Entry.{Entry};
ghost use Rattle.hm_base.specs.declared.operation.Answer.{Answer};
ghost use Rattle.hm_base.specs.declared.operation.OpId.{OpId};
ghost use Rattle.hm_base.specs.Logs.{is_write};
ghost use Rattle.hm_order.specs.declared.mark.Mark.{Mark};
ghost use Rattle.hm_order.specs.declared.mark.Mark.TheVariants.{Reply};
ghost use Rattle.hm_order.specs.Marks.{At};
ghost use Rattle.hm_order.specs.Legal.{IsWellFormed, IsDue};
ghost use Rattle.hm_due_law.specs.Declared.{Records, NoneAbove};
ghost use Rattle.hm_due_law.specs.Answers.{IsDueNow};
ghost use Rattle.hm_due_law.specs.Agreed.{Agree};
ghost use Rattle.hm_due_law.specs.Laws.{DueReplyStaysDue, CleanReadIsFresh, FreshReadStaysFresh, InvocationKeepsAgreement, DeclaringKeepsAgreement, DueReplyKeepsAgreement};

/// A reply that is due stays due whatever marks follow, and is due once it is taken.
pub fn due_reply_stays_due()
    ensures stays { DueReplyStaysDue }
    ensures taken { (history : List Mark) (op : OpId) (reply : Stamp × Answer)
        → IsWellFormed history
        → IsDueNow history op reply
        → IsDue (history ++ Reply op reply.0 reply.1 ∷ []) (length history) op reply.0 reply.1 }
{}

/// A read is fresh when a switch stamps it with the number of a declared write, above which the switch has numbered no write of
/// the read's object (a clean object in Harmonia).
pub fn clean_read_is_fresh()
    ensures { CleanReadIsFresh }
{}

/// A fresh read stays fresh whatever marks and declared entries follow.
pub fn fresh_read_stays_fresh()
    ensures { FreshReadStaysFresh }
{}

/// Without a mark and an entry, history and declared list agree.
pub fn beginning_agrees()
    ensures { Agree [] [] }
{}

/// They go on agreeing where an operation is invoked that wasn't before.
pub fn invocation_keeps_agreement()
    ensures { InvocationKeepsAgreement }
{}

/// They go on agreeing where entries are declared whose operations were invoked, with a Commit for each write, and the list
/// stays tidy.
pub fn declaring_keeps_agreement()
    ensures { DeclaringKeepsAgreement }
{}

/// They go on agreeing where an operation takes its first reply, and it is due.
pub fn due_reply_keeps_agreement()
    ensures { DueReplyKeepsAgreement }
{}

/// No Commit is of a later switch where no declared write is.
pub fn commits_are_of_declared_switches()
    ensures { (history : List Mark) (declared : List Entry) (switch : ℕ)
        → Records history declared
        → ((place : ℕ) (write : Entry) → At declared place write → is_write write ≡ true → write.stamp.switch ≤ switch)
        → NoneAbove history switch }
{}
