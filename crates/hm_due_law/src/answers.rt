ghost use Rattle.std.specs.Prelude.{ℕ, List};
ghost use Rattle.hm_base.specs.declared.entry.Entry.{Entry};
ghost use Rattle.hm_base.specs.declared.operation.OpId.{OpId};
ghost use Rattle.hm_base.specs.Logs.{latest};
ghost use Rattle.hm_order.specs.declared.mark.Mark.{Mark};
ghost use Rattle.hm_due_law.specs.Answers.{IsDueNow, PrefixAnswer};
ghost use Rattle.hm_due_law.specs.Laws.{WholeListAnswerIsDue, AnswerAheadIsDue, AnswerBehindIsDue, LookAnswerIsDue, CompletionIsDue};

/// A read may be answered from a prefix of the declared list where no write of its object that lies beyond the prefix was
/// committed before the read was invoked.
pub fn prefix_answer_is_due()
    ensures { (history : List Mark) (declared applied : List Entry) (op : OpId) (object : ℕ)
        → PrefixAnswer history declared applied op object
        → IsDueNow history op (latest applied object) }
{}

/// A read may be answered from the whole declared list: by a chain's tail, or by a primary whose own log is declared.
pub fn whole_list_answer_is_due()
    ensures { WholeListAnswerIsDue }
{}

/// A stamped read may be answered by a replica whose log runs ahead of the declared list, where the read-ahead test lets it
/// through and the write of the stamp is declared (Harmonia over primary-backup and chain replication).
pub fn answer_ahead_is_due()
    ensures { AnswerAheadIsDue }
{}

/// A stamped read may be answered by a replica that applies only what is declared, where the read-behind test lets it through,
/// the read is fresh, and no later switch than the accepted one has a write committed (Harmonia over Viewstamped Replication).
pub fn answer_behind_is_due()
    ensures { AnswerBehindIsDue }
{}

/// A logged read may be answered from any prefix of the declared list that has it.
pub fn look_answer_is_due()
    ensures { LookAnswerIsDue }
{}

/// A declared write may be answered, with its own stamp.
pub fn completion_is_due()
    ensures { CompletionIsDue }
{}
