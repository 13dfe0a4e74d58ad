ghost use Rattle.std.specs.Prelude.{◌≡◌, ℕ, ◌<◌, ◌↔◌, true, List, length};
ghost use Rattle.hm_base.specs.declared.entry.Entry.{Entry};
ghost use Rattle.hm_base.specs.Lists.{IsPrefix};
ghost use Rattle.hm_base.specs.Logs.{is_write, end_stamp};
ghost use Rattle.hm_base.specs.Stamps.{◌≼◌};
ghost use Rattle.hm_order.specs.Marks.{At, op_of};
ghost use Rattle.hm_due_law.specs.Tidy.{IsTidy};
ghost use Rattle.hm_due_law.specs.Laws.{PrefixIsTidy, AdmittedWriteKeepsTidy, LoggedReadKeepsTidy, RepeatedRequestStands};

/// A prefix of a tidy list is tidy.
pub fn prefix_is_tidy()
    ensures { PrefixIsTidy }
{}

/// A list stays tidy with each write that an entry node takes behind it.
pub fn admitted_write_keeps_tidy()
    ensures { AdmittedWriteKeepsTidy }
{}

/// A list stays tidy with each new logged read behind it that has the stamp at its end.
pub fn logged_read_keeps_tidy()
    ensures { LoggedReadKeepsTidy }
{}

/// A write of a tidy list lies within a prefix exactly where its stamp is at most the prefix's end.
pub fn stamp_tells_the_place()
    ensures { (front whole : List Entry) (place : ℕ) (write : Entry)
        → IsPrefix front whole
        → IsTidy whole
        → At whole place write
        → is_write write ≡ true
        → (place < length front) ↔ (write.stamp ≼ end_stamp front) }
{}

/// An operation stands at most once in a tidy list.
pub fn operation_stands_once()
    ensures { (log : List Entry) (first second : ℕ) (one other : Entry)
        → IsTidy log
        → At log first one
        → At log second other
        → op_of one ≡ op_of other
        → first ≡ second }
{}

/// A write's stamp stands at most once among the writes of a tidy list.
pub fn stamp_stands_once()
    ensures { (log : List Entry) (first second : ℕ) (one other : Entry)
        → IsTidy log
        → At log first one
        → At log second other
        → is_write one ≡ true
        → is_write other ≡ true
        → one.stamp ≡ other.stamp
        → first ≡ second }
{}

/// A request that a log has as its client's greatest stands at the place that the verdict names.
pub fn repeated_request_stands()
    ensures { RepeatedRequestStands }
{}
