//! How often what happened in a run.

ghost use Rattle.std.specs.Prelude.{◌≡◌, ◌∷◌, ◌++◌, ◌+◌, ◌<◌, [], List, bytes_eq, codes, count_by, length, OnOk};
ghost use Rattle.hm_order.specs.declared.mark.Mark.{Mark};
ghost use Rattle.hm_order.specs.Order.{order};
ghost use Rattle.hm_packet.specs.declared.outcome.Outcome.{Outcome};
ghost use Rattle.hm_rules.specs.World.{World};
ghost use Rattle.hm_rules.specs.RunText.{count_line, marks_line, mark_word, world_counts};
ghost use Rattle.hm_schedule.specs.Limits.{max_events};
ghost use Rattle.hm_replay.specs.Summaries.{counts_of, counts_text, taken_text, refused_text};

use hm_base::buffer::Text;
use hm_base::memory::NoMemory;
use hm_base::text::{write_bytes, write_number};
use hm_order::mark::Mark;
use hm_packet::outcome::Outcome;

/// How many events ended in each way.
#[derive(Clone, Copy, Debug, PartialEq, Eq)]
pub struct Counts {
    pub ok: u32,
    pub ignored: u32,
    pub full: u32,
    pub spent: u32,
    pub log_full: u32,
    pub barred: u32,
}

impl Counts {
    /// The counts of no event.
    pub fn none() -> Counts
        ensures { result ≡ counts_of [] }
    {
        Counts {
            ok: 0,
            ignored: 0,
            full: 0,
            spent: 0,
            log_full: 0,
            barred: 0,
        }
    }

    /// Counts one event more, of those that a schedule has at most.
    pub fn add(&mut self, outcome: Outcome)
        requires { (ends : List Outcome) × (length ends < max_events) × (self.old ≡ counts_of ends) }
        ensures { (ends : List Outcome) → self.old ≡ counts_of ends → self.new ≡ counts_of (ends ++ outcome ∷ []) }
    {
        match outcome {
            Outcome::Ok { .. } => self.ok += 1,
            Outcome::Ignored(_) => self.ignored += 1,
            Outcome::Full => self.full += 1,
            Outcome::Spent => self.spent += 1,
            Outcome::LogFull => self.log_full += 1,
            Outcome::NotAllowed(_) => self.barred += 1,
        }
    }
}

/// Appends the line of a count. After want of memory `out` may hold a part of it, here and in the other calls of this module.
fn write_count(name: &str, count: u64, out: &mut Text) -> Result<(), NoMemory>
    ensures { OnOk result (out.new.items ≡ out.old.items ++ count_line name.now count) }
{
    write_bytes(name.as_bytes(), out)?;
    write_bytes(b" ", out)?;
    write_number(count, out)?;
    write_bytes(b"\n", out)
}

/// Appends the lines of how many events there were, and how many ended in each way.
pub fn write_outcomes(events: u32, counts: &Counts, out: &mut Text) -> Result<(), NoMemory>
    ensures { OnOk result (out.new.items ≡ out.old.items ++ counts_text events counts.now) }
{
    write_count("events", u64::from(events), out)?;
    write_taken(counts, out)?;
    write_refused(counts, out)
}

/// Appends the lines of how many events were taken, ignored or found a full table.
fn write_taken(counts: &Counts, out: &mut Text) -> Result<(), NoMemory>
    ensures { OnOk result (out.new.items ≡ out.old.items ++ taken_text counts.now) }
{
    write_count("ok", u64::from(counts.ok), out)?;
    write_count("ignored", u64::from(counts.ignored), out)?;
    write_count("full", u64::from(counts.full), out)
}

/// Appends the lines of how many events found a spent switch or a full log, or were barred.
fn write_refused(counts: &Counts, out: &mut Text) -> Result<(), NoMemory>
    ensures { OnOk result (out.new.items ≡ out.old.items ++ refused_text counts.now) }
{
    write_count("spent", u64::from(counts.spent), out)?;
    write_count("logfull", u64::from(counts.log_full), out)?;
    write_count("barred", u64::from(counts.barred), out)
}

/// Appends the lines of how many marks of each kind there are.
pub fn write_marked(marks: &[Mark], out: &mut Text) -> Result<(), NoMemory>
    ensures { OnOk result (out.new.items ≡ out.old.items ++ (marks_line marks.now (codes "invoked") (codes "invoke") ++ (marks_line marks.now (codes "committed") (codes "commit") ++ marks_line marks.now (codes "replied") (codes "reply")))) }
{
    write_count("invoked", invoked(marks) as u64, out)?;
    write_count("committed", committed(marks) as u64, out)?;
    write_count("replied", replied(marks) as u64, out)
}

/// How many operations were invoked.
fn invoked(marks: &[Mark]) -> usize
    ensures { result ≡ count_by (λ m. bytes_eq (mark_word m) (codes "invoke")) marks.now }
{
    marks
        .iter()
        .filter(|mark| matches!(mark, Mark::Invoke { .. }))
        .count()
}

/// How many writes were committed.
fn committed(marks: &[Mark]) -> usize
    ensures { result ≡ count_by (λ m. bytes_eq (mark_word m) (codes "commit")) marks.now }
{
    marks
        .iter()
        .filter(|mark| matches!(mark, Mark::Commit { .. }))
        .count()
}

/// How many replies were taken.
fn replied(marks: &[Mark]) -> usize
    ensures { result ≡ count_by (λ m. bytes_eq (mark_word m) (codes "reply")) marks.now }
{
    marks
        .iter()
        .filter(|mark| matches!(mark, Mark::Reply { .. }))
        .count()
}

/// Appends the end of a summary: how many packets were sent, how many marks of each kind there are, and how many operations stand
/// in their order.
pub fn write_end(
    packets: u32,
    marks: &[Mark],
    ordered: usize,
    out: &mut Text,
) -> Result<(), NoMemory>
    ensures { OnOk result ((w : World) → packets ≡ length w.net → marks.now ≡ w.history → ordered ≡ length (order w.history) → out.new.items ≡ out.old.items ++ world_counts w) }
{
    write_count("packets", u64::from(packets), out)?;
    write_marked(marks, out)?;
    write_count("ordered", ordered as u64, out)?;
    write_bytes(b"end\n", out)
}
