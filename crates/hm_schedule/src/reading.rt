ghost use Rattle.std.specs.Prelude.{◌≡◌, ◌≢◌, ◌++◌, [], ℕ, List, Some, IfOk, MatchResult};
ghost use Rattle.hm_outside.specs.Faults.{Counts};
ghost use Rattle.hm_schedule.specs.LineTexts.{IsLine};
ghost use Rattle.hm_schedule.specs.Orders as orders;
ghost use Rattle.hm_schedule.specs.Orders.{IsNext, line_bytes};
ghost use Rattle.hm_schedule.specs.Schedules.{line_text};
ghost use Rattle.hm_schedule.specs.Lines.{Moves};
ghost use Rattle.hm_schedule.specs.Refusals.{IsFull};
ghost use Rattle.hm_schedule.specs.Stages.{stage_at};
ghost use Rattle.hm_schedule.specs.Nexts.{ComesOrFails, IsSpelledBy, EventComesOrFails, OpensOrFails};

use crate::event::Event;
use crate::limits::MAX_EVENTS;
use crate::line::{Line, LineReason, line_of};
use crate::lines::{Found, LineReader};
use crate::opening::Opening;
use crate::reason::first_reason;
use crate::refusal::Refusal;
use crate::stage::Stage;
use hm_outside::device::{Failed, Source};

/// What comes next of a schedule: a line that may come there, the end of the schedule, or bytes that are outside the grammar.
#[derive(Clone, Copy, Debug, PartialEq, Eq)]
enum Next {
    Line(Line),
    End,
    Refused(Refusal),
}

/// What comes next where an event may stand.
#[derive(Clone, Copy, Debug, PartialEq, Eq)]
pub enum NextEvent {
    Event(Event),
    End,
    Refused(Refusal),
}

/// Reads the opening lines of a schedule, and what comes behind them.
pub fn read_opening<S: Source>(
    reader: &mut LineReader,
    source: &mut S,
) -> Result<(Opening, NextEvent), Failed>
    requires { reader.old.ahead ≡ [] }
    ensures opens { OpensOrFails result reader.new.ahead (S.left source.old) (S.left source.new) }
    ensures counted { Counts (S.faults source.old) (S.faults source.new) result }
{
    let mut opening = Opening::fresh();
    loop {
        match next_line(reader, source, opening.stage) {
            Ok(Next::Line(Line::Event(event))) => return Ok((opening, NextEvent::Event(event))),
            Ok(Next::Line(line)) => opening = opening.with(&line),
            Ok(Next::End) => return Ok((opening, NextEvent::End)),
            Ok(Next::Refused(refusal)) => return Ok((opening, NextEvent::Refused(refusal))),
            Err(failed) => return Err(failed),
        }
    }
}

/// Reads what comes next behind so many events. Behind as many as a schedule may have, any byte is one too many. Most lines are
/// `next`, so this one is looked for first.
pub fn next_event<S: Source>(
    reader: &mut LineReader,
    source: &mut S,
    events: u32,
) -> Result<NextEvent, Failed>
    ensures next { EventComesOrFails result (orders.Stage.Running events) reader.old.ahead reader.new.ahead (S.left source.old) (S.left source.new) }
    ensures counted { Counts (S.faults source.old) (S.faults source.new) result }
{
    if events < MAX_EVENTS && reader.cut_next() {
        return Ok(NextEvent::Event(Event::Next));
    }
    any_event(reader, source, events)
}

/// Reads what comes next behind so many events, whatever it is.
#[inline(never)]
fn any_event<S: Source>(
    reader: &mut LineReader,
    source: &mut S,
    events: u32,
) -> Result<NextEvent, Failed>
    ensures next { EventComesOrFails result (orders.Stage.Running events) reader.old.ahead reader.new.ahead (S.left source.old) (S.left source.new) }
    ensures counted { Counts (S.faults source.old) (S.faults source.new) result }
{
    match next_line(reader, source, Stage::Running(events)) {
        Ok(Next::Line(Line::Event(event))) => Ok(NextEvent::Event(event)),
        Ok(Next::Line(_)) => Ok(NextEvent::Refused(Refusal::Bad(LineReason::Header))),
        Ok(Next::End) => Ok(NextEvent::End),
        Ok(Next::Refused(refusal)) => Ok(NextEvent::Refused(refusal)),
        Err(failed) => Err(failed),
    }
}

/// Reads what comes next of a schedule.
fn next_line<S: Source>(
    reader: &mut LineReader,
    source: &mut S,
    stage: Stage,
) -> Result<Next, Failed>
    ensures next { ComesOrFails result (stage_at stage) reader.old.ahead reader.new.ahead (S.left source.old) (S.left source.new) }
    ensures counted { Counts (S.faults source.old) (S.faults source.new) result }
{
    if stage.is_full() {
        return behind_the_last(reader, source);
    }
    match reader.next(source) {
        Ok(Found::Line) => Ok(spelled_by(reader.line(), stage)),
        Ok(Found::End) => Ok(ending(stage)),
        Ok(Found::Unfinished) => Ok(Next::Refused(Refusal::Bad(LineReason::End))),
        Ok(Found::Long) => Ok(Next::Refused(Refusal::TooLong)),
        Err(failed) => Err(failed),
    }
}

/// What the bytes of a line are, without its end.
fn spelled_by(bytes: &[u8], stage: Stage) -> Next
    requires { IsFull (stage_at stage) → ⊥ }
    ensures { IsSpelledBy (stage_at stage) result bytes.now }
{
    match line_of(bytes) {
        Some(line) if stage.allows(&line) => Next::Line(line),
        _ => Next::Refused(Refusal::Bad(first_reason(bytes, Some(stage)))),
    }
}

/// Reads what comes behind as many events as a schedule may have: any byte is one too many.
fn behind_the_last<S: Source>(reader: &mut LineReader, source: &mut S) -> Result<Next, Failed>
    ensures next { (stage : orders.Stage) → IsFull stage → ComesOrFails result stage reader.old.ahead reader.new.ahead (S.left source.old) (S.left source.new) }
    ensures counted { Counts (S.faults source.old) (S.faults source.new) result }
{
    match reader.has_more(source) {
        Ok(true) => Ok(Next::Refused(Refusal::TooLong)),
        Ok(false) => Ok(Next::End),
        Err(failed) => Err(failed),
    }
}

/// What the end of the input is.
fn ending(stage: Stage) -> Next
    ensures end { stage_at stage ≢ orders.Stage.Fresh → result ≡ Next.End }
    ensures bad { stage_at stage ≡ orders.Stage.Fresh → result ≡ Next.Refused (Refusal.Bad LineReason.Header) }
{
    match stage {
        Stage::Fresh => Next::Refused(Refusal::Bad(LineReason::Header)),
        Stage::Setting(_) => Next::End,
        Stage::Running(_) => Next::End,
    }
}
