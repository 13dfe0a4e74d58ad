//! The fields behind a line's first word.

ghost use Rattle.std.specs.Prelude.{◌≡◌, ◌<◌, ◌≤◌, ◌^◌, ◌↔◌, IsTrue, ℕ, List, [], ◌∷◌, Some, IfSome, decimal};
ghost use Rattle.hm_base.specs.Spellings.{spaced, value_text};
ghost use Rattle.hm_base.specs.declared.node.GroupKind.{GroupKind};
ghost use Rattle.hm_schedule.specs.declared.event.Event.TheVariants as event;
ghost use Rattle.hm_schedule.specs.Names.{kind_text};
ghost use Rattle.hm_schedule.specs.Ranges.{IsTable, IsLife, IsCapacity};
ghost use Rattle.hm_schedule.specs.Reads.{Reads};
ghost use Rattle.hm_schedule.specs.Schedules.{IsWrite, IsRead, IsResend, IsLawful, IsLawfulGroup, keyword_in, field_words};

use crate::event::Event;
use crate::fields::{next_kind, next_number, next_small, next_value};
use crate::keyword::Keyword;
use crate::line::Line;
use crate::reason::has_size;
use hm_dirtyset::dirty_set::{MAX_BITS, MAX_STAGES};
use hm_store::ledger::MAX_LOG_LEN;
use hm_switch::switch::MAX_LIFE;

/// The line with this keyword whose fields a text spells. None exactly for any other text.
pub(crate) fn read_fields(keyword: Keyword, fields: &[u8]) -> Option<Line>
    ensures some { IfSome result (λ l. Reads keyword fields.now l) }
    ensures only { (l : Line) → Reads keyword fields.now l → result ≡ Some l }
{
    match keyword {
        Keyword::Group => read_group(fields),
        Keyword::Table => read_table(fields),
        Keyword::Life => read_life(fields),
        Keyword::Log => read_log(fields),
        Keyword::Write => read_write(fields),
        Keyword::Read => read_read(fields),
        Keyword::Resend => read_resend(fields),
        Keyword::Deliver => read_deliver(fields),
        Keyword::Next => read_next(fields),
        Keyword::Drop => read_drop(fields),
        Keyword::Tick => read_tick(fields),
        Keyword::Stop => read_stop(fields),
        Keyword::Remove => read_remove(fields),
        Keyword::Timeout => read_timeout(fields),
        Keyword::Retire => read_retire(fields),
        Keyword::Start => read_start(fields),
    }
}

/// The group: its protocol and its size.
fn read_group(fields: &[u8]) -> Option<Line>
    ensures some { IfSome result (λ l. Reads Keyword.Group fields.now l) }
    ensures only { (kind : GroupKind) → (size : ℕ) → IsLawfulGroup kind size → fields.now ≡ spaced (kind_text kind ∷ decimal size ∷ []) → result ≡ Some (Line.Group kind size) }
{
    let (kind, fields) = next_kind(fields)?;
    let (size, fields) = next_small(fields, 7)?;
    if !has_size(kind, size) || !fields.is_empty() {
        return None;
    }
    Some(Line::Group { kind, size })
}

/// The dirty table.
fn read_table(fields: &[u8]) -> Option<Line>
    ensures some { IfSome result (λ l. Reads Keyword.Table fields.now l) }
    ensures only { (stages bits : ℕ) → IsTable stages bits → fields.now ≡ spaced (decimal stages ∷ decimal bits ∷ []) → result ≡ Some (Line.Table stages bits) }
{
    let (stages, fields) = next_small(fields, MAX_STAGES)?;
    let (bits, fields) = next_small(fields, MAX_BITS)?;
    if stages == 0 || !fields.is_empty() {
        return None;
    }
    Some(Line::Table { stages, bits })
}

/// How many packets a switch handles.
fn read_life(fields: &[u8]) -> Option<Line>
    ensures some { IfSome result (λ l. Reads Keyword.Life fields.now l) }
    ensures only { (life : ℕ) → IsLife life → fields.now ≡ spaced (decimal life ∷ []) → result ≡ Some (Line.Life life) }
{
    let (life, fields) = next_number(fields)?;
    if life == 0 || life > MAX_LIFE || !fields.is_empty() {
        return None;
    }
    Some(Line::Life(life))
}

/// How many entries a log may have.
fn read_log(fields: &[u8]) -> Option<Line>
    ensures some { IfSome result (λ l. Reads Keyword.Log fields.now l) }
    ensures only { (cap : ℕ) → IsCapacity cap → fields.now ≡ spaced (decimal cap ∷ []) → result ≡ Some (Line.Log cap) }
{
    let (cap, fields) = next_number(fields)?;
    if cap == 0 || cap > MAX_LOG_LEN || !fields.is_empty() {
        return None;
    }
    Some(Line::Log(cap))
}

/// A write.
fn read_write(fields: &[u8]) -> Option<Line>
    ensures some { IfSome result (λ l. Reads Keyword.Write fields.now l) }
    ensures only { (client object : ℕ) → (value : List ℕ) → (switch : ℕ) → IsWrite client object value switch
        → fields.now ≡ spaced (decimal client ∷ decimal object ∷ value_text value ∷ decimal switch ∷ [])
        → result ≡ Some (Line.Event (event.Write client object value switch)) }
{
    let (client, fields) = next_number(fields)?;
    let (object, fields) = next_number(fields)?;
    let Some((value, fields)) = next_value(fields) else {
        return None;
    };
    let (switch, fields) = next_number(fields)?;
    if switch == 0 || !fields.is_empty() {
        return None;
    }
    Some(Line::Event(Event::Write {
        client,
        object,
        value,
        switch,
    }))
}

/// A read.
fn read_read(fields: &[u8]) -> Option<Line>
    ensures some { IfSome result (λ l. Reads Keyword.Read fields.now l) }
    ensures only { (client object switch : ℕ) → IsRead client object switch
        → fields.now ≡ spaced (decimal client ∷ decimal object ∷ decimal switch ∷ [])
        → result ≡ Some (Line.Event (event.Read client object switch)) }
{
    let (client, fields) = next_number(fields)?;
    let (object, fields) = next_number(fields)?;
    let (switch, fields) = next_number(fields)?;
    if switch == 0 || !fields.is_empty() {
        return None;
    }
    Some(Line::Event(Event::Read {
        client,
        object,
        switch,
    }))
}

/// A request that is sent again.
fn read_resend(fields: &[u8]) -> Option<Line>
    ensures some { IfSome result (λ l. Reads Keyword.Resend fields.now l) }
    ensures only { (client switch : ℕ) → IsResend client switch
        → fields.now ≡ spaced (decimal client ∷ decimal switch ∷ [])
        → result ≡ Some (Line.Event (event.Resend client switch)) }
{
    let (client, fields) = next_number(fields)?;
    let (switch, fields) = next_number(fields)?;
    if switch == 0 || !fields.is_empty() {
        return None;
    }
    Some(Line::Event(Event::Resend { client, switch }))
}

/// A packet that arrives.
fn read_deliver(fields: &[u8]) -> Option<Line>
    ensures some { IfSome result (λ l. Reads Keyword.Deliver fields.now l) }
    ensures only { (packet : ℕ) → packet < 2 ^ 32 → fields.now ≡ spaced (decimal packet ∷ []) → result ≡ Some (Line.Event (event.Deliver packet)) }
{
    let (packet, fields) = next_number(fields)?;
    if !fields.is_empty() {
        return None;
    }
    Some(Line::Event(Event::Deliver { packet }))
}

/// The next packet that arrives, where no field follows.
fn read_next(fields: &[u8]) -> Option<Line>
    ensures some { IfSome result (λ l. Reads Keyword.Next fields.now l) }
    ensures only { fields.now ≡ [] → result ≡ Some (Line.Event event.Next) }
{
    if fields.is_empty() {
        Some(Line::Event(Event::Next))
    } else {
        None
    }
}

/// The next packet that is lost, where no field follows.
fn read_drop(fields: &[u8]) -> Option<Line>
    ensures some { IfSome result (λ l. Reads Keyword.Drop fields.now l) }
    ensures only { fields.now ≡ [] → result ≡ Some (Line.Event event.Drop) }
{
    if fields.is_empty() {
        Some(Line::Event(Event::Drop))
    } else {
        None
    }
}

/// The one replica that the fields name.
fn read_replica(fields: &[u8]) -> Option<u8>
    ensures some { IfSome result (λ r. (r ≤ 6) × (fields.now ≡ spaced (decimal r ∷ []))) }
    ensures only { (r : ℕ) → r ≤ 6 → fields.now ≡ spaced (decimal r ∷ []) → result ≡ Some r }
{
    let (replica, fields) = next_small(fields, 6)?;
    if fields.is_empty() {
        Some(replica)
    } else {
        None
    }
}

/// A replica's clock that ticks.
fn read_tick(fields: &[u8]) -> Option<Line>
    ensures some { IfSome result (λ l. Reads Keyword.Tick fields.now l) }
    ensures only { (r : ℕ) → r ≤ 6 → fields.now ≡ spaced (decimal r ∷ []) → result ≡ Some (Line.Event (event.Tick r)) }
{
    let replica = read_replica(fields)?;
    Some(Line::Event(Event::Tick { replica }))
}

/// A replica that stops.
fn read_stop(fields: &[u8]) -> Option<Line>
    ensures some { IfSome result (λ l. Reads Keyword.Stop fields.now l) }
    ensures only { (r : ℕ) → r ≤ 6 → fields.now ≡ spaced (decimal r ∷ []) → result ≡ Some (Line.Event (event.Stop r)) }
{
    let replica = read_replica(fields)?;
    Some(Line::Event(Event::Stop { replica }))
}

/// A replica that is removed.
fn read_remove(fields: &[u8]) -> Option<Line>
    ensures some { IfSome result (λ l. Reads Keyword.Remove fields.now l) }
    ensures only { (r : ℕ) → r ≤ 6 → fields.now ≡ spaced (decimal r ∷ []) → result ≡ Some (Line.Event (event.Remove r)) }
{
    let replica = read_replica(fields)?;
    Some(Line::Event(Event::Remove { replica }))
}

/// A replica that has waited too long for its primary.
fn read_timeout(fields: &[u8]) -> Option<Line>
    ensures some { IfSome result (λ l. Reads Keyword.Timeout fields.now l) }
    ensures only { (r : ℕ) → r ≤ 6 → fields.now ≡ spaced (decimal r ∷ []) → result ≡ Some (Line.Event (event.Timeout r)) }
{
    let replica = read_replica(fields)?;
    Some(Line::Event(Event::Timeout { replica }))
}

/// A switch that is to be replaced, where no field follows.
fn read_retire(fields: &[u8]) -> Option<Line>
    ensures some { IfSome result (λ l. Reads Keyword.Retire fields.now l) }
    ensures only { fields.now ≡ [] → result ≡ Some (Line.Event event.Retire) }
{
    if fields.is_empty() {
        Some(Line::Event(Event::Retire))
    } else {
        None
    }
}

/// The next switch that is started, where no field follows.
fn read_start(fields: &[u8]) -> Option<Line>
    ensures some { IfSome result (λ l. Reads Keyword.Start fields.now l) }
    ensures only { fields.now ≡ [] → result ≡ Some (Line.Event event.Start) }
{
    if fields.is_empty() {
        Some(Line::Event(Event::Start))
    } else {
        None
    }
}
