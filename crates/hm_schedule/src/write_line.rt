//! Lines of schedules as text.

ghost use Rattle.std.specs.Prelude.{◌≡◌, [], ◌∷◌, ◌++◌, decimal, OnOk, OnErr};
ghost use Rattle.hm_base.specs.Lists.{IsPrefix};
ghost use Rattle.hm_base.specs.Spellings.{spaced};
ghost use Rattle.hm_schedule.specs.Names.{keyword_text, kind_text};
ghost use Rattle.hm_schedule.specs.Orders.{line_bytes};
ghost use Rattle.hm_schedule.specs.Schedules.{event_fields, event_keyword, field_words, keyword_in};

use crate::event::Event;
use crate::keyword::Keyword;
use crate::line::Line;
use hm_base::buffer::Text;
use hm_base::memory::NoMemory;
use hm_base::node::GroupKind;
use hm_base::text::{write_bytes, write_number, write_value};

/// Appends a line's one spelling and its end. After want of memory `out` is as before.
pub fn write_line(line: &Line, out: &mut Text) -> Result<(), NoMemory>
    ensures ok { OnOk result (out.new.items ≡ out.old.items ++ line_bytes line.now) }
    ensures err { OnErr result (out.new.items ≡ out.old.items) }
{
    if matches!(line, Line::Event(Event::Next)) {
        return write_bytes(b"next\n", out);
    }
    let before = out.len();
    let written = push_line(line, out);
    if written.is_err() {
        out.truncate(before);
    }
    written
}

/// Appends a line and its end. After want of memory `out` may have a front of it, here and in the other calls below.
fn push_line(line: &Line, out: &mut Text) -> Result<(), NoMemory>
    ensures ok { OnOk result (out.new.items ≡ out.old.items ++ line_bytes line.now) }
    ensures err { OnErr result (IsPrefix out.old.items out.new.items) }
{
    write_bytes(keyword_name(keyword(line)).as_bytes(), out)?;
    push_fields(line, out)?;
    write_bytes(b"\n", out)
}

/// A line's first word.
fn keyword(line: &Line) -> Keyword
    ensures { result ≡ keyword_in line.now }
{
    match line {
        Line::Group { .. } => Keyword::Group,
        Line::Table { .. } => Keyword::Table,
        Line::Life(_) => Keyword::Life,
        Line::Log(_) => Keyword::Log,
        Line::Event(event) => keyword_for(event),
    }
}

/// The first word of an event's line.
fn keyword_for(event: &Event) -> Keyword
    ensures { result ≡ event_keyword event.now }
{
    match event {
        Event::Write { .. } => Keyword::Write,
        Event::Read { .. } => Keyword::Read,
        Event::Resend { .. } => Keyword::Resend,
        Event::Deliver { .. } => Keyword::Deliver,
        Event::Next => Keyword::Next,
        Event::Drop => Keyword::Drop,
        Event::Tick { .. } => Keyword::Tick,
        Event::Stop { .. } => Keyword::Stop,
        Event::Remove { .. } => Keyword::Remove,
        Event::Timeout { .. } => Keyword::Timeout,
        Event::Retire => Keyword::Retire,
        Event::Start => Keyword::Start,
    }
}

/// The word itself.
fn keyword_name(keyword: Keyword) -> &'static str
    ensures { result.now ≡ keyword_text keyword }
{
    match keyword {
        Keyword::Group => "group",
        Keyword::Table => "table",
        Keyword::Life => "life",
        Keyword::Log => "log",
        Keyword::Write => "write",
        Keyword::Read => "read",
        Keyword::Resend => "resend",
        Keyword::Deliver => "deliver",
        Keyword::Next => "next",
        Keyword::Drop => "drop",
        Keyword::Tick => "tick",
        Keyword::Stop => "stop",
        Keyword::Remove => "remove",
        Keyword::Timeout => "timeout",
        Keyword::Retire => "retire",
        Keyword::Start => "start",
    }
}

/// The word for a protocol.
fn kind_name(kind: GroupKind) -> &'static str
    ensures { result.now ≡ kind_text kind }
{
    match kind {
        GroupKind::Chain => "chain",
        GroupKind::Primary => "primary",
        GroupKind::Vr => "vr",
    }
}

/// Appends a line's fields, each behind a space.
fn push_fields(line: &Line, out: &mut Text) -> Result<(), NoMemory>
    ensures ok { OnOk result (out.new.items ≡ out.old.items ++ spaced (field_words line.now)) }
    ensures err { OnErr result (IsPrefix out.old.items out.new.items) }
{
    match line {
        Line::Group { kind, size } => {
            push_word(kind_name(*kind).as_bytes(), out)?;
            push_number(u32::from(*size), out)
        }
        Line::Table { stages, bits } => {
            push_number(u32::from(*stages), out)?;
            push_number(u32::from(*bits), out)
        }
        Line::Life(life) => push_number(*life, out),
        Line::Log(cap) => push_number(*cap, out),
        Line::Event(event) => push_event_fields(event, out),
    }
}

/// Appends an event's fields, each behind a space.
fn push_event_fields(event: &Event, out: &mut Text) -> Result<(), NoMemory>
    ensures ok { OnOk result (out.new.items ≡ out.old.items ++ spaced (event_fields event.now)) }
    ensures err { OnErr result (IsPrefix out.old.items out.new.items) }
{
    match event {
        Event::Write {
            client,
            object,
            value,
            switch,
        } => {
            push_op(*client, *object, out)?;
            write_bytes(b" ", out)?;
            write_value(value, out)?;
            push_number(*switch, out)
        }
        Event::Read {
            client,
            object,
            switch,
        } => {
            push_op(*client, *object, out)?;
            push_number(*switch, out)
        }
        Event::Resend { client, switch } => {
            push_number(*client, out)?;
            push_number(*switch, out)
        }
        Event::Deliver { packet } => push_number(*packet, out),
        Event::Tick { replica }
        | Event::Stop { replica }
        | Event::Remove { replica }
        | Event::Timeout { replica } => push_number(u32::from(*replica), out),
        Event::Next | Event::Drop | Event::Retire | Event::Start => Ok(()),
    }
}

/// Appends a client and an object, each behind a space.
fn push_op(client: u32, object: u32, out: &mut Text) -> Result<(), NoMemory>
    ensures ok { OnOk result (out.new.items ≡ out.old.items ++ spaced (decimal client ∷ decimal object ∷ [])) }
    ensures err { OnErr result (IsPrefix out.old.items out.new.items) }
{
    push_number(client, out)?;
    push_number(object, out)
}

/// Appends a space and a word.
fn push_word(word: &[u8], out: &mut Text) -> Result<(), NoMemory>
    ensures ok { OnOk result (out.new.items ≡ out.old.items ++ 32 ∷ word.now) }
    ensures err { OnErr result (IsPrefix out.old.items out.new.items) }
{
    write_bytes(b" ", out)?;
    write_bytes(word, out)
}

/// Appends a space and a number.
fn push_number(number: u32, out: &mut Text) -> Result<(), NoMemory>
    ensures ok { OnOk result (out.new.items ≡ out.old.items ++ 32 ∷ decimal number) }
    ensures err { OnErr result (IsPrefix out.old.items out.new.items) }
{
    write_bytes(b" ", out)?;
    write_number(u64::from(number), out)
}
