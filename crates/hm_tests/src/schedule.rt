use hm_base::node::GroupKind;
use hm_base::value::Value;
use hm_schedule::event::Event;
use hm_schedule::line::{Line, LineReason, read_line};
use std::process::Abort;
use std::test::Fail;

/// Asserts what lines say.
fn assert_read(rt: &impl Abort, rows: &[(&[u8], Line)]) {
    for (i, (bytes, line)) in rows.iter().enumerate() {
        assert_eq!(rt; read_line(bytes), Ok(*line), "row {i}");
    }
}

/// Asserts why lines are refused.
fn assert_refused(rt: &impl Abort, rows: &[(&[u8], LineReason)]) {
    for (i, (bytes, reason)) in rows.iter().enumerate() {
        assert_eq!(rt; read_line(bytes), Err(*reason), "row {i}");
    }
}

/// A group of so many replicas.
fn group(kind: GroupKind, size: u8) -> Line {
    Line::Group { kind, size }
}

#[test]
fn reads_setup_lines(rt: HostRuntime) {
    assert_read(
        &rt,
        &[
            (b"group chain 7", group(GroupKind::Chain, 7)),
            (b"group primary 3", group(GroupKind::Primary, 3)),
            (b"group vr 5", group(GroupKind::Vr, 5)),
            (b"table 4 0", Line::Table { stages: 4, bits: 0 }),
            (b"life 4194304", Line::Life(4_194_304)),
            (b"log 1", Line::Log(1)),
        ],
    );
}

#[test]
fn reads_clients_lines(rt: HostRuntime) -> Result<(), Fail> {
    let write = Event::Write {
        client: 7,
        object: 5,
        value: Value::from_slice(b"a").ok_or("a value")?,
        switch: 1,
    };
    let read = Event::Read {
        client: 8,
        object: 5,
        switch: 2,
    };
    let resend = Event::Resend {
        client: 7,
        switch: 1,
    };
    assert_read(
        &rt,
        &[
            (b"write 7 5 61 1", Line::Event(write)),
            (b"read 8 5 2", Line::Event(read)),
            (b"resend 7 1", Line::Event(resend)),
        ],
    );
    Ok(())
}

#[test]
fn reads_lines_of_packets_and_replicas(rt: HostRuntime) {
    assert_read(
        &rt,
        &[
            (b"deliver 9", Line::Event(Event::Deliver { packet: 9 })),
            (b"next", Line::Event(Event::Next)),
            (b"drop", Line::Event(Event::Drop)),
            (b"tick 6", Line::Event(Event::Tick { replica: 6 })),
            (b"stop 0", Line::Event(Event::Stop { replica: 0 })),
            (b"remove 2", Line::Event(Event::Remove { replica: 2 })),
            (b"timeout 1", Line::Event(Event::Timeout { replica: 1 })),
        ],
    );
}

#[test]
fn names_a_byte_or_a_word(rt: HostRuntime) {
    assert_refused(
        &rt,
        &[
            (b"next\r", LineReason::Byte),
            (b"\x7f", LineReason::Byte),
            // An unknown word, but before it a byte that is no character.
            (b"foo \x1f", LineReason::Byte),
            (b"foo", LineReason::Word),
            (b"", LineReason::Word),
            (b" next", LineReason::Word),
            (b"raw 00", LineReason::Word),
            // No keyword, and no number.
            (b"ticks x", LineReason::Word),
        ],
    );
}

#[test]
fn names_a_count_of_words(rt: HostRuntime) {
    assert_refused(
        &rt,
        &[
            (b"next ", LineReason::Count),
            (b"read 8 5", LineReason::Count),
            (b"deliver  1", LineReason::Count),
            // A word is missing, and the one that is there is no protocol.
            (b"group foo", LineReason::Count),
        ],
    );
}

#[test]
fn names_the_first_field_at_fault(rt: HostRuntime) {
    assert_refused(
        &rt,
        &[
            (b"deliver 4294967296", LineReason::Number),
            (b"deliver 01", LineReason::Number),
            (b"tick 256", LineReason::Number),
            (b"group vr ", LineReason::Number),
            // A number is none, and behind it another is out of its range.
            (b"read x 5 0", LineReason::Number),
            (b"group foo 1", LineReason::Range),
            (b"group chain 8", LineReason::Range),
            (b"group primary 0", LineReason::Range),
            (b"group vr 4", LineReason::Range),
            (b"table 0 3", LineReason::Range),
            (b"table 1 13", LineReason::Range),
            (b"life 4194305", LineReason::Range),
            (b"log 0", LineReason::Range),
            (b"timeout 7", LineReason::Range),
            // Out of its range, and no number behind it.
            (b"table 5 x", LineReason::Range),
            (b"write 7 5 6 1", LineReason::Value),
            // No value, and a switch that is out of its range.
            (b"write 7 5 6A 0", LineReason::Value),
        ],
    );
}
