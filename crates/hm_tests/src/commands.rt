//! Schedules that are made of a number, as the program's commands write and run them.

use hm_base::buffer::Text;
use hm_base::memory::NoMemory;
use hm_base::node::GroupKind;
use hm_base::value::Value;
use hm_outside::memory::{MemorySink, MemorySource};
use hm_replay::replay::run;
use hm_replay::status::Status;
use hm_schedule::event::Event;
use hm_schedule::line::{Line, LineReason};
use hm_schedule::round_trip::{read_back, write_back};
use hm_schedule::write_line::write_line;
use std::alloc::{AllocError, Global};
use std::process::Abort;
use std::test::Fail;

/// Room for every text here.
const ROOM: usize = 1_048_576;

/// The first ten lines of `schedule 42 vr 7`.
const FIRST_LINES: &[u8] = b"group vr 7
next
next
next
next
next
drop
next
next
write 3 11 0009 1
";

/// The summaries of the number 42 for a chain of three, a primary with four backups, and seven replicas of Viewstamped Replication.
const CHAIN: &[u8] = b"events 16384
ok 7002
ignored 279
full 0
spent 0
logfull 0
barred 9103
packets 5852
invoked 961
committed 449
replied 958
ordered 958
end
";

const PRIMARY: &[u8] = b"events 16384
ok 8619
ignored 423
full 0
spent 0
logfull 0
barred 7342
packets 7635
invoked 904
committed 430
replied 901
ordered 901
end
";

const VR: &[u8] = b"events 16384
ok 10618
ignored 1208
full 0
spent 0
logfull 0
barred 4558
packets 10566
invoked 673
committed 318
replied 668
ordered 671
end
";

/// A text's words, as those of a program.
fn words(alloc: Global, text: &str) -> Result<Vec<String>, AllocError> {
    let mut words = Vec::new(alloc);
    for word in text.split(' ') {
        words.push(String::from_str(alloc, word)?)?;
    }
    Ok(words)
}

/// What these words put, over an input and a sink of which the calls with these numbers fail.
fn put(
    rt: &impl Abort,
    alloc: Global,
    text: &str,
    input: &[u8],
    fails: &[u64],
    status: Status,
) -> Result<MemorySink, Fail> {
    let words = words(alloc, text)?;
    let mut source = MemorySource::new(input.to_vec(alloc)?, Vec::new(alloc));
    let mut sink = MemorySink::open(alloc, ROOM, fails.to_vec(alloc)?)?;
    assert_eq!(rt; run(alloc, &words, &mut source, &mut sink), status);
    Ok(sink)
}

/// The text of lines.
fn text_of(alloc: Global, lines: &[Line]) -> Result<Text, NoMemory> {
    let mut text = Text::new(alloc);
    for line in lines {
        write_line(line, &mut text)?;
    }
    Ok(text)
}

#[test]
fn writes_lines(rt: HostRuntime) -> Result<(), Fail> {
    let write = Event::Write {
        client: 7,
        object: 5,
        value: Value::from_slice(b"").ok_or("a value")?,
        switch: 1,
    };
    let resend = Event::Resend {
        client: 7,
        switch: 2,
    };
    let lines = [
        Line::Table { stages: 4, bits: 0 },
        Line::Life(4_194_304),
        Line::Log(1),
        Line::Event(write),
        Line::Event(resend),
        Line::Event(Event::Next),
        Line::Event(Event::Timeout { replica: 6 }),
    ];
    assert_eq!(rt;
        text_of(rt.alloc(), &lines)?.as_slice(),
        b"table 4 0
life 4194304
log 1
write 7 5 empty 1
resend 7 2
next
timeout 6
"
            .as_slice()
    );
    Ok(())
}

#[test]
fn reads_back_what_it_writes(rt: HostRuntime) -> Result<(), Fail> {
    let mut text = Text::new(rt.alloc());
    let group = Line::Group {
        kind: GroupKind::Primary,
        size: 7,
    };
    assert_eq!(rt; read_back(&group, &mut text)?, Ok(group));
    assert_eq!(rt; text.as_slice(), b"group primary 7\n".as_slice());
    Ok(())
}

#[test]
fn writes_back_what_it_reads(rt: HostRuntime) -> Result<(), Fail> {
    let mut text = Text::new(rt.alloc());
    let written = write_back(b"read 8 5 2", &mut text)?;
    let refused = write_back(b"rear 8 5 2", &mut Text::new(rt.alloc()))?;
    assert_eq!(rt; (written, refused), (Ok(()), Err(LineReason::Word)));
    assert_eq!(rt; text.as_slice(), b"read 8 5 2\n".as_slice());
    Ok(())
}

#[test]
fn writes_a_made_schedule(rt: HostRuntime) -> Result<(), Fail> {
    let alloc = rt.alloc();
    let text = put(&rt, alloc, "schedule 42 vr 7", b"", &[], Status::Done)?;
    let cut = put(
        &rt,
        alloc,
        "schedule 42 vr 7",
        b"",
        &[2],
        Status::WriteFault,
    )?;
    let (text, cut) = (text.as_slice(), cut.as_slice());
    let begin = (text.starts_with(FIRST_LINES), cut.starts_with(FIRST_LINES));
    let is_front = text.starts_with(cut) && cut.len() < text.len();
    assert_eq!(rt; (begin, is_front), ((true, true), true));
    Ok(())
}

#[test]
fn sums_made_schedules_up(rt: HostRuntime) -> Result<(), Fail> {
    let alloc = rt.alloc();
    for (text, summary) in [
        ("generate 42 chain 3", CHAIN),
        ("generate 42 primary 5", PRIMARY),
        ("generate 42 vr 7", VR),
    ] {
        let sink = put(&rt, alloc, text, b"", &[], Status::Done)?;
        assert_eq!(rt; sink.as_slice(), summary);
    }
    let none = put(
        &rt,
        alloc,
        "generate 42 vr 7",
        b"",
        &[1],
        Status::WriteFault,
    )?;
    assert_eq!(rt; none.as_slice(), b"".as_slice());
    Ok(())
}
