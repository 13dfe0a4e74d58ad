use crate::primary_rows::PRIMARY_ROWS;
use crate::refused_rows::REFUSED_ROWS;
use crate::rows::{ROWS, Row, WRITE_THEN_READ};
use crate::vr_rows::VR_ROWS;
use hm_outside::adapters::{ReaderSource, WriterSink};
use hm_outside::device::{Failed, Sink};
use hm_outside::memory::{MemorySink, MemorySource};
use hm_outside::sure::{SureSink, SureSource};
use hm_replay::replay::run;
use hm_replay::status::Status;
use std::alloc::{AllocError, Global};
use std::io;
use std::io::Read;
use std::process::Abort;
use std::test::Fail;

/// The text of the first event of [`WRITE_THEN_READ`].
const FIRST_EVENT: &[u8] = b"event 1 ok
invoke 7.1
packet 1 c7 s1 write 1 5 61
";

/// The program's words.
fn words(alloc: Global, texts: &[&str]) -> Result<Vec<String>, AllocError> {
    let mut words = Vec::new(alloc);
    for text in texts {
        words.push(String::from_str(alloc, text)?)?;
    }
    Ok(words)
}

/// A sink with room for every text here, of which the calls with these numbers fail.
fn sink(alloc: Global, fails: &[u64]) -> Result<MemorySink, Fail> {
    Ok(MemorySink::open(alloc, 1_000_000, fails.to_vec(alloc)?)?)
}

/// How a run of these words ends, and its text, over bytes and of a source and a sink of which the calls with these numbers fail.
fn ran(
    alloc: Global,
    texts: &[&str],
    bytes: &[u8],
    read_fails: &[u64],
    put_fails: &[u64],
) -> Result<(Status, MemorySink), Fail> {
    let words = words(alloc, texts)?;
    let mut source = MemorySource::new(bytes.to_vec(alloc)?, read_fails.to_vec(alloc)?);
    let mut sink = sink(alloc, put_fails)?;
    let status = run(alloc, &words, &mut source, &mut sink);
    Ok((status, sink))
}

/// A sink that sees whether each piece begins an event's text or the ending, and holds no other.
#[derive(Drop)]
struct Pieces {
    sink: MemorySink,
    are_whole: bool,
}

/// Whether a piece begins an event's text or the ending, and no other begins in it.
fn is_whole(piece: &[u8]) -> bool {
    let begins = piece.starts_with(b"event ")
        || piece.starts_with(b"order ")
        || piece.starts_with(b"bad ");
    begins
        && !piece.windows(7).any(|part| part == b"\nevent ".as_slice()
            || part == b"\norder ".as_slice())
        && !piece.windows(5).any(|part| part == b"\nbad ".as_slice())
}

impl Sink for Pieces {
    ghost use Rattle.std.specs.Prelude.{Some};

    ghost held = { λ s. Some s.sink.held };

    ghost faults = { λ s. s.sink.faults };

    fn put(&mut self, piece: &[u8]) -> Result<usize, Failed> {
        self.are_whole = self.are_whole && is_whole(piece);
        self.sink.put(piece)
    }
}

/// How the run of a schedule ends, and its pieces.
fn replayed(alloc: Global, schedule: &[u8]) -> Result<(Status, Pieces), Fail> {
    let words = words(alloc, &["replay"])?;
    let mut source = MemorySource::new(schedule.to_vec(alloc)?, Vec::new(alloc));
    let mut pieces = Pieces {
        sink: sink(alloc, &[])?,
        are_whole: true,
    };
    let status = run(alloc, &words, &mut source, &mut pieces);
    Ok((status, pieces))
}

/// Asserts that schedules give these texts, piece by piece.
fn assert_rows(rt: &impl Abort, alloc: Global, rows: &[Row]) -> Result<(), Fail> {
    for row in rows {
        let (status, pieces) = replayed(alloc, row.schedule)?;
        assert_eq!(rt; (status, pieces.are_whole), (row.status, true));
        assert_eq!(rt; pieces.sink.as_slice(), row.text);
    }
    Ok(())
}

#[test]
fn replays_each_row_piece_by_piece(rt: HostRuntime) -> Result<(), Fail> {
    assert_rows(&rt, rt.alloc(), &ROWS)?;
    assert_rows(&rt, rt.alloc(), &PRIMARY_ROWS)?;
    assert_rows(&rt, rt.alloc(), &VR_ROWS)?;
    assert_rows(&rt, rt.alloc(), &REFUSED_ROWS)
}

/// Asserts a run's code and its text.
fn assert_run(rt: &impl Abort, ran: (Status, MemorySink), code: u8, text: &[u8]) {
    let (status, sink) = ran;
    assert_eq!(rt; status.code(), code);
    assert_eq!(rt; sink.as_slice(), text);
}

#[test]
fn stops_where_a_device_fails(rt: HostRuntime) -> Result<(), Fail> {
    let schedule = WRITE_THEN_READ.schedule;
    let cut = ran(rt.alloc(), &["replay"], schedule, &[], &[2])?;
    assert_run(&rt, cut, 5, FIRST_EVENT);
    let unread = ran(rt.alloc(), &["replay"], schedule, &[1], &[])?;
    assert_run(&rt, unread, 4, b"");
    Ok(())
}

/// A reader that gives one byte at a time.
struct Trickle<'a> {
    bytes: &'a [u8],
}

impl Drop for Trickle<'_> {
    fn drop(self) {
        let Trickle { bytes: _ } = self;
    }
}

impl Read for Trickle<'_> {
    fn read(&mut self, buf: &mut [u8]) -> io::Result<usize> {
        if buf.is_empty() {
            return Ok(0);
        }
        match self.bytes {
            [first, rest @ ..] => {
                buf[0] = *first;
                self.bytes = rest;
                Ok(1)
            }
            [] => Ok(0),
        }
    }
}

/// How the run of a schedule ends that comes byte by byte, and its text.
fn trickled(alloc: Global, bytes: &[u8]) -> Result<(Status, Vec<u8>), Fail> {
    let words = words(alloc, &["replay"])?;
    let mut text = WriterSink::new(Vec::new(alloc));
    let mut source = ReaderSource::new(Trickle { bytes });
    let status = run(alloc, &words, &mut source, &mut text);
    Ok((status, text.into_inner()))
}

/// How the run of a schedule ends over devices that never fail.
fn surely(alloc: Global, bytes: &[u8]) -> Result<Status, Fail> {
    let words = words(alloc, &["replay"])?;
    let mut source = SureSource::new(bytes.to_vec(alloc)?);
    Ok(run(alloc, &words, &mut source, &mut SureSink::new()))
}

#[test]
fn runs_over_each_device(rt: HostRuntime) -> Result<(), Fail> {
    let bytes = WRITE_THEN_READ.schedule;
    assert_eq!(rt; surely(rt.alloc(), bytes)?, Status::Done);
    let (status, text) = trickled(rt.alloc(), bytes)?;
    assert_eq!(rt; status, Status::Done);
    assert_eq!(rt; text.as_slice(), WRITE_THEN_READ.text);
    Ok(())
}

/// The frame of `c8 s1 read 1 5`.
const READ_FRAME: [u8; 26] = [
    0x00, 0x18, 0x01, 0x01, 0x01, 0x00, 0x00, 0x00, 0x08, 0x02, 0x00, 0x00, 0x00, 0x01, 0x00, 0x00,
    0x00, 0x00, 0x00, 0x00, 0x00, 0x01, 0x00, 0x00, 0x00, 0x05,
];

#[test]
fn shows_frames(rt: HostRuntime) -> Result<(), Fail> {
    let whole = ran(rt.alloc(), &["show"], &READ_FRAME, &[], &[])?;
    assert_run(&rt, whole, 0, b"packet 1 c8 s1 read 1 5\nend 1\n");
    let part = ran(rt.alloc(), &["show"], &READ_FRAME[..10], &[], &[])?;
    assert_run(&rt, part, 3, b"bad 1 10 Short\n");
    Ok(())
}
