//! `hm replay` reads a schedule from standard input, and writes the text of its run to standard output. `hm show` reads frames, and
//! writes each packet's text. `hm schedule` writes the schedule that is made of a number, and `hm generate` a summary of its run. Where
//! not all went well, a line on standard error says what happened.
#![tactic(auto)]

mod message;

ghost use Rattle.std.specs.Prelude.{◌≡◌, ◌≢◌, ◌⊎◌, []};
ghost use Rattle.std.specs.Io.Buffered.{writer_buffer};
ghost use Rattle.std.specs.IoError.{error_kind};

use crate::message::Message;
use hm_outside::adapters::{ReaderSource, WriterSink};
use hm_replay::replay::run;
use hm_replay::status::Status;
use std::alloc::Global;
use std::env;
use std::io::{BufWriter, Error, ErrorKind, Write};
use std::process::ExitCode;

/// The status for words that can't be had: one of them isn't UTF-8, or memory was wanting.
fn refusal(error: &Error) -> Status
    ensures memory { error_kind error.now ≡ ErrorKind.OutOfMemory → result ≡ Status.NoMemory }
    ensures words { error_kind error.now ≢ ErrorKind.OutOfMemory → result ≡ Status.BadWords }
{
    if error.kind() == ErrorKind::OutOfMemory {
        Status::NoMemory
    } else {
        Status::BadWords
    }
}

/// Writes what is left of the output. Where that fails, the sink did.
fn flushed<W: Write + Drop>(output: &mut BufWriter<W>, status: Status) -> Status
    ensures status { (result ≡ status) ⊎ (result ≡ Status.WriteFault) }
    ensures written { result ≢ Status.WriteFault → writer_buffer output.new ≡ [] }
{
    match output.flush() {
        Ok(()) => status,
        Err(_) => Status::WriteFault,
    }
}

/// How many bytes an area has at most that is served from the allocator's heap: somewhat more than those of a log.
const HEAP_AREA_LEN: usize = 1_740_000;

/// Has the C library's allocator serve areas of up to [`HEAP_AREA_LEN`] bytes from its heap, and not by a mapping of its own each:
/// it does so once such an area was given back. A world has a handful for each replica.
fn keep_areas_in_heap(alloc: Global) {
    let _area: Result<Vec<u8>, _> = Vec::with_capacity(alloc, HEAP_AREA_LEN);
}

/// Runs the program, and answers how it ended.
fn status(rt: &HostRuntime) -> Status {
    let alloc = rt.alloc();
    keep_areas_in_heap(alloc);
    let words = match env::args(rt) {
        Ok(words) => words,
        Err(error) => return refusal(&error),
    };
    let Ok(words) = words.skip(1).collect::<Vec<String>>(alloc) else {
        return Status::NoMemory;
    };
    let Ok(output) = BufWriter::new(alloc, rt.stdout()) else {
        return Status::NoMemory;
    };
    let mut source = ReaderSource::new(rt.stdin());
    let mut sink = WriterSink::new(output);
    let status = run(alloc, &words, &mut source, &mut sink);
    flushed(&mut sink.into_inner(), status)
}

/// Says on standard error how the program ended, where not all went well. A standard error that fails changes nothing.
fn report(rt: &HostRuntime, status: Status) {
    if let Some(message) = Message::on(status) {
        let _told = eprintln!(rt; "{message}");
    }
}

fn main(rt: HostRuntime) -> ExitCode {
    let status = status(&rt);
    report(&rt, status);
    ExitCode::from(status.code())
}
