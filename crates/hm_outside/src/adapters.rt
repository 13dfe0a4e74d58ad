ghost use Rattle.std.specs.Prelude.{◌≡◌};

use crate::device::{Failed, Sink, Source};
use std::io::{Read, Write};

/// A reader of std as a source. It tells what the reader tells.
#[derive(Drop)]
pub struct ReaderSource<R: Drop> {
    reader: R,
    faults: u64,
}

impl<R: Read + Drop> ReaderSource<R> {
    ghost use Rattle.hm_outside.specs.Adapters.{source_reader, source_faults};

    /// The reader, with no fault so far. It takes no memory.
    pub fn new(reader: R) -> Self
        ensures reader { source_reader result ≡ reader }
        ensures faults { source_faults result ≡ 0 }
    {
        ReaderSource { reader, faults: 0 }
    }
}

impl<R: Read + Drop> Source for ReaderSource<R> {
    ghost use Rattle.hm_outside.specs.Adapters.{source_reader, source_faults};

    ghost left = { λ s. R.remaining (source_reader s) };

    ghost faults = { source_faults };

    fn take(&mut self, buf: &mut [u8]) -> Result<usize, Failed> {
        match self.reader.read(buf) {
            Ok(count) => Ok(count),
            Err(_) => {
                self.faults = self.faults.saturating_add(1);
                Err(Failed)
            }
        }
    }
}

/// A writer of std as a sink. It tells what the writer tells.
#[derive(Drop)]
pub struct WriterSink<W: Drop> {
    writer: W,
    faults: u64,
}

impl<W: Write + Drop> WriterSink<W> {
    ghost use Rattle.hm_outside.specs.Adapters.{sink_writer, sink_faults};

    /// The writer, with no fault so far. It takes no memory.
    pub fn new(writer: W) -> Self
        ensures writer { sink_writer result ≡ writer }
        ensures faults { sink_faults result ≡ 0 }
    {
        WriterSink { writer, faults: 0 }
    }

    /// The writer again.
    pub fn into_inner(self) -> W
        ensures { result ≡ sink_writer self }
    {
        self.writer
    }
}

impl<W: Write + Drop> Sink for WriterSink<W> {
    ghost use Rattle.hm_outside.specs.Adapters.{sink_writer, sink_faults};

    ghost held = { λ s. W.contents (sink_writer s) };

    ghost faults = { sink_faults };

    fn put(&mut self, piece: &[u8]) -> Result<usize, Failed> {
        match self.writer.write(piece) {
            Ok(count) if count > 0 || piece.is_empty() => Ok(count),
            _ => {
                self.faults = self.faults.saturating_add(1);
                Err(Failed)
            }
        }
    }
}
