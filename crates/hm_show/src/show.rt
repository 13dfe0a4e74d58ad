ghost use Rattle.std.specs.Prelude.{◌≡◌, ◌≤◌, ◌⊎◌, ◌++◌, List, Some, length, flat_map};
ghost use Rattle.std.specs.List.{AllByRecursion};
ghost use Rattle.hm_packet.specs.Messages.{Message};
ghost use Rattle.hm_wire.specs.Packets.{HasSpelling};
ghost use Rattle.hm_outside.specs.Faults.{Rose};
ghost use Rattle.hm_frame.specs.Frames.{frame};
ghost use Rattle.hm_show.specs.Shows.{max_frames, closing_text, shown_of, Shows};
ghost use Rattle.hm_outside.specs.Puts.{Puts};
ghost use Rattle.hm_show.specs.Steps.{TakesFrames, answer_of};

use crate::text::{write_closing, write_next_line};
use crate::verdict::{Verdict, verdict_at_end};
use hm_base::buffer::Text;
use hm_base::memory::NoMemory;
use hm_frame::frame::Unframer;
use hm_frame::law::{bytes_begin_with_one_frame, pieces_give_the_same_packets};
use hm_outside::device::{NotPut, Sink, Source, put_all, put_closing, zeros};
use hm_outside::law::calls_add_up;
use hm_wire::malformed::Malformed;
use std::alloc::Global;

/// How many frames are shown at most.
pub const MAX_FRAMES: u32 = 1_048_576;

/// How many bytes are asked of a source at once.
const PIECE_LEN: usize = 65_536;

/// How a show ended. Frames are numbered from 1.
#[derive(Clone, Copy, Debug, PartialEq, Eq)]
pub enum Shown {
    /// The input was frames to its end, and their text was put.
    Done,
    /// This frame is the first that is at fault.
    BadFrame { number: u32, fault: Malformed },
    /// The source failed.
    ReadFault,
    /// The sink failed.
    WriteFault,
    /// A byte comes behind the last frame that may be shown.
    TooLong { number: u32 },
    /// Memory was wanting.
    NoMemory,
}

/// Reads frames to the source's end, and writes each packet's text to the sink, a line with its number for each, and then the count.
pub fn show<S: Source, K: Sink>(alloc: Global, source: &mut S, sink: &mut K) -> Shown
    // Frames within the limits, over a source and a sink whose counts don't rise, give Done, or want of memory.
    ensures complete { (packets : List Message) → S.left source.old ≡ Some (flat_map frame packets) → AllByRecursion HasSpelling packets → length packets ≤ max_frames
        → (Rose (S.faults source.old) (S.faults source.new) → ⊥) → (Rose (K.faults sink.old) (K.faults sink.new) → ⊥)
        → (result ≡ Shown.Done) ⊎ (result ≡ Shown.NoMemory) }
    ensures ends { Shows result (S.left source.old) (S.left source.new) (K.held sink.old) (K.held sink.new)
        (record { read_before = S.faults source.old; read_after = S.faults source.new; put_before = K.faults sink.old; put_after = K.faults sink.new }) }
{
    bytes_begin_with_one_frame();
    pieces_give_the_same_packets();
    show_frames(alloc, source, sink)
}

/// Reads frames to the source's end, and writes their packets.
fn show_frames<S: Source, K: Sink>(alloc: Global, source: &mut S, sink: &mut K) -> Shown
    ensures { Shows result (S.left source.old) (S.left source.new) (K.held sink.old) (K.held sink.new)
        (record { read_before = S.faults source.old; read_after = S.faults source.new; put_before = K.faults sink.old; put_after = K.faults sink.new }) }
{
    calls_add_up();
    let Ok(mut piece) = zeros(alloc, PIECE_LEN) else {
        return Shown::NoMemory;
    };
    let mut unframer = Unframer::new(alloc);
    let mut text = Text::new(alloc);
    let mut count = 0;
    loop {
        text.clear();
        match write_frames(&mut unframer, &mut count, &mut text) {
            Ok(None) => {}
            Ok(Some(verdict)) => {
                let closed = close(verdict, count, &mut text, sink);
                return answer_of(closed, shown_of(verdict, count));
            },
            Err(_) => return Shown::NoMemory,
        }
        match put_all(sink, text.as_slice()) {
            Ok(()) => {}
            Err(_) => return Shown::WriteFault,
        }
        match source.take(&mut piece) {
            Ok(0) => {
                text.clear();
                let verdict = verdict_at_end(unframer.held());
                let closed = close(verdict, count, &mut text, sink);
                return answer_of(closed, shown_of(verdict, count));
            }
            Ok(len) => match unframer.feed(&piece[..len]) {
                Ok(()) => {}
                Err(_) => return Shown::NoMemory,
            },
            Err(_) => return Shown::ReadFault,
        }
    }
}

/// Takes the whole frames that are held, and appends their packets' lines. The verdict says why there will be no further one.
fn write_frames(
    unframer: &mut Unframer,
    count: &mut u32,
    text: &mut Text,
) -> Result<Option<Verdict>, NoMemory>
    requires { count.old ≤ max_frames }
    ensures { TakesFrames result unframer.old unframer.new count.old count.new text.old.items text.new.items }
{
    while *count < MAX_FRAMES {
        match write_next_line(unframer, *count + 1, text)? {
            Ok(true) => *count += 1,
            Ok(false) => return Ok(None),
            Err(fault) => return Ok(Some(Verdict::Bad(fault))),
        }
    }
    Ok(if unframer.held() == 0 {
        None
    } else {
        Some(Verdict::Long)
    })
}

/// Appends the end of the text, and puts it.
fn close<K: Sink>(verdict: Verdict, count: u32, text: &mut Text, sink: &mut K) -> Result<(), NotPut>
    requires { count ≤ max_frames }
    ensures { Puts result (text.old.items ++ closing_text verdict count) (K.held sink.old) (K.held sink.new) (K.faults sink.old) (K.faults sink.new) }
{
    match write_closing(verdict, count, text) {
        Ok(()) => put_closing(sink, text.as_slice()),
        Err(_) => Err(NotPut::NoMemory),
    }
}

/// The answer behind the end of the text, which is this one where all of it was put.
fn answer_of(closed: Result<(), NotPut>, whole: Shown) -> Shown
    ensures { result ≡ answer_of closed whole }
{
    match closed {
        Ok(()) => whole,
        Err(NotPut::Failed) => Shown::WriteFault,
        Err(NotPut::NoMemory) => Shown::NoMemory,
    }
}

/// What is answered where the end of the text was put.
fn shown_of(verdict: Verdict, count: u32) -> Shown
    requires { count ≤ max_frames }
    ensures { result ≡ shown_of verdict count }
{
    match verdict {
        Verdict::Whole => Shown::Done,
        Verdict::Bad(fault) => Shown::BadFrame {
            number: count + 1,
            fault,
        },
        Verdict::Long => Shown::TooLong { number: count + 1 },
    }
}
