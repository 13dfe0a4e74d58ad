use hm_outside::device::{Failed, Source};
use hm_outside::memory::{MemorySink, MemorySource};
use hm_outside::sure::{SureSink, SureSource};
use hm_show::show::{MAX_FRAMES, Shown, show};
use std::alloc::Global;
use std::test::Fail;

/// The frame of `c8 s1 read 1 5`.
const READ_FRAME: [u8; 26] = [
    0x00, 0x18, 0x01, 0x01, 0x01, 0x00, 0x00, 0x00, 0x08, 0x02, 0x00, 0x00, 0x00, 0x01, 0x00, 0x00,
    0x00, 0x00, 0x00, 0x00, 0x00, 0x01, 0x00, 0x00, 0x00, 0x05,
];

/// What is shown of these bytes: the answer and the text, over a source and a sink whose calls with these numbers fail.
fn shown(
    alloc: Global,
    bytes: &[u8],
    read_fails: &[u64],
    put_fails: &[u64],
) -> Result<(Shown, MemorySink), Fail> {
    let mut source = MemorySource::new(bytes.to_vec(alloc)?, read_fails.to_vec(alloc)?);
    let mut sink = MemorySink::open(alloc, 4096, put_fails.to_vec(alloc)?)?;
    let shown = show(alloc, &mut source, &mut sink);
    Ok((shown, sink))
}

#[test]
fn keeps_what_was_shown_before_a_fault(rt: HostRuntime) -> Result<(), Fail> {
    let rows: [(&[u64], &[u64], Shown, &[u8]); 2] = [
        (&[2], &[], Shown::ReadFault, b"packet 1 c8 s1 read 1 5\n"),
        (&[], &[1], Shown::WriteFault, b""),
    ];
    for (read_fails, put_fails, answer, text) in rows {
        let (shown, sink) = shown(rt.alloc(), &READ_FRAME, read_fails, put_fails)?;
        assert_eq!(rt; shown, answer);
        assert_eq!(rt; sink.as_slice(), text);
    }
    Ok(())
}

#[test]
fn never_fails_over_sure_ends(rt: HostRuntime) -> Result<(), Fail> {
    let mut source = SureSource::new(READ_FRAME.to_vec(rt.alloc())?);
    let shown = show(rt.alloc(), &mut source, &mut SureSink::new());
    assert_eq!(rt; shown, Shown::Done);
    Ok(())
}

/// A source that gives the frame so many times, in pieces of whole frames.
struct Repeated {
    times: usize,
}

impl Drop for Repeated {
    fn drop(self) {
        let Repeated { times: _ } = self;
    }
}

impl Source for Repeated {
    ghost use Rattle.std.specs.Prelude.{None};

    ghost left = { λ _. None };

    ghost faults = { λ _. 0 };

    fn take(&mut self, buf: &mut [u8]) -> Result<usize, Failed> {
        let frames = self.times.min(buf.len() / READ_FRAME.len());
        for frame in 0..frames {
            let start = frame * READ_FRAME.len();
            buf[start..start + READ_FRAME.len()].copy_from_slice(&READ_FRAME);
        }
        self.times -= frames;
        Ok(frames * READ_FRAME.len())
    }
}

#[test]
fn stops_behind_the_last_frame(rt: HostRuntime) -> Result<(), Fail> {
    let mut source = Repeated {
        times: MAX_FRAMES as usize + 1,
    };
    let mut sink = MemorySink::open(rt.alloc(), 40_000_000, Vec::new(rt.alloc()))?;
    let shown = show(rt.alloc(), &mut source, &mut sink);
    let number = MAX_FRAMES + 1;
    assert_eq!(rt; shown, Shown::TooLong { number });
    assert!(rt; sink.as_slice().ends_with(b"\ntoolong 1048577\n"));
    Ok(())
}
