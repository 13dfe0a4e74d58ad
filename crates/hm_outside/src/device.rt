ghost use Rattle.std.specs.Prelude.{◌≡◌, ℕ, ◌<◌, ◌≤◌, List, Option, length, IfOk, OnOk, OnErr, vec_len};
ghost use Rattle.std.specs.Io.{ReadsAtMost};
ghost use Rattle.std.specs.Io.KnownBytes.{ReadConsumes, WriteAppends, Appends};
ghost use Rattle.hm_base.specs.Lists.{IsPrefix};
ghost use Rattle.hm_outside.specs.Faults.{Counts};
ghost use Rattle.hm_outside.specs.Puts.{Puts};

use hm_base::memory::NoMemory;
use std::alloc::Global;

/// A device gave up. What it tells is as before the call, but for its count of faults.
#[derive(Clone, Copy, Debug, PartialEq, Eq)]
pub struct Failed;

/// Why a text wasn't put to its end.
#[derive(Clone, Copy, Debug, PartialEq, Eq)]
pub enum NotPut {
    /// The sink failed.
    Failed,
    /// Memory was wanting.
    NoMemory,
}

/// What bytes come from.
pub trait Source {
    /// The bytes that are left, where the source tells them.
    ghost left: { Self → Option (List ℕ) };

    /// How many faults there were: each failed call is one, and nothing else is.
    ghost faults: { Self → ℕ };

    /// Takes bytes into the front of the buffer, and answers how many. 0 into a buffer that isn't empty is the end.
    fn take(&mut self, buf: &mut [u8]) -> Result<usize, Failed>
        ensures bound { ReadsAtMost result buf.new }
        ensures bytes { ReadConsumes (left self.old) (left self.new) result buf.new }
        ensures counted { Counts (faults self.old) (faults self.new) result };
}

/// What bytes go to.
pub trait Sink {
    /// The bytes put so far, where the sink tells them.
    ghost held: { Self → Option (List ℕ) };

    /// How many faults there were: each failed call is one, and nothing else is. A device that takes nothing is at fault.
    ghost faults: { Self → ℕ };

    /// Puts bytes from the front of the piece, and answers how many.
    fn put(&mut self, piece: &[u8]) -> Result<usize, Failed>
        ensures bound { IfOk result (λ n. n ≤ length piece.now) }
        ensures some { IfOk result (λ n. 0 < length piece.now → 0 < n) }
        ensures bytes { WriteAppends (held self.old) (held self.new) result piece.now }
        ensures counted { Counts (faults self.old) (faults self.new) result };
}

/// Puts a whole text: as one piece, and again with the rest where less was taken. After a fault a front of it was put.
pub fn put_all<K: Sink>(sink: &mut K, text: &[u8]) -> Result<(), Failed>
    ensures ok { OnOk result (Appends (K.held sink.old) (K.held sink.new) text.now) }
    ensures err { OnErr result ((front : List ℕ) × IsPrefix front text.now × Appends (K.held sink.old) (K.held sink.new) front) }
    ensures counted { Counts (K.faults sink.old) (K.faults sink.new) result }
{
    let mut at = 0;
    while at < text.len() {
        match sink.put(&text[at..]) {
            Ok(count) => at += count,
            Err(failed) => return Err(failed),
        }
    }
    Ok(())
}

/// Puts the end of a text, as [`put_all`] does.
pub fn put_closing<K: Sink>(sink: &mut K, text: &[u8]) -> Result<(), NotPut>
    ensures { Puts result text.now (K.held sink.old) (K.held sink.new) (K.faults sink.old) (K.faults sink.new) }
{
    match put_all(sink, text) {
        Ok(()) => Ok(()),
        Err(_) => Err(NotPut::Failed),
    }
}

/// Zeros, as a buffer that bytes are taken into.
pub fn zeros(alloc: Global, len: usize) -> Result<Vec<u8>, NoMemory>
    ensures { IfOk result (λ bytes. vec_len bytes ≡ len) }
{
    Ok(vec![in alloc; 0u8; len]?)
}
