ghost use Rattle.std.specs.Prelude.{◌≡◌, ◌+◌, ◌-◌, ◌<◌, ◌≤◌, [], ◌++◌, ◌∷◌, ℕ, List, length, take, drop, slice_range, codes, IsTrue, IsFalse, IfOk, IfSome, IfNone};
ghost use Rattle.hm_outside.specs.Faults.{Counts};
ghost use Rattle.hm_schedule.specs.LineTexts.{IsLine, ended};
ghost use Rattle.hm_schedule.specs.Fills.{Fills, filled_count};

use hm_base::memory::NoMemory;
use hm_outside::device::{Failed, Source, zeros};
use memchr::memchr;
use std::alloc::Global;
use std::marker::Model;

/// How many bytes a line has at most, without its end.
pub const MAX_LINE_LEN: usize = 8192;

/// How many bytes are held at most: there is always room behind a line's part.
const BUFFER_LEN: usize = 2 * MAX_LINE_LEN;

/// What comes next of an input.
#[derive(Clone, Copy, Debug, PartialEq, Eq)]
pub enum Found {
    /// A line.
    Line,
    /// The end of the input.
    End,
    /// The end of the input, within a line.
    Unfinished,
    /// More bytes than a line may have.
    Long,
}

/// What the bytes ahead are.
enum Front {
    Line,
    Part,
    Long,
}

/// Cuts lines, ended by the byte 10, from what a source gives in pieces. Contracts see a [`Reading`].
#[derive(Drop)]
pub struct LineReader {
    buffer: Vec<u8>,
    line_start: usize,
    line_end: usize,
    start: usize,
    end: usize,
}

impl Model for LineReader {
    ghost use Rattle.std.specs.Prelude.{◌≡◌, ◌≤◌, length, slice_range};
    ghost use Rattle.hm_schedule.specs.Lines.{Reading};
    ghost use Rattle.hm_schedule.specs.Buffers.{IsBuffer};

    ghost Value = { Reading };

    ghost view = { λ r. record { line = slice_range r.buffer.items r.line_start r.line_end; ahead = slice_range r.buffer.items r.start r.end } };

    ghost invariant = { λ r. IsBuffer r.buffer.items r.line_start r.line_end r.start r.end };
}

impl LineReader {
    ghost use Rattle.hm_schedule.specs.Lines.{max_line_len, FindsOrFails, HasMoreOrFails, Cuts, rest_of};
    ghost use Rattle.hm_schedule.specs.Fills.{Fills};

    /// A reader that holds nothing yet.
    pub fn open(alloc: Global) -> Result<LineReader, NoMemory>
        ensures { IfOk result (λ reader. reader ≡ record { line = []; ahead = [] }) }
    {
        Ok(LineReader {
            buffer: zeros(alloc, BUFFER_LEN)?,
            line_start: 0,
            line_end: 0,
            start: 0,
            end: 0,
        })
    }

    /// The line found last, without its end.
    pub fn line(&self) -> &[u8]
        ensures { result.now ≡ self.now.line }
    {
        &self.buffer[self.line_start..self.line_end]
    }

    /// Finds the next line. Each call of the source asks for some kilobytes, and only where no whole line is ahead.
    pub fn next<S: Source>(&mut self, source: &mut S) -> Result<Found, Failed>
        ensures found { FindsOrFails result self.old.ahead self.new (S.left source.old) (S.left source.new) }
        ensures counted { Counts (S.faults source.old) (S.faults source.new) result }
    {
        loop {
            match self.cut() {
                Front::Line => return Ok(Found::Line),
                Front::Long => return Ok(Found::Long),
                Front::Part => {}
            }
            match self.fill(source) {
                Ok(0) => return Ok(self.rest()),
                Ok(_) => {}
                Err(failed) => return Err(failed),
            }
        }
    }

    /// Whether a byte is left. It asks the source only where none is ahead.
    pub fn has_more<S: Source>(&mut self, source: &mut S) -> Result<bool, Failed>
        ensures more { HasMoreOrFails result self.old.ahead self.new.ahead (S.left source.old) (S.left source.new) }
        ensures counted { Counts (S.faults source.old) (S.faults source.new) result }
    {
        if self.start < self.end {
            return Ok(true);
        }
        match self.fill(source) {
            Ok(count) => Ok(count > 0),
            Err(failed) => Err(failed),
        }
    }

    /// Cuts the line `next` off, if it is ahead with its end. Otherwise nothing changes.
    pub(crate) fn cut_next(&mut self) -> bool
        ensures cut { IsTrue result → (self.new.line ≡ codes "next") × (self.old.ahead ≡ ended (codes "next") ++ self.new.ahead) }
        ensures whole { (more : List ℕ) → self.old.ahead ≡ ended (codes "next") ++ more → IsTrue result }
        ensures not_cut { IsFalse result → self.new ≡ self.old }
    {
        match &self.buffer[self.start..self.end] {
            [b'n', b'e', b'x', b't', b'\n', ..] => {
                self.line_start = self.start;
                self.line_end = self.start + 4;
                self.start += 5;
                true
            }
            _ => false,
        }
    }

    /// Cuts a line off, if a whole one is ahead.
    fn cut(&mut self) -> Front
        ensures { Cuts result self.old.ahead self.new }
    {
        let ahead = &self.buffer[self.start..self.end];
        match first_end(ahead) {
            Some(len) => {
                if len > MAX_LINE_LEN {
                    return Front::Long;
                }
                self.line_start = self.start;
                self.line_end = self.start + len;
                self.start += len + 1;
                Front::Line
            }
            None if ahead.len() > MAX_LINE_LEN => Front::Long,
            None => Front::Part,
        }
    }

    /// Takes bytes from the source, and forgets the line.
    fn fill<S: Source>(&mut self, source: &mut S) -> Result<usize, Failed>
        requires { length self.old.ahead ≤ max_line_len }
        ensures bytes { Fills result self.old.ahead self.new.ahead (S.left source.old) (S.left source.new) }
        ensures counted { Counts (S.faults source.old) (S.faults source.new) result }
    {
        let held = self.end - self.start;
        let result = refill(source, &mut self.buffer, self.start, self.end);
        self.line_start = 0;
        self.line_end = 0;
        self.start = 0;
        self.end = held + result.unwrap_or(0);
        result
    }

    /// What the end of the input is.
    fn rest(&self) -> Found
        ensures { result ≡ rest_of self.now.ahead }
    {
        if self.start == self.end {
            Found::End
        } else {
            Found::Unfinished
        }
    }
}

/// Where the first line's end is.
fn first_end(bytes: &[u8]) -> Option<usize>
    ensures some { IfSome result (λ len. IsLine (take len bytes.now) × (bytes.now ≡ ended (take len bytes.now) ++ drop (len + 1) bytes.now)) }
    ensures within { IfSome result (λ len. len < length bytes.now) }
    ensures none { IfNone result (IsLine bytes.now) }
{
    memchr(b'\n', bytes)
}

/// Moves the bytes between two places to the front of a buffer, and takes more behind them.
fn refill<S: Source>(
    source: &mut S,
    buffer: &mut [u8],
    start: usize,
    end: usize,
) -> Result<usize, Failed>
    requires order { start ≤ end }
    requires room { end - start < length buffer.old }
    requires within { end ≤ length buffer.old }
    ensures bytes { Fills result (slice_range buffer.old start end) (slice_range buffer.new 0 (end - start + filled_count result)) (S.left source.old) (S.left source.new) }
    ensures room { IfOk result (λ n. end - start + n ≤ length buffer.new) }
    ensures counted { Counts (S.faults source.old) (S.faults source.new) result }
{
    buffer.copy_within(start..end, 0);
    source.take(&mut buffer[end - start..])
}
