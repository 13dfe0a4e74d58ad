ghost use Rattle.std.specs.Prelude.{◌⊎◌, true, false, ◌≡◌, ◌<◌, ◌≤◌, ◌↔◌, [], ◌++◌, None, Ok, Err, length, take, ◌+◌, OnOk, OnErr, IfOk, IfSome, IfNone};
ghost use Rattle.std.specs.Int.{w16, to_be_bytes};
ghost use Rattle.hm_base.specs.Lists.{IsPrefix};
ghost use Rattle.hm_frame.specs.Frames.{head_len, max_payload_len, frame, payload_len, IsPart, IsAtFault, Answers, answered, HasFrame, Tells};
ghost use Rattle.hm_wire.specs.declared.malformed.Malformed.{Malformed};

use bytes::BytesMut;
use hm_base::buffer::Text;
use hm_base::entries::PageRoom;
use hm_base::memory::NoMemory;
use hm_codec::buf::{Buf, MAX_LEN};
use hm_codec::decode::decode;
use hm_codec::encode::encode;
use hm_packet::packet::Packet;
use hm_wire::malformed::{Malformed, Reason};
use hm_wire_text::text::write_spelled;
use std::alloc::Global;
use std::marker::Model;

/// How many bytes a frame has at most behind its length.
pub const MAX_PAYLOAD_LEN: usize = 2046;

/// How many bytes a frame's length takes.
pub const HEAD_LEN: usize = 2;

/// Writes a packet's frame into the buffer, over what was there: the length of the packet's spelling in two bytes, the higher
/// one first, and the spelling. It takes no memory.
pub fn frame(packet: &Packet, buf: &mut Buf<MAX_LEN>)
    ensures { buf.new ≡ frame packet.now }
{
    encode(packet, buf);
    let spelled = buf.as_slice();
    let mut framed = [0; MAX_LEN];
    framed[..HEAD_LEN].copy_from_slice(&(spelled.len() as u16).to_be_bytes());
    framed[HEAD_LEN..HEAD_LEN + spelled.len()].copy_from_slice(spelled);
    let len = HEAD_LEN + spelled.len();
    if let Some(whole) = Buf::from_slice(&framed[..len]) {
        *buf = whole;
    }
}

/// Takes frames out of a stream that comes in pieces. Contracts see the bytes that were fed and not yet taken.
#[derive(Drop)]
pub struct Unframer {
    bytes: BytesMut,
}

impl Model for Unframer {
    ghost use Rattle.std.specs.Prelude.{List, ℕ};

    ghost Value = { List ℕ };

    ghost view = { λ u. u.bytes.items };
}

impl Unframer {
    /// An unframer that holds nothing. It takes no memory.
    pub fn new(alloc: Global) -> Unframer
        ensures { result ≡ [] }
    {
        Unframer {
            bytes: BytesMut::new(alloc),
        }
    }

    /// Appends a piece of the stream.
    pub fn feed(&mut self, piece: &[u8]) -> Result<(), NoMemory>
        ensures ok { OnOk result (self.new ≡ self.old ++ piece.now) }
        ensures err { OnErr result (self.new ≡ self.old) }
    {
        self.bytes.extend_from_slice(piece)?;
        Ok(())
    }

    /// Takes the next frame and puts its packet in its place, with its page, if it has one, in the room: false while the frame isn't
    /// there to its end. The place of a fault counts from the frame's first byte, and from then on each call answers the same
    /// fault. It takes no memory.
    pub fn next<'a>(
        &mut self,
        room: &'a mut PageRoom,
        packet: &mut Packet<'a>,
    ) -> Result<bool, Malformed>
        ensures answer { Answers (answered result packet.new) self.old self.new }
        ensures none { (result ≡ Ok false) ↔ IsPart self.old }
        ensures fault { (fault : Malformed) → (result ≡ Err fault) ↔ IsAtFault self.old fault }
        ensures same { (result ≡ Ok true) ⊎ (packet.new ≡ packet.old) }
    {
        let Some(len) = self.next_len()? else {
            return Ok(false);
        };
        let end = HEAD_LEN + len;
        match decode(&self.bytes.as_slice()[HEAD_LEN..end], room, packet) {
            Ok(()) => {
                self.bytes.advance(end);
                Ok(true)
            }
            Err(inner) => Err(behind_head(inner)),
        }
    }

    /// Takes the next frame and appends its packet's text: false while the frame isn't there to its end. Faults are as those of
    /// [`Unframer::next`], and then `out` is as it was. After want of memory `out` begins with what it held, and the frame is held.
    pub fn next_text(&mut self, out: &mut Text) -> Result<Result<bool, Malformed>, NoMemory>
        ensures ok { IfOk result (λ r. Tells r self.old self.new out.old.items out.new.items) }
        ensures err { OnErr result (self.new ≡ self.old) }
        ensures front { IsPrefix out.old.items out.new.items }
    {
        let len = match self.next_len() {
            Ok(Some(len)) => len,
            Ok(None) => return Ok(Ok(false)),
            Err(fault) => return Ok(Err(fault)),
        };
        let end = HEAD_LEN + len;
        match write_spelled(&self.bytes.as_slice()[HEAD_LEN..end], out)? {
            Ok(()) => {
                self.bytes.advance(end);
                Ok(Ok(true))
            }
            Err(inner) => Ok(Err(behind_head(inner))),
        }
    }

    /// How many bytes the next frame has behind its length: None while it isn't there to its end.
    fn next_len(&self) -> Result<Option<usize>, Malformed>
        ensures { HasFrame result self.now }
    {
        let held = self.bytes.as_slice();
        let Some(len) = payload_len(held) else {
            return Ok(None);
        };
        if len > MAX_PAYLOAD_LEN {
            return Err(Malformed {
                at: 0,
                reason: Reason::Length,
            });
        }
        Ok(if held.len() < HEAD_LEN + len {
            None
        } else {
            Some(len)
        })
    }

    /// How many bytes are held.
    pub fn held(&self) -> usize
        ensures { result ≡ length self.now }
    {
        self.bytes.len()
    }
}

/// A payload's fault, with its place counted from the frame's first byte.
fn behind_head(inner: Malformed) -> Malformed
    requires { inner.at ≤ max_payload_len }
    ensures { result ≡ record { at = inner.at + head_len; reason = inner.reason } }
{
    Malformed {
        at: inner.at + HEAD_LEN as u32,
        reason: inner.reason,
    }
}

/// The length that a frame says, where that is there.
fn payload_len(bytes: &[u8]) -> Option<usize>
    ensures some { IfSome result (λ len. (len ≡ payload_len bytes.now) × (head_len ≤ length bytes.now)) }
    ensures head { IfSome result (λ len. to_be_bytes w16 len ≡ take head_len bytes.now) }
    ensures none { IfNone result (length bytes.now < head_len) }
{
    match bytes {
        [high, low, ..] => Some(usize::from(u16::from_be_bytes([*high, *low]))),
        _ => None,
    }
}
