//! Laws of the spelling of packets, as contracts of functions that do nothing.

ghost use Rattle.std.specs.Prelude.{◌≡◌, ◌≤◌, ℕ, List, length, None, Ok};
ghost use Rattle.hm_packet.specs.Messages.{Message};
ghost use Rattle.hm_wire.specs.Exact.{IsBytes, IsExact};
ghost use Rattle.hm_wire.specs.Reading.{located, packet_of};
ghost use Rattle.hm_wire.specs.Packets.{spelling, first_fault, HasSpelling, max_spelling_len};

/// What spells a packet has no fault, so that [`decode`](hm_codec::decode::decode) takes what
/// [`encode`](hm_codec::encode::encode) writes.
pub fn spelling_has_no_fault()
    ensures { (m : Message) → HasSpelling m → first_fault (spelling m) ≡ None }
{}

/// No two packets have one spelling, so that decoding gives back the packet that was encoded.
pub fn spelling_tells_the_packet()
    ensures { (m n : Message) → HasSpelling m → HasSpelling n → spelling m ≡ spelling n → m ≡ n }
{}

/// The longest spelling has 1,533 bytes.
pub fn spelling_is_short()
    ensures { (m : Message) → HasSpelling m → length (spelling m) ≤ max_spelling_len }
{}

/// What spells a packet is read as that packet.
pub fn spelling_is_read_back()
    ensures { (m : Message) → HasSpelling m → packet_of (spelling m) ≡ Ok m }
{}

/// What is read off bytes, part by part from left to right, is exact: the packet that they spell, or their first fault.
pub fn reading_is_exact()
    ensures { (bytes : List ℕ) → IsBytes bytes → IsExact bytes (located (length bytes) (packet_of bytes)) }
{}
