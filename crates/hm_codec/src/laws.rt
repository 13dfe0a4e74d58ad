//! Laws of packets as spellings in a row, as contracts of functions that do nothing.

ghost use Rattle.std.specs.Prelude.{◌≡◌, ◌≤◌, ◌*◌, ℕ, List, length};
ghost use Rattle.hm_packet.specs.Messages.{Message};
ghost use Rattle.hm_wire.specs.Packets.{max_spelling_len};
ghost use Rattle.hm_codec.specs.Rows.{told_from, IsRow};

use hm_wire::laws::{spelling_is_read_back, spelling_is_short};

/// A row of packets tells those packets.
pub(crate) fn row_tells_its_packets()
    ensures { (ends bytes : List ℕ) (packets : List Message) → IsRow ends bytes packets → told_from 0 ends bytes ≡ packets }
{
    spelling_is_read_back();
}

/// A row has no more bytes than so many of the longest spellings.
pub(crate) fn row_is_short()
    ensures { (ends bytes : List ℕ) (packets : List Message) → IsRow ends bytes packets → length bytes ≤ length ends * max_spelling_len }
{
    spelling_is_short();
}
