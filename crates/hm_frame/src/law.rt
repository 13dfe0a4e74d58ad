ghost use Rattle.std.specs.Prelude.{◌≡◌, ◌++◌, ℕ, List, [], flat_map};
ghost use Rattle.hm_packet.specs.Messages.{Message};
ghost use Rattle.hm_wire.specs.Packets.{HasSpelling};
ghost use Rattle.hm_wire.specs.declared.malformed.Malformed.{Malformed};
ghost use Rattle.hm_frame.specs.Frames.{frame, IsAtFault, Call, Calls, fed, given, IsStuck};

use hm_wire::laws::{spelling_has_no_fault, spelling_is_short, spelling_tells_the_packet};

/// Bytes begin with one frame at most, and that is there to its end and has no fault.
pub fn bytes_begin_with_one_frame()
    ensures one { (m n : Message) → (rest others : List ℕ) → HasSpelling m → HasSpelling n → frame m ++ rest ≡ frame n ++ others → (m ≡ n) × (rest ≡ others) }
    ensures given { (m : Message) → (rest : List ℕ) → HasSpelling m → IsStuck (frame m ++ rest) → ⊥ }
{
    spelling_is_short();
    spelling_has_no_fault();
    spelling_tells_the_packet();
}

/// What comes out of a stream doesn't depend on how it was cut into pieces, nor on when packets were asked for.
pub fn pieces_give_the_same_packets()
    // The bytes fed are the frames of the packets given, in order, and then the bytes held.
    ensures order { (calls : List Call) → (held : List ℕ) → Calls [] calls held → fed calls ≡ flat_map frame (given calls) ++ held }
    // So where the same bytes were fed, and no packet is left to take, the same packets were given.
    ensures same { (calls others : List Call) → (held rest : List ℕ) → Calls [] calls held → Calls [] others rest → fed calls ≡ fed others
        → IsStuck held → IsStuck rest → (given calls ≡ given others) × (held ≡ rest) }
    // A fault stays, whatever is fed.
    ensures fault { (bytes piece : List ℕ) → (fault : Malformed) → IsAtFault bytes fault → IsAtFault (bytes ++ piece) fault }
{
    bytes_begin_with_one_frame();
}
