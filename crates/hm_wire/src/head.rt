ghost use Rattle.std.specs.Prelude.{◌≡◌, ◌<◌, length, Err, IfOk};
ghost use Rattle.hm_packet.specs.Messages.{IsLawfulNode};
ghost use Rattle.hm_wire.specs.Reading as reading;
ghost use Rattle.hm_wire.specs.Reading.{Gives};

use crate::fault::{Fault, SHORT};
use crate::fields::u8_within;
use crate::malformed::Reason;
use crate::parts::node_at;
use hm_base::node::Node;

/// What a packet begins with, and how many bytes there are in all.
#[derive(Clone, Copy, Debug, PartialEq, Eq)]
pub struct Head {
    pub len: usize,
    pub code: u8,
    pub src: Node,
    pub dst: Node,
}

/// How many bytes a head has.
const HEAD_LEN: usize = 12;

/// Reads the version, the code of the kind, the source and the destination.
#[inline(always)]
pub fn head_at(bytes: &[u8]) -> Result<(Head, &[u8]), Fault>
    ensures given { Gives (λ x. (x.0, x.1.now)) result (reading.head_at bytes.now) }
    ensures len { IfOk result (λ x. x.0.len ≡ length bytes.now) }
    ensures src { IfOk result (λ x. IsLawfulNode x.0.src) }
    ensures dst { IfOk result (λ x. IsLawfulNode x.0.dst) }
{
    if bytes.len() < HEAD_LEN {
        return Err(fault_of_short(bytes));
    }
    fields_at(bytes)
}

/// The first fault of a head whose bytes end too early. It stands apart, so that one test of their number serves every other head.
#[cold]
#[inline(never)]
fn fault_of_short(bytes: &[u8]) -> Fault
    requires { length bytes.now < 12 }
    ensures { reading.head_at bytes.now ≡ Err result }
{
    match fields_at(bytes) {
        Ok(_) => SHORT,
        Err(fault) => fault,
    }
}

/// Reads the fields of a head one after the other.
#[tactic(auto, unfolding(crate::specs::Reading::head_at))]
#[inline(always)]
fn fields_at(bytes: &[u8]) -> Result<(Head, &[u8]), Fault>
    ensures given { Gives (λ x. (x.0, x.1.now)) result (reading.head_at bytes.now) }
    ensures len { IfOk result (λ x. x.0.len ≡ length bytes.now) }
    ensures src { IfOk result (λ x. IsLawfulNode x.0.src) }
    ensures dst { IfOk result (λ x. IsLawfulNode x.0.dst) }
{
    let (_, rest) = u8_within(bytes, 1, 1, Reason::Version)?;
    let (code, rest) = u8_within(rest, 1, 19, Reason::Kind)?;
    let (src, rest) = node_at(rest)?;
    let (dst, rest) = node_at(rest)?;
    let head = Head {
        len: bytes.len(),
        code,
        src,
        dst,
    };
    Ok((head, rest))
}
