ghost use Rattle.std.specs.Prelude.{◌≡◌, ◌≤◌, length, IfOk};
ghost use Rattle.hm_base.specs.Padded.{max_value_len};
ghost use Rattle.hm_packet.specs.Messages.{IsLawfulNode};
ghost use Rattle.hm_wire.specs.Reading as reading;
ghost use Rattle.hm_wire.specs.Reading.{Gives};

use crate::fault::{Fault, SHORT};
use crate::fields::{u8_within, u32_at, u32_up_to, u64_at};
use crate::malformed::Reason;
use hm_base::node::Node;
use hm_base::stamp::Stamp;

/// Reads a node.
#[tactic(auto, unfolding(crate::specs::Reading::node_at))]
#[inline(always)]
pub fn node_at(bytes: &[u8]) -> Result<(Node, &[u8]), Fault>
    ensures given { Gives (λ x. (x.0, x.1.now)) result (reading.node_at bytes.now) }
    ensures lawful { IfOk result (λ x. IsLawfulNode x.0) }
{
    let (tag, rest) = u8_within(bytes, 1, 4, Reason::Node)?;
    match tag {
        1 => {
            let (client, rest) = u32_at(rest)?;
            Ok((Node::Client(client), rest))
        }
        2 => {
            let (switch, rest) = u32_at(rest)?;
            Ok((Node::Switch(switch), rest))
        }
        3 => {
            let (replica, rest) = u32_up_to(rest, 6)?;
            Ok((Node::Replica(replica as u8), rest))
        }
        _ => {
            let (_, rest) = u32_up_to(rest, 0)?;
            Ok((Node::Config, rest))
        }
    }
}

/// Reads a stamp.
#[tactic(auto, unfolding(crate::specs::Reading::stamp_at))]
#[inline(always)]
pub fn stamp_at(bytes: &[u8]) -> Result<(Stamp, &[u8]), Fault>
    ensures { Gives (λ x. (x.0, x.1.now)) result (reading.stamp_at bytes.now) }
{
    let (switch, rest) = u32_at(bytes)?;
    let (seq, rest) = u64_at(rest)?;
    Ok((Stamp { switch, seq }, rest))
}

/// Reads a value's length and its bytes, which stay where they are.
#[tactic(auto, unfolding(crate::specs::Reading::value_at, crate::specs::Reading::run_at))]
#[inline(always)]
pub fn value_bytes_at(bytes: &[u8]) -> Result<(&[u8], &[u8]), Fault>
    ensures given { Gives (λ x. (x.0.now, x.1.now)) result (reading.value_at bytes.now) }
    ensures fits { IfOk result (λ x. length x.0.now ≤ max_value_len) }
{
    let (len, rest) = u8_within(bytes, 0, 64, Reason::Length)?;
    let len = len as usize;
    if rest.len() < len {
        return Err(SHORT);
    }
    Ok(rest.split_at(len))
}
