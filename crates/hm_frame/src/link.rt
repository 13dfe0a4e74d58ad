ghost use Rattle.std.specs.Prelude.{ℕ, List, Option, length};
ghost use Rattle.hm_base.specs.declared.node.Node.{Node};
ghost use Rattle.hm_outside.specs.Faults.{Counts};
ghost use Rattle.hm_frame.specs.Links.{IsWithin, TakesNext, CountsTaken, Keeps, Sends};
ghost use Rattle.hm_frame.specs.declared.datagram.Item.{Item};
ghost use Rattle.hm_frame.specs.declared.datagram.Posted.{Posted};

use crate::datagram::Taken;
use hm_base::node::Node;
use hm_outside::device::Failed;

/// What datagrams come from and go to. A datagram is one packet's spelling; it may be lost, late or doubled, and anybody may send one.
pub trait Link {
    /// What is to come, where the link tells it.
    ghost coming: { Self → Option (List Item) };

    /// What was sent, where the link tells it.
    ghost sent: { Self → Option (List Posted) };

    /// How many faults there were: each failed call is one, and nothing else is.
    ghost faults: { Self → ℕ };

    /// Takes what comes next: a datagram's bytes, cut at the buffer's length, into the buffer's front, or that nothing came.
    fn take(&mut self, buf: &mut [u8]) -> Taken
        ensures bound { IsWithin result (length buf.new) }
        ensures next { TakesNext result buf.new (coming self.old) (coming self.new) }
        ensures unsent { Keeps (sent self.old) (sent self.new) }
        ensures counted { CountsTaken result (faults self.old) (faults self.new) };

    /// Sends a datagram to a node.
    fn send(&mut self, dst: Node, bytes: &[u8]) -> Result<(), Failed>
        ensures sent { Sends result dst bytes.now (sent self.old) (sent self.new) }
        ensures untaken { Keeps (coming self.old) (coming self.new) }
        ensures counted { Counts (faults self.old) (faults self.new) result };
}
