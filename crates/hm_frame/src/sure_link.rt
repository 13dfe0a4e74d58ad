ghost use Rattle.std.specs.Prelude.{◌≡◌, Some, None};

use crate::datagram::{Item, Taken};
use crate::link::Link;
use crate::memory_link::give;
use hm_base::node::Node;
use hm_outside::device::Failed;
use std::marker::Model;

/// A link that never fails, keeps nothing that is sent and doesn't tell it. Contracts see what is to come.
#[derive(Drop)]
pub struct SureLink {
    coming: Vec<Item>,
    at: usize,
}

impl Model for SureLink {
    ghost use Rattle.std.specs.Prelude.{List, ◌≤◌, drop, length};
    ghost use Rattle.hm_frame.specs.declared.datagram.Item.{Item};

    ghost Value = { List Item };

    ghost view = { λ s. drop s.at s.coming.items };

    ghost invariant = { λ s. s.at ≤ length s.coming.items };
}

impl SureLink {
    /// The link to which these items come. It takes no memory.
    pub fn new(coming: Vec<Item>) -> SureLink
        ensures { result ≡ coming.items }
    {
        SureLink { coming, at: 0 }
    }
}

impl Link for SureLink {
    ghost coming = { λ s. Some s };

    ghost sent = { λ _. None };

    ghost faults = { λ _. 0 };

    fn take(&mut self, buf: &mut [u8]) -> Taken {
        match self.coming.get(self.at) {
            Some(item) => {
                self.at += 1;
                give(item, buf)
            }
            None => Taken::Ended,
        }
    }

    fn send(&mut self, _dst: Node, _bytes: &[u8]) -> Result<(), Failed> {
        Ok(())
    }
}
