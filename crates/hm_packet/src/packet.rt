ghost use Rattle.std.specs.Prelude.{◌≡◌};

use crate::body::{Body, Read};
use hm_base::node::Node;
use std::marker::Model;

/// A packet. Each replica number in it is at most 6. Contracts see a [`Message`] of its parts.
#[derive(Drop)]
pub struct Packet<'a> {
    pub src: Node,
    pub dst: Node,
    pub body: Body<'a>,
}

impl<'a> Model for Packet<'a> {
    ghost use Rattle.hm_packet.specs.Messages.{Message, IsLawful};

    ghost Value = { Message };

    ghost view = { λ p. record { src = p.src; dst = p.dst; body = p.body } };

    ghost invariant = { λ p. IsLawful (record { src = p.src; dst = p.dst; body = p.body }) };
}

impl<'a> Packet<'a> {
    /// An equal packet. It takes no memory.
    pub fn copy(&self) -> Packet<'a>
        ensures { result ≡ self.now }
    {
        Packet {
            src: self.src,
            dst: self.dst,
            body: self.body.copy(),
        }
    }

    /// A packet that says nothing of use, as the place that a packet is read into.
    pub fn blank() -> Packet<'a> {
        Packet {
            src: Node::Config,
            dst: Node::Config,
            body: Body::Read(Read {
                request: 0,
                object: 0,
            }),
        }
    }
}
