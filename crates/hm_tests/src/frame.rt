use hm_base::node::Node;
use hm_codec::buf::Buf;
use hm_frame::frame::frame;
use hm_packet::body::{Body, Read};
use hm_packet::packet::Packet;
use std::test::Fail;

/// The frame of `c8 s1 read 1 5`.
pub(crate) const READ_FRAME: [u8; 26] = [
    0x00, 0x18, 0x01, 0x01, 0x01, 0x00, 0x00, 0x00, 0x08, 0x02, 0x00, 0x00, 0x00, 0x01, 0x00, 0x00,
    0x00, 0x00, 0x00, 0x00, 0x00, 0x01, 0x00, 0x00, 0x00, 0x05,
];

fn read_packet() -> Packet<'static> {
    Packet {
        src: Node::Client(8),
        dst: Node::Switch(1),
        body: Body::Read(Read {
            request: 1,
            object: 5,
        }),
    }
}

#[test]
fn frames_a_packet(rt: HostRuntime) -> Result<(), Fail> {
    let mut buf = Buf::new();
    frame(&read_packet(), &mut buf);
    assert_eq!(rt; buf.as_slice(), READ_FRAME.as_slice());
    Ok(())
}
