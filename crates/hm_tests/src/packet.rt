use hm_base::buffer::Text;
use hm_base::node::Node;
use hm_packet::body::{Ask, Body};
use hm_packet::packet::Packet;
use hm_packet::text::write_packet;
use std::test::Fail;

// The texts of the other kinds stand in the rows of the replay and in the runs of the gallery.
#[test]
fn writes_a_packet(rt: HostRuntime) -> Result<(), Fail> {
    let ask = Packet {
        src: Node::Replica(0),
        dst: Node::Replica(1),
        body: Body::Ask(Ask {
            view: 2,
            client: 7,
            request: 9,
        }),
    };
    let mut out = Text::new(rt.alloc());
    write_packet(&ask, &mut out)?;
    assert_eq!(rt; out.as_slice(), b"r0 r1 ask 2 7 9".as_slice());
    Ok(())
}
