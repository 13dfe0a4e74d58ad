ghost use Rattle.std.specs.Prelude.{◌≡◌};

use crate::frame::READ_FRAME;
use hm_base::node::GroupKind;
use hm_packet::outcome::Outcome;
use hm_schedule::event::{Event, Setup};
use hm_world::world::World;
use std::alloc::Global;
use std::test::Fail;

const ONE: Setup = Setup {
    kind: GroupKind::Chain,
    size: 1,
    stages: 3,
    bits: 10,
    life: 4_194_304,
    cap: 16_384,
};

const READ: Event = Event::Read {
    client: 8,
    object: 5,
    switch: 1,
};

/// What a client's read comes to in a new world: the outcome, the packet sent, and how many events and marks there are then.
fn after_a_read(alloc: Global, world: &mut World) -> Result<(Outcome, Vec<u8>, u32, usize), Fail>
    requires { world.old.events ≡ 0 }
{
    let outcome = world.event(&READ)?;
    let sent = world.sent(world.sent_count()).ok_or("a packet")?;
    let sent = sent.to_vec(alloc)?;
    Ok((outcome, sent, world.events(), world.history().marks().len()))
}

/// The same of a world of one replica.
fn after_the_first_read(alloc: Global) -> Result<(Outcome, Vec<u8>, u32, usize), Fail> {
    let mut world = World::open(alloc, &ONE)?;
    after_a_read(alloc, &mut world)
}

// Longer schedules are rows of the replay, whose one call takes a whole schedule.
#[test]
fn a_read_is_sent(rt: HostRuntime) -> Result<(), Fail> {
    let (outcome, sent, events, marks) = after_the_first_read(rt.alloc())?;
    assert_eq!(rt; outcome, Outcome::Ok { first: 1, count: 1 });
    assert_eq!(rt; sent.as_slice(), &READ_FRAME[2..]);
    assert_eq!(rt; (events, marks), (1, 1));
    Ok(())
}
