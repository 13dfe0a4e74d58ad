use hm_base::node::GroupKind;
use hm_base::value::Value;

/// How a world is set up: the group, the dirty table's stages and bits, how many packets a switch handles, and how many
/// entries a log may have.
#[derive(Clone, Copy, Debug, PartialEq, Eq)]
pub struct Setup {
    pub kind: GroupKind,
    pub size: u8,
    pub stages: u8,
    pub bits: u8,
    pub life: u32,
    pub cap: u32,
}

/// What happens to the world. Bytes from outside have no event here before their machine is built.
#[derive(Clone, Copy, Debug, PartialEq, Eq)]
pub enum Event {
    /// A client invokes a write and sends it to a switch.
    Write {
        client: u32,
        object: u32,
        value: Value,
        switch: u32,
    },
    /// A client invokes a read and sends it to a switch.
    Read {
        client: u32,
        object: u32,
        switch: u32,
    },
    /// A client sends its outstanding request once more, to a switch.
    Resend {
        client: u32,
        switch: u32,
    },
    /// The packet of this number arrives, counted from 1, whether or not it did before.
    Deliver {
        packet: u32,
    },
    /// The packet at the cursor arrives.
    Next,
    /// The cursor passes over a packet, which doesn't arrive.
    Drop,
    /// A replica's clock ticks.
    Tick {
        replica: u8,
    },
    /// A replica stops for good.
    Stop {
        replica: u8,
    },
    /// A stopped member is removed from the group.
    Remove {
        replica: u8,
    },
    /// A replica has waited too long for its leader.
    Timeout {
        replica: u8,
    },
    /// The configuration service is told to replace the switch.
    Retire,
    /// The configuration service is told to start the next switch.
    Start,
}
