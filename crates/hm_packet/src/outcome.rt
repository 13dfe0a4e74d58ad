use hm_base::why::Why;

/// How an event ended. In `Ok`, `first` is the number that the first packet sent has, and `count` is how many were sent.
#[derive(Clone, Copy, Debug, PartialEq, Eq)]
pub enum Outcome {
    Ok { first: u32, count: u32 },
    Ignored(Why),
    Full,
    Spent,
    LogFull,
    NotAllowed(Bar),
}

/// Why an event isn't allowed. A barred event changes nothing.
#[derive(Clone, Copy, Debug, PartialEq, Eq)]
pub enum Bar {
    /// There is no such packet.
    NoPacket,
    /// The switch wasn't started.
    NoSwitch,
    /// The client has a request outstanding.
    Busy,
    /// The client has no request outstanding.
    Idle,
    /// The replica is stopped.
    Stopped,
    /// The replica isn't one of the group.
    Member,
    /// The replica isn't stopped.
    Live,
    /// It is the only member.
    Last,
    /// The protocol has no timeouts.
    NotVr,
    /// The protocol's group is fixed.
    Fixed,
    /// No switch is being replaced.
    NotRetired,
    /// A live replica hasn't refused the old switch.
    NotRefused,
    /// No such packet was sent.
    Forged,
    /// The bytes spell no packet.
    Malformed,
}
