/// A node of the system: a client, a switch, a replica, or the configuration service.
#[derive(Clone, Copy, Debug, PartialEq, Eq, Hash)]
pub enum Node {
    Client(u32),
    Switch(u32),
    Replica(u8),
    Config,
}

/// The replication protocol of a group.
#[derive(Clone, Copy, Debug, PartialEq, Eq)]
pub enum GroupKind {
    Chain,
    Primary,
    Vr,
}
