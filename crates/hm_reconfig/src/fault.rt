use thiserror::Error;

/// Why a replica isn't removed from its group: the first of these that holds.
#[derive(Clone, Copy, Debug, PartialEq, Eq, Error)]
pub enum RemoveFault {
    #[error("the group is fixed")]
    Fixed,
    #[error("the replica isn't a member of the group")]
    NotMember,
    #[error("the replica is the only member of the group")]
    Last,
}

/// Why the next switch isn't started: the first of these that holds.
#[derive(Clone, Copy, Debug, PartialEq, Eq, Error)]
pub enum StartFault {
    #[error("the newest switch isn't being replaced")]
    NotRetired,
    #[error("a replica that may still answer hasn't refused the newest switch; this is the one with the lowest number")]
    NotRefused { replica: u8 },
    #[error("the newest switch has the last number")]
    NoNumber,
}
