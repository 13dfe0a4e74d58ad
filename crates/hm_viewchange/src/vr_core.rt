use hm_shim::shim::Shim;
use hm_store::staged::Staged;

/// What a replica does in its view.
#[derive(Clone, Copy, Debug, PartialEq, Eq)]
pub enum VrStatus {
    /// The view has begun here.
    Normal,
    /// The replica enters the view.
    Change,
    /// The view's primary fetches the chosen log.
    Pulling,
    /// A backup takes the primary's log into a list beside its own.
    Staging,
}

/// What a replica of Viewstamped Replication is, whether its view has begun or is being changed. How much is known to be committed is
/// the applied length of its log. The primary of a view is the replica whose number is the view modulo the group's size.
#[derive(Drop)]
pub struct VrCore {
    pub shim: Shim,
    /// What is staged behind the applied prefix, by a backup that stages or by a primary that pulls.
    pub staged: Staged,
    pub me: u8,
    /// How many replicas the group has, which never changes: an odd number, so that f of 2f + 1 may stop.
    pub size: u8,
    pub view: u32,
    /// The last view in which the status was Normal.
    pub normal: u32,
    /// How long the log was with which the view began.
    pub start: u32,
    pub status: VrStatus,
}
