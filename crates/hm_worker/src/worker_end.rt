/// How a worker of a switch ended.
#[derive(Clone, Copy, Debug, PartialEq, Eq)]
pub enum WorkerEnd {
    /// Its link ended.
    Ended,
    /// It took as often as it was to.
    TurnsSpent,
    /// The switch handled as many packets as it may.
    SwitchSpent,
    /// Its link failed.
    LinkFault,
}
