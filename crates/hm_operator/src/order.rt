use crate::live::Live;

/// What an operator orders of the configuration service.
#[derive(Drop)]
pub enum Order {
    /// This member is stopped for good, and is removed.
    Remove(u8),
    /// The newest switch is to be replaced.
    Retire,
    /// What comes next over the link is taken.
    Take,
    /// The next switch starts, where these replicas are all that may still answer.
    Start(Live),
}

/// The first word of an order.
#[derive(Clone, Copy, Debug, PartialEq, Eq)]
pub enum Verb {
    Remove,
    Retire,
    Take,
    Start,
}
