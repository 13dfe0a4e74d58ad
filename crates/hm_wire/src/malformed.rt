/// What is wrong with bytes that spell no packet: the place of the first fault, counted from 0, and its reason.
#[derive(Clone, Copy, Debug, PartialEq, Eq)]
pub struct Malformed {
    pub at: u32,
    pub reason: Reason,
}

/// Why bytes spell no packet.
#[derive(Clone, Copy, Debug, PartialEq, Eq)]
pub enum Reason {
    /// A number or a run of bytes reaches past the end. The place is the end.
    Short,
    /// The first byte isn't 1.
    Version,
    /// There is no such kind of packet.
    Kind,
    /// There is no such kind of node.
    Node,
    /// A value, a page or a list of members has no such length.
    Length,
    /// A number or a tag is outside its range, or a member isn't above the one before it.
    Range,
    /// Bytes are left after the last field.
    Rest,
}
