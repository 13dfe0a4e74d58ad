use hm_base::node::Node;
use hm_codec::buf::{Buf, MAX_LEN};

/// What comes to a link: a datagram of so many bytes, or the link's waiting time passes and nothing came.
#[derive(Drop)]
pub enum Item {
    Datagram(Buf<MAX_LEN>),
    Quiet,
}

/// A datagram that was sent: the node that it is for, and its bytes.
#[derive(Drop)]
pub struct Posted {
    pub dst: Node,
    pub bytes: Buf<MAX_LEN>,
}

/// What a link's `take` answers.
#[derive(Clone, Copy, Debug, PartialEq, Eq)]
pub enum Taken {
    /// A datagram, of which so many bytes stand in the buffer's front. What didn't fit is lost.
    Datagram(usize),
    /// Nothing came in the link's own waiting time.
    Quiet,
    /// Nothing will come any more.
    Ended,
    /// The link failed.
    Failed,
}
