use hm_base::entry::Act;
use hm_base::node::Node;
use hm_base::operation::Answer;
use hm_base::stamp::Stamp;
use hm_base::value::Value;

/// A field of a packet, or of an entry. The definitions of what packets spell name each body's fields by it.
#[derive(Clone, Copy, Debug, PartialEq, Eq)]
pub enum Field {
    Node(Node),
    U32(u32),
    U64(u64),
    Replica(u8),
    Stamp(Stamp),
    Value(Value),
    Answer(Answer),
    Act(Act),
}
