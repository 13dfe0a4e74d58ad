use crate::value::Value;

/// An operation: a client and the number of its request.
#[derive(Clone, Copy, Debug, PartialEq, Eq, Hash)]
pub struct OpId {
    pub client: u32,
    pub request: u64,
}

/// What a client is answered: a write was done, an object has no value, or the value found.
#[derive(Clone, Copy, Debug, PartialEq, Eq)]
pub enum Answer {
    Wrote,
    Nothing,
    Found(Value),
}
