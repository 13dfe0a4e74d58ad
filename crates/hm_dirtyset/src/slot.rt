/// What a slot holds: an object, and the number of a write of it. The number is 0 where it holds nothing.
#[derive(Clone, Copy)]
pub struct Slot {
    pub object: u32,
    pub number: u64,
}

impl Slot {
    /// What a slot is that holds nothing.
    pub const FREE: Slot = Slot {
        object: 0,
        number: 0,
    };
}
