/// Which part of a cut comes first: the one below its value or the one above it.
#[derive(Debug, Clone, Copy, PartialEq, Eq)]
pub enum Side {
    /// The first part has the slot up to the value, and the second has it from one more.
    Low,
    /// The first part has the slot from one more than the value, and the second has it up to the value.
    High,
}

/// A cut of a box in two parts, at a value of a slot. Slots count from 0.
#[derive(Debug, Clone, Copy, PartialEq, Eq)]
pub struct Cut {
    pub side: Side,
    pub slot: u32,
    /// The greatest value of the part below. The part above begins one higher.
    pub value: i64,
}
