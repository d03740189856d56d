/// A slot, and how many times its value counts in a sum. One that counts 0 times is never asked for its value.
#[derive(Debug, Clone, Copy, PartialEq, Eq)]
pub struct Share {
    pub times: i32,
    pub slot: u32,
}

/// The sum of four shares over a number, rounded down. A number of 0 counts as 1.
#[derive(Debug, Clone, Copy, PartialEq, Eq)]
pub struct Mean {
    pub first: Share,
    pub second: Share,
    pub third: Share,
    pub fourth: Share,
    pub over: u32,
}

/// Which values of a slot a decision prefers. A step of 0 counts as 1.
#[derive(Debug, Clone, Copy, PartialEq, Eq)]
pub enum Wish {
    /// An end of the slot, or any value of it.
    Free,
    /// Each multiple of the step alike.
    Even {
        step: u32,
    },
    /// At most so far from the value of another slot, and then each multiple of the step alike.
    Around {
        near: u32,
        reach: u32,
        step: u32,
    },
    /// The mean, rounded down to a number that differs from the value of the base by a multiple of the step. Without a
    /// base, to a multiple of the step.
    Like {
        mean: Mean,
        base: Option<u32>,
        step: u32,
    },
}

/// A slot, and what is wished of its value.
#[derive(Debug, Clone, Copy, PartialEq, Eq)]
pub struct Entry {
    pub slot: u32,
    pub wish: Wish,
}
