/// The most rules that a sum has.
pub const MOST_PICKS: usize = 64;

/// A rule of a flat form, taken so many times. Rules count from 0.
#[derive(Debug, Default, Clone, Copy, PartialEq, Eq)]
pub struct Pick {
    pub times: u32,
    pub rule: u32,
}

/// Two picks whose coefficients cancel each other.
#[derive(Debug, Default, Clone, Copy, PartialEq, Eq)]
pub struct Facing {
    pub first: Pick,
    pub second: Pick,
}
