//! What modifiers compare with their ranges.

ghost use Rattle.std.specs.Prelude.{◌<◌};

/// A number that a modifier compares with its range: what is in a slot, or how much more than what is in another. So
/// many units of it make a whole one.
#[derive(Clone, Copy)]
pub(crate) struct Quantity {
    pub unit: u128,
    pub slot: u32,
    pub less: Option<u32>,
    ghost positive: { 0 < unit },
}
