//! Where the slots of a scene's vehicles stand.

ghost use Rattle.std.specs.Prelude.{◌≡◌, ◌≤◌, ◌*◌};
ghost use Rattle.vehicle_plans.specs.Grids.{numbered, slot_at, own_of, block_length};

/// A number of a vehicle at a tick.
#[derive(Clone, Copy)]
pub(crate) enum Quantity {
    Lane,
    Position,
    Speed,
}

/// Where the slots of a scene's vehicles stand, and how many ticks of which length there are.
#[derive(Debug, Clone, Copy)]
pub struct Grid {
    /// The first slot of a vehicle.
    pub first: u32,
    /// How many vehicles there are.
    pub vehicles: u32,
    /// The last tick.
    pub ticks: u32,
    /// The length of a tick in milliseconds.
    pub tick: u32,
}

/// A number, or the greatest of 32 bits.
#[tactic(auto, unfolding(crate::specs::Grids::numbered))]
pub fn numbered(number: u128) -> u32
    ensures { result ≡ numbered number }
{
    number.min(4_294_967_295) as u32
}

/// The product of two numbers up to 2^32.
pub(crate) fn product(a: u64, b: u64) -> u128
    requires first { a ≤ 4294967296 }
    requires second { b ≤ 4294967296 }
    ensures product { result ≡ a * b }
    ensures bound { result ≤ 18446744073709551616 }
{
    u128::from(a) * u128::from(b)
}

impl Quantity {
    fn own(self) -> u32
        ensures { result ≡ own_of self }
    {
        match self {
            Quantity::Lane => 0,
            Quantity::Position => 1,
            Quantity::Speed => 2,
        }
    }
}

impl Grid {
    /// The slot of a vehicle's quantity at a tick.
    #[tactic(auto, unfolding(crate::specs::Grids::slot_at))]
    pub(crate) fn slot(self, quantity: Quantity, vehicle: u32, tick: u32) -> u32
        ensures { result ≡ slot_at self quantity vehicle tick }
    {
        let tracks = product(u64::from(vehicle), u64::from(self.ticks) + 1);
        let place = tracks + u128::from(tick);
        numbered(u128::from(self.first) + place * 3 + u128::from(quantity.own()))
    }

    /// How many ticks a block has.
    pub(crate) fn block_length(self) -> u32
        ensures { result ≡ block_length self }
    {
        (self.ticks / 20 + 1).max(10)
    }
}
