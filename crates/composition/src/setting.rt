/// The bounds within which a run is looked for.
#[derive(Clone, Copy)]
pub struct Setting {
    /// The last tick at which a run may end, from 1 to 600.
    pub ticks: u32,
    /// The number of lanes, from 1 to 8.
    pub lanes: u32,
    /// The length of the road in metres, from 1 to 10000.
    pub road: u32,
    /// The length of a tick in milliseconds, from 10 to 1000.
    pub tick: u32,
}
