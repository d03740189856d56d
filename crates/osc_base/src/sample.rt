/// What a vehicle does at one tick: its lane (1 is the rightmost), its position in micrometres and
/// its speed in millimetres a second.
#[derive(Debug, Clone, Copy, PartialEq, Eq)]
pub struct Sample {
    pub lane: i64,
    pub position: i64,
    pub speed: i64,
}

/// The numbers of the slots that hold a sample.
#[derive(Debug, Clone, Copy, PartialEq, Eq)]
pub struct SampleSlots {
    pub lane: u32,
    pub position: u32,
    pub speed: u32,
}
