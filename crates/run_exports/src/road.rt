/// The road on which a run takes place: it is straight, and its lanes are equally wide.
#[derive(Clone, Copy)]
pub struct Road {
    /// How many lanes it has.
    pub lanes: u32,
    /// The width of a lane in millimetres.
    pub lane_width: u32,
    /// The length of the road in metres.
    pub metres: u32,
}
