use box_eval::Cut;

/// A decision whose second part is untried.
#[derive(Clone, Copy)]
pub struct Decision {
    pub cut: Cut,
    /// The number of cuts above the box that it divides.
    pub mark: u32,
    /// The number of rules that were marked as done when it was made.
    pub marked: u32,
}
