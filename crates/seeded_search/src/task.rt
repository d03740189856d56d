use crate::lists::Lists;
use box_eval::Flat;
use search_plans::Entry;

/// What a call of the search was given to find and how, which stays as it is.
#[derive(Drop)]
pub struct Task<'a> {
    pub flat: &'a Flat,
    pub lists: &'a Lists,
    /// In which order slots are decided, and which values are wished.
    pub plan: &'a [Entry],
    pub seed: u64,
    /// The greatest number of cuts.
    pub cuts: u32,
}
