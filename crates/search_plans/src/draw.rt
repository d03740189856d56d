/// A number that is to cut a slot with these ends.
#[derive(Debug, Clone, Copy)]
pub(crate) struct Draw {
    pub(crate) number: u64,
    pub(crate) slot: u32,
    pub(crate) low: i64,
    pub(crate) high: i64,
}
