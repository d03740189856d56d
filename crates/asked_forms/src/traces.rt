use field_flatten::Trace;
use osc_base::Row;

/// A recording of a drive: the tick at which it ends, and the samples of some vehicles, one for each tick from 0 to the end.
#[derive(Drop)]
pub struct Traces {
    pub end: u32,
    pub traces: Row<Trace>,
}
