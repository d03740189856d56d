use composition::Clause;
use osc_base::{Path, Place};

/// Why a run is no instance: the clause that fails, where it fails, and the place in the source of the
/// constraint or modifier that it is about, if it is about one.
#[derive(Debug, PartialEq, Eq, Drop)]
pub struct Wrong {
    pub clause: Clause,
    pub path: Path,
    pub place: Option<Place>,
}
