//! Traces, with an index of their paths.

ghost use Rattle.std.specs.Prelude.{◌≡◌, ◌++◌, ◌∷◌, [], IfOk};
ghost use Rattle.trace_texts.specs.TraceShape.{AreSeen, has_path};

use asked_forms::Trace;
use indexmap::IndexMap;
use osc_base::{Path, Row};
use std::alloc::{AllocError, Global};

/// Traces in order, and an index of their paths: whether a path is new is found without going through the traces.
#[derive(Drop)]
pub(crate) struct Gathered {
    pub traces: Row<Trace>,
    seen: IndexMap<Path, usize>,
    ghost are_seen: { AreSeen seen traces },
}

impl Gathered {
    pub fn new(alloc: Global) -> Gathered
        ensures { result.traces ≡ [] }
    {
        Gathered {
            traces: Row::new(alloc),
            seen: IndexMap::new(alloc),
        }
    }

    /// One of the traces is of the path.
    pub fn has(&self, path: &Path) -> bool
        ensures { result ≡ has_path self.now.traces path.now }
    {
        self.seen.contains_key(path)
    }

    /// The traces, and one more.
    pub fn with(self, alloc: Global, trace: Trace) -> Result<Gathered, AllocError>
        ensures { IfOk result (λ g. g.traces ≡ self.traces ++ trace ∷ []) }
    {
        let mut traces = self.traces;
        let mut seen = self.seen;
        let place = traces.as_slice().len();
        seen.insert(trace.path.copy(alloc)?, place)?;
        traces.push(trace)?;
        Ok(Gathered { traces, seen })
    }
}
