use expr_nodes::Path;

/// What is read at a path.
#[derive(Clone, Copy)]
pub enum Source<'a> {
    /// The duration of the whole run.
    Run,
    /// The duration of the phase at this path.
    Phase(&'a Path),
    /// A value.
    Value,
}
