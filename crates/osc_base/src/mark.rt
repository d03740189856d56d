use crate::Path;

/// What a constraint asks for.
#[derive(Debug, Clone, Copy, PartialEq, Eq)]
pub enum Strength {
    /// It holds in every run in which it is there.
    Hard,
    /// It holds if no later constraint overrides it.
    Default,
    /// It asks for nothing and overrides the defaults before it.
    Remove,
}

/// What decides which constraints override which: the home path of the field or duration that a
/// constraint is about, if it is about one, and its strength.
#[derive(Debug, PartialEq, Eq, Drop)]
pub struct Mark {
    pub target: Option<Path>,
    pub strength: Strength,
}
