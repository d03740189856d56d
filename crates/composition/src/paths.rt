//! At which path each thing stands.

ghost use Rattle.expr_nodes.specs.osc_base.declared.path.Path.{Path};

use crate::part::{Binding, Spot};
use crate::{Choice, ChoiceSpot, PhaseSpot, Span, Trace, Value, ValueSpot};
use expr_nodes::Path;
use keep_rules::path_index::HasPath;

impl HasPath for Spot {
    ghost path_of = { λ s. s.path };

    fn path(&self) -> &Path {
        &self.path
    }
}

impl HasPath for Binding {
    ghost path_of = { λ b. b.at };

    fn path(&self) -> &Path {
        &self.at
    }
}

impl HasPath for ChoiceSpot {
    ghost path_of = { λ s. s.path };

    fn path(&self) -> &Path {
        &self.path
    }
}

impl HasPath for ValueSpot {
    ghost path_of = { λ s. s.path };

    fn path(&self) -> &Path {
        &self.path
    }
}

impl HasPath for PhaseSpot {
    ghost path_of = { λ s. s.path };

    fn path(&self) -> &Path {
        &self.path
    }
}

impl HasPath for Choice {
    ghost path_of = { λ c. c.path };

    fn path(&self) -> &Path {
        &self.path
    }
}

impl HasPath for Value {
    ghost path_of = { λ v. v.path };

    fn path(&self) -> &Path {
        &self.path
    }
}

impl HasPath for Span {
    ghost path_of = { λ s. s.path };

    fn path(&self) -> &Path {
        &self.path
    }
}

impl HasPath for Trace {
    ghost path_of = { λ t. t.path };

    fn path(&self) -> &Path {
        &self.path
    }
}
