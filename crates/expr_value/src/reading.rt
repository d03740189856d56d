//! What the paths hold.

ghost use Rattle.std.specs.Prelude.{◌≡◌, ℤ, pos, Option, Some};
ghost use Rattle.expr_nodes.specs.osc_base.declared.path.Path.{Path};

use expr_nodes::Path;

/// The numbers that paths hold.
pub trait Reading {
    ghost told: { Self → Path → Option ℤ };

    /// The number that a path holds.
    fn held(&self, path: &Path) -> Option<i64>
        ensures { result ≡ told self.now path.now };
}

/// Each path holds 0.
pub(crate) struct Zeros;

impl Reading for Zeros {
    ghost told = { λ s p. Some (pos 0) };

    fn held(&self, _path: &Path) -> Option<i64> {
        Some(0)
    }
}
