//! The object whose parts are laid out.

ghost use Rattle.scene_expansion.specs.path_index.Places.{Places};

use osc_base::Path;
use program_texts::{Guard, TypeId};
use scene_expansion::{Binding, PathIndex};

/// An object of a type at a path, its conditions and the bindings of its parameters, and how many objects may stand in one
/// another in it. `bound` has the place of each parameter among the bindings.
#[derive(Clone, Copy)]
pub(crate) struct Within<'w> {
    pub(crate) steps: u32,
    pub(crate) object: &'w Path,
    pub(crate) of: TypeId,
    pub(crate) guards: &'w [Guard],
    pub(crate) bindings: &'w [Binding],
    pub(crate) bound: &'w PathIndex,
    ghost places: { Places bound.now (λ p. p) (λ b. b.at) bindings.now },
}
