//! Where the paths of a text lead in a scene.

ghost use Rattle.std.specs.Prelude.{◌≡◌, IfOk};
ghost use Rattle.scene_places.specs.Placed.{place_in};

use osc_base::Path;
use scene_texts::{Moves, Scene};
use std::alloc::{AllocError, Global};

/// The object in whose members a text stands, what `it` is in the text, and the scene that tells homes.
#[derive(Clone, Copy)]
pub struct Places<'a> {
    pub object: &'a Path,
    pub it: &'a Path,
    pub scene: &'a Scene,
}

impl Places<'_> {
    /// The home of a path of the text.
    #[tactic(auto, unfolding(crate::specs::Placed::home_under))]
    pub fn place(&self, alloc: Global, path: &Path) -> Result<Path, AllocError>
        ensures { IfOk result (λ p. p ≡ place_in self.now path.now) }
    {
        let moves = Moves {
            object: self.object,
            it: self.it,
            homes: &[],
        };
        let whole = moves.from_root(alloc, path)?;
        let home = self.scene.moved(alloc, &whole)?;
        Ok(home)
    }
}
