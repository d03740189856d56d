//! Scenes with other constraints.

ghost use Rattle.std.specs.Prelude.{◌≡◌};
ghost use Rattle.composition.specs.SeenParts.{scene_of};
ghost use Rattle.composition.specs.SeenScenes.{seen_scene};

use crate::part::{ModifierSpot, Occurrence};
use crate::scene::Scene;
use expr_nodes::Row;

impl Scene {
    /// The scene with these constraints and modifiers in place of its own.
    pub fn with_asked(self, occurrences: Row<Occurrence>, modifiers: Row<ModifierSpot>) -> Scene
        ensures { seen_scene result ≡ scene_of self.spots self.bindings occurrences modifiers self.setting self.texts }
    {
        Scene {
            spots: self.spots,
            bindings: self.bindings,
            occurrences,
            modifiers,
            setting: self.setting,
            texts: self.texts,
            lists: self.lists,
            part_indexes: self.part_indexes,
            list_indexes: self.list_indexes,
        }
    }
}
