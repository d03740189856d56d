//! Where the slots stand that expressions read.

ghost use Rattle.scene_slots.specs.SeenSlots.{layout_of};

use crate::slots::SceneSlots;
use flat_shapes::{Found, Slots, Source};
use osc_base::Path;

impl<'a> Slots for SceneSlots<'a> {
    ghost layout = { layout_of };

    fn find(&self, path: &Path) -> Found {
        match self.scene.source(path) {
            Source::Run => Found::Run {
                end: self.whole_end(),
            },
            Source::Phase(phase) => Found::Phase {
                start: self.start(phase),
                end: self.end(phase),
            },
            Source::Value => Found::Value {
                slot: self.value(path),
            },
        }
    }

    fn tick(&self) -> u32 {
        self.scene.setting().tick
    }
}
