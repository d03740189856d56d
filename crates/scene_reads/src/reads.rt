//! Whether a scene has all that an expression reads.

ghost use Rattle.std.specs.Prelude.{◌≡◌, map};
ghost use Rattle.std.specs.List.{list_all};
ghost use Rattle.expr_nodes.specs.Seen.{seen, reached};
ghost use Rattle.expr_nodes.specs.Typed.{row_of};
ghost use Rattle.composition.specs.Expanded.{is_readable as readable};
ghost use Rattle.composition.specs.SeenScenes.{seen_scene};
ghost use Rattle.scene_reads.specs.Readable.{has, has_part, has_reads, has_row};

use composition::{Scene, Source};
use expr_nodes::{Earlier, Typed};
use osc_base::Path;

/// Whether a path leads to a value or a duration of the scene.
fn is_readable(scene: &Scene, path: &Path) -> bool
    ensures { result ≡ readable (seen_scene scene.now) path.now }
{
    match scene.source(path) {
        Source::Run | Source::Phase(_) => true,
        Source::Value => scene.value(path).is_some(),
    }
}

/// Whether the scene has what a path leads to.
#[tactic(auto, unfolding(crate::specs::Readable::has))]
pub(crate) fn has_path(scene: &Scene, path: &Path) -> bool
    ensures { result ≡ has scene.now path.now }
{
    is_readable(scene, path)
}

/// Whether the scene has all that an expression reads.
#[cycle(reads)]
#[tactic(auto, using(crate::proofs::ReadRows::has_both))]
pub(crate) fn has_all(scene: &Scene, typed: &Typed) -> bool
    ensures { result ≡ has_reads scene.now (seen typed.now) }
{
    match typed {
        Typed::Constant { .. } => true,
        Typed::Read { path, .. } | Typed::Whole { path, .. } => has_path(scene, path),
        Typed::Listed { items, .. } => has_items(scene, items.as_slice()),
        Typed::Span { low, high, .. } => has_all(scene, low.get()) && has_all(scene, high.get()),
        Typed::Minus { part, .. } | Typed::Not { part, .. } => has_all(scene, part.get()),
        Typed::Joined {
            first,
            earlier,
            last,
            ..
        } => {
            has_all(scene, first.get())
                && (has_parts(scene, earlier.as_slice()) && has_all(scene, last.get()))
        }
        Typed::Implies { left, right, .. }
        | Typed::Relation { left, right, .. }
        | Typed::Within { left, right, .. } => {
            has_all(scene, left.get()) && has_all(scene, right.get())
        }
    }
}

/// Whether the scene has all that the items of a list read.
#[cycle(reads)]
#[tactic(auto, using(crate::proofs::ReadRows::has_both))]
fn has_items(scene: &Scene, items: &[Typed]) -> bool
    ensures { result ≡ has_row scene.now (row_of (map seen items.now)) }
{
    'items: for item in items {
        if !has_all(scene, item) {
            return false;
        }
    }
    true
}

/// Whether the scene has all that the parts of a row read.
#[cycle(reads)]
fn has_parts(scene: &Scene, parts: &[Earlier]) -> bool
    ensures { result ≡ list_all (has_part scene.now) (map reached parts.now) }
{
    'parts: for earlier in parts {
        if !has_all(scene, &earlier.part) {
            return false;
        }
    }
    true
}
