//! Where the paths of a text lead.

ghost use Rattle.std.specs.Prelude.{◌≡◌, codes, map, IfOk};
ghost use Rattle.dsl_tree.specs.osc_base.Paths.{path_of, same_step};
ghost use Rattle.dsl_tree.specs.osc_base.declared.path.Step.TheVariants.{Name};
ghost use Rattle.expansion_laws.specs.composition.Homes.{home as home_by};
ghost use Rattle.scene_texts.specs.Moving.{moved_path, path_under, seen_bound};

use crate::paths::{after, joined};
use dsl_tree::osc_base::{Path, Step};
use std::alloc::{AllocError, Global};

/// A parameter is another name of what stands at its home.
#[derive(Drop)]
pub struct Bound {
    pub at: Path,
    pub home: Path,
}

/// The object in whose members a text stands, what `it` is in the text, and the homes of parameters.
#[derive(Clone, Copy)]
pub struct Moves<'a> {
    pub object: &'a Path,
    pub it: &'a Path,
    pub homes: &'a [Bound],
}

/// Where what the path of these steps leads to stands by itself: a prefix that is bound is replaced by its home.
pub fn home(alloc: Global, homes: &[Bound], steps: &[Step]) -> Result<Path, AllocError>
    ensures { IfOk result (λ p. p ≡ home_by (map seen_bound homes.now) (path_of steps.now)) }
{
    let mut rest = homes;
    while let [bound, others @ ..] = rest {
        if let Some(later) = after(bound.at.steps.as_slice(), steps) {
            return joined(alloc, bound.home.steps.as_slice(), later);
        }
        rest = others;
    }
    joined(alloc, &[], steps)
}

/// Whether the step is the word `it`.
fn is_it(step: &Step) -> bool
    ensures { result ≡ same_step step.now (Name (codes "it")) }
{
    match step {
        Step::Name(name) => name.as_str() == "it",
        Step::Index(_) | Step::Member(_) => false,
    }
}

impl Moves<'_> {
    /// A path of the text, from the named scenario on.
    pub fn from_root(&self, alloc: Global, path: &Path) -> Result<Path, AllocError>
        ensures { IfOk result (λ p. p ≡ path_under self.now.object.now self.now.it.now path.now) }
    {
        match path.steps.as_slice() {
            [] => joined(alloc, self.object.steps.as_slice(), &[]),
            [first, later @ ..] => {
                if is_it(first) {
                    joined(alloc, self.it.steps.as_slice(), later)
                } else {
                    joined(alloc, self.object.steps.as_slice(), path.steps.as_slice())
                }
            }
        }
    }

    /// The home of a path of the text.
    pub fn place(&self, alloc: Global, path: &Path) -> Result<Path, AllocError>
        ensures { IfOk result (λ p. p ≡ moved_path self.now path.now) }
    {
        let whole = self.from_root(alloc, path)?;
        home(alloc, self.homes, whole.steps.as_slice())
    }
}
