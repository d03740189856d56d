//! Where what a path leads to stands by itself.

ghost use Rattle.std.specs.Prelude.{◌≡◌, ◌++◌, drop, find, option_copied, IfOk, OnOk};
ghost use Rattle.composition.specs.SeenHomes as seen;
ghost use Rattle.composition.specs.SeenHomes.{leads, moved_on, least_place};
ghost use Rattle.composition.specs.SeenScenes.{seen_scene};
ghost use Rattle.composition.specs.Homes as homes;
ghost use Rattle.keep_rules.specs.path_index.Places.{first_place};

use crate::part::Binding;
use crate::scene::Scene;
use crate::source::Source;
use expr_nodes::{Path, Row};
use keep_rules::path_index::found;
use keep_rules::path_index::osc_base::Step;
use std::alloc::{AllocError, Global};

impl Scene {
    /// The home of a path. `None` if the scene has no such path.
    pub fn home(&self, alloc: Global, path: &Path) -> Result<Option<Path>, AllocError>
        ensures { IfOk result (λ h. h ≡ homes.home_of (seen_scene self.now) path.now) }
    {
        let home = self.moved(alloc, path)?;
        if self.is_home(&home) {
            Ok(Some(home))
        } else {
            Ok(None)
        }
    }

    /// There is a part with the path, or a duration.
    fn is_home(&self, path: &Path) -> bool
        ensures { result ≡ homes.is_home (seen_scene self.now) path.now }
    {
        match found(&self.part_indexes.spots, self.spots.as_slice(), path) {
            Some(_) => true,
            None => is_timed(self.source(path)),
        }
    }

    /// The path with the parameter that it leads through replaced by its home.
    pub fn moved(&self, alloc: Global, path: &Path) -> Result<Path, AllocError>
        ensures { IfOk result (λ h. h ≡ homes.home (seen_scene self.now).bindings path.now) }
    {
        match self.first_binding(alloc, path)? {
            Some(binding) => moved_on(alloc, binding, path),
            None => path.copy(alloc),
        }
    }

    /// The first parameter that the path leads through.
    fn first_binding(&self, alloc: Global, path: &Path) -> Result<Option<&Binding>, AllocError>
        ensures { IfOk result (λ b. option_copied b ≡ find (leads path.now.steps) self.now.bindings) }
    {
        match self.first_binding_place(alloc, path)? {
            Some(place) => Ok(self.bindings.as_slice().get(place as usize)),
            None => Ok(None),
        }
    }

    /// The least place of a parameter whose path is the path or a prefix of it.
    fn first_binding_place(&self, alloc: Global, path: &Path) -> Result<Option<u32>, AllocError>
        ensures { IfOk result (λ n. n ≡ first_place (leads path.now.steps) 0 self.now.bindings) }
    {
        let mut prefix = Path {
            steps: Row::new(alloc),
        };
        let mut first = self.part_indexes.bindings.get(&prefix);
        for step in path.steps.as_slice() {
            prefix.steps.push(step.copy(alloc)?)?;
            first = least_place(first, self.part_indexes.bindings.get(&prefix));
        }
        Ok(first)
    }
}

/// The lesser of two places.
fn least_place(a: Option<u32>, b: Option<u32>) -> Option<u32>
    ensures { result ≡ least_place a b }
{
    match (a, b) {
        (Some(a), Some(b)) => Some(a.min(b)),
        (Some(a), None) => Some(a),
        (None, b) => b,
    }
}

/// A duration is read there.
fn is_timed(source: Source<'_>) -> bool
    ensures { result ≡ seen.is_timed source.entry }
{
    match source {
        Source::Run | Source::Phase(_) => true,
        Source::Value => false,
    }
}

/// The home of the parameter, with what the path has after the parameter.
fn moved_on(alloc: Global, binding: &Binding, path: &Path) -> Result<Path, AllocError>
    ensures { IfOk result (λ p. p ≡ moved_on path.now binding.now) }
{
    let mut moved = binding.home.copy(alloc)?;
    let later = after(path.steps.as_slice(), binding.at.steps.as_slice().len());
    push_copies(alloc, &mut moved.steps, later)?;
    Ok(moved)
}

/// The steps after the first so many.
fn after(steps: &[Step], count: usize) -> &[Step]
    ensures { result.now ≡ drop count steps.now }
{
    if count <= steps.len() {
        &steps[count..]
    } else {
        &[]
    }
}

/// Puts copies of the steps at the end.
fn push_copies(alloc: Global, steps: &mut Row<Step>, more: &[Step]) -> Result<(), AllocError>
    ensures { OnOk result (steps.new ≡ steps.old ++ more.now) }
{
    for step in more {
        steps.push(step.copy(alloc)?)?;
    }
    Ok(())
}
