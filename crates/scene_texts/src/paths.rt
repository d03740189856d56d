//! Paths made of others.

ghost use Rattle.std.specs.Prelude.{◌≡◌, [], ◌∷◌, ◌++◌, option_copied, IfOk, OnOk};
ghost use Rattle.dsl_tree.specs.osc_base.Paths as Paths;
ghost use Rattle.dsl_tree.specs.osc_base.Paths.{path_of, same_steps, steps_after, same_path as one_path, same_step as one_step};
ghost use Rattle.expansion_laws.specs.composition.Expansion.{from_object as path_from};

use dsl_tree::osc_base::{Path, Row, Step, Text};
use std::alloc::{AllocError, Global};

/// An equal step.
fn copy_step(alloc: Global, step: &Step) -> Result<Step, AllocError>
    ensures { IfOk result (λ s. s ≡ step.now) }
{
    match step {
        Step::Name(name) => Ok(Step::Name(Text::copy(alloc, name.as_str())?)),
        Step::Index(number) => Ok(Step::Index(*number)),
        Step::Member(number) => Ok(Step::Member(*number)),
    }
}

/// Puts equal steps at the end of a row.
fn push_steps(alloc: Global, steps: &mut Row<Step>, more: &[Step]) -> Result<(), AllocError>
    ensures { OnOk result (steps.new ≡ steps.old ++ more.now) }
{
    for step in more {
        steps.push(copy_step(alloc, step)?)?;
    }
    Ok(())
}

/// The path of some steps and then others.
pub fn joined(alloc: Global, steps: &[Step], more: &[Step]) -> Result<Path, AllocError>
    ensures { IfOk result (λ p. p ≡ path_of (steps.now ++ more.now)) }
{
    let mut row = Row::with_room(alloc, steps.len().saturating_add(more.len()))?;
    push_steps(alloc, &mut row, steps)?;
    push_steps(alloc, &mut row, more)?;
    Ok(Path { steps: row })
}

/// The path with a step more.
fn with_step(alloc: Global, path: &Path, step: Step) -> Result<Path, AllocError>
    ensures { IfOk result (λ p. p ≡ path_of (path.now.steps ++ step ∷ [])) }
{
    let steps = path.steps.as_slice();
    let mut row = Row::with_room(alloc, steps.len().saturating_add(1))?;
    push_steps(alloc, &mut row, steps)?;
    row.push(step)?;
    Ok(Path { steps: row })
}

/// The path with a name more.
pub fn then_name(alloc: Global, path: &Path, name: &str) -> Result<Path, AllocError>
    ensures { IfOk result (λ p. p ≡ Paths.then_name path.now name.now) }
{
    let name = Text::copy(alloc, name)?;
    with_step(alloc, path, Step::Name(name))
}

/// An element of the list at a path.
pub fn then_index(alloc: Global, path: &Path, number: u32) -> Result<Path, AllocError>
    ensures { IfOk result (λ p. p ≡ Paths.then_index path.now number) }
{
    with_step(alloc, path, Step::Index(number))
}

/// A member of the phase at a path.
pub fn then_member(alloc: Global, path: &Path, number: u32) -> Result<Path, AllocError>
    ensures { IfOk result (λ p. p ≡ Paths.then_member path.now number) }
{
    with_step(alloc, path, Step::Member(number))
}

/// Where the duration of what stands at a path is read.
pub fn then_duration(alloc: Global, path: &Path) -> Result<Path, AllocError>
    ensures { IfOk result (λ p. p ≡ Paths.then_duration path.now) }
{
    then_name(alloc, path, "duration")
}

/// Where the phase of a scenario's `do` stands.
pub fn then_do(alloc: Global, path: &Path) -> Result<Path, AllocError>
    ensures { IfOk result (λ p. p ≡ Paths.then_do path.now) }
{
    then_name(alloc, path, "do")
}

/// A path from an object, from the named scenario on.
pub fn from_object(alloc: Global, object: &Path, path: &Path) -> Result<Path, AllocError>
    ensures { IfOk result (λ p. p ≡ path_from object.now path.now) }
{
    joined(alloc, object.steps.as_slice(), path.steps.as_slice())
}

/// Whether two steps have an equal name, or an equal role and number.
pub(crate) fn same_step(a: &Step, b: &Step) -> bool
    ensures { result ≡ one_step a.now b.now }
{
    match (a, b) {
        (Step::Name(a), Step::Name(b)) => a.as_str() == b.as_str(),
        (Step::Index(a), Step::Index(b)) => *a == *b,
        (Step::Member(a), Step::Member(b)) => *a == *b,
        (Step::Name(_), Step::Index(_) | Step::Member(_)) => false,
        (Step::Index(_), Step::Name(_) | Step::Member(_)) => false,
        (Step::Member(_), Step::Name(_) | Step::Index(_)) => false,
    }
}

/// The steps after a prefix, if the others begin with it.
pub(crate) fn after<'a>(prefix: &[Step], steps: &'a [Step]) -> Option<&'a [Step]>
    ensures { option_copied result ≡ steps_after prefix.now steps.now }
{
    let (mut left, mut rest) = (prefix, steps);
    while let [first, more @ ..] = left {
        let [own, others @ ..] = rest else {
            return None;
        };
        if !same_step(first, own) {
            return None;
        }
        left = more;
        rest = others;
    }
    Some(rest)
}

/// Whether two paths are one.
pub fn same_path(a: &Path, b: &Path) -> bool
    ensures { result ≡ one_path a.now b.now }
{
    are_same(a.steps.as_slice(), b.steps.as_slice())
}

/// Whether two rows of steps are equal, step by step.
fn are_same(a: &[Step], b: &[Step]) -> bool
    ensures { result ≡ same_steps a.now b.now }
{
    let (mut left, mut rest) = (a, b);
    while let [first, more @ ..] = left {
        let [own, others @ ..] = rest else {
            return false;
        };
        if !same_step(first, own) {
            return false;
        }
        left = more;
        rest = others;
    }
    rest.is_empty()
}
