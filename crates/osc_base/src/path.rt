ghost use Rattle.std.specs.Prelude.{◌≡◌, ◌++◌, flat_map, IfOk, OnOk};
ghost use Rattle.std.specs.String.{string_bytes};
ghost use Rattle.osc_base.specs.Path.{path_text, first_step_text, later_step_text};
ghost use Rattle.osc_base.specs.Paths.{same_path};

use crate::{Row, Text};
use std::alloc::{AllocError, Global};

/// A step of a path: a name, the number of an element of a list, or the number of a member of a phase.
#[derive(Debug, PartialEq, Eq, Hash, Drop)]
pub enum Step {
    Name(Text),
    Index(u32),
    Member(u32),
}

/// The way from the named scenario to an object, a field or a phase. The empty path leads to the scenario
/// itself, the root.
#[derive(Debug, PartialEq, Eq, Hash, Drop)]
pub struct Path {
    pub steps: Row<Step>,
}

impl Step {
    /// An equal step.
    pub fn copy(&self, alloc: Global) -> Result<Step, AllocError>
        ensures { IfOk result (λ s. s ≡ self.now) }
    {
        match self {
            Step::Name(name) => Ok(Step::Name(Text::copy(alloc, name.as_str())?)),
            Step::Index(number) => Ok(Step::Index(*number)),
            Step::Member(number) => Ok(Step::Member(*number)),
        }
    }
}

impl Path {
    /// An equal path.
    pub fn copy(&self, alloc: Global) -> Result<Path, AllocError>
        ensures { IfOk result (λ p. p ≡ self.now) }
    {
        let mut steps = Row::with_room(alloc, self.steps.as_slice().len())?;
        for step in self.steps.as_slice() {
            steps.push(step.copy(alloc)?)?;
        }
        Ok(Path { steps })
    }
}

impl Path {
    /// Both are one path.
    #[tactic(auto, using(crate::proofs::PathEquality::path_eq))]
    pub fn is(&self, other: &Path) -> bool
        ensures { result ≡ same_path self.now other.now }
    {
        self == other
    }
}

impl Path {
    /// The text of the path: names with a point before each but the first, numbers in square
    /// brackets, and a single point for the root.
    pub fn text(&self, alloc: Global) -> Result<Text, AllocError>
        ensures { IfOk result (λ t. t ≡ path_text self.now.steps) }
    {
        match self.steps.as_slice() {
            [] => Text::copy(alloc, "."),
            [first, later @ ..] => {
                let mut text = String::new(alloc);
                push_first(&mut text, first)?;
                push_later(&mut text, later)?;
                Ok(Text::of(text))
            }
        }
    }
}

fn push_first(text: &mut String, step: &Step) -> Result<(), AllocError>
    ensures { OnOk result (string_bytes text.new ≡ string_bytes text.old ++ first_step_text step.now) }
{
    match step {
        Step::Name(name) => text.push_str(name.as_str()),
        Step::Index(number) | Step::Member(number) => write!(text, "[{number}]"),
    }
}

fn push_later(text: &mut String, steps: &[Step]) -> Result<(), AllocError>
    ensures { OnOk result (string_bytes text.new ≡ string_bytes text.old ++ flat_map later_step_text steps.now) }
{
    for step in steps {
        push_step(text, step)?;
    }
    Ok(())
}

fn push_step(text: &mut String, step: &Step) -> Result<(), AllocError>
    ensures { OnOk result (string_bytes text.new ≡ string_bytes text.old ++ later_step_text step.now) }
{
    match step {
        Step::Name(name) => {
            text.push_str(".")?;
            text.push_str(name.as_str())
        }
        Step::Index(number) | Step::Member(number) => write!(text, "[{number}]"),
    }
}
