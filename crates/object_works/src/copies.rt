//! Copies of parts of works.

ghost use Rattle.std.specs.Prelude.{◌≡◌, IfOk};

use expr_nodes::Turn;
use osc_base::Row;
use program_texts::{Guard, ValueRange};
use scene_expansion::Binding;
use std::alloc::{AllocError, Global};

/// An equal condition.
pub(crate) fn copy_guard(alloc: Global, guard: &Guard) -> Result<Guard, AllocError>
    ensures { IfOk result (λ g. g ≡ guard.now) }
{
    match guard {
        Guard::Choice { phase, member } => Ok(Guard::Choice {
            phase: phase.copy(alloc)?,
            member: *member,
        }),
        Guard::Value { path, value } => Ok(Guard::Value {
            path: path.copy(alloc)?,
            value: *value,
        }),
    }
}

/// Equal conditions.
pub fn copy_guards(alloc: Global, guards: &[Guard]) -> Result<Row<Guard>, AllocError>
    ensures { IfOk result (λ gs. gs ≡ guards.now) }
{
    let mut copies = Row::new(alloc);
    for guard in guards {
        copies.push(copy_guard(alloc, guard)?)?;
    }
    Ok(copies)
}

/// An equal binding.
pub fn copy_binding(alloc: Global, binding: &Binding) -> Result<Binding, AllocError>
    ensures { IfOk result (λ b. b ≡ binding.now) }
{
    Ok(Binding {
        at: binding.at.copy(alloc)?,
        home: binding.home.copy(alloc)?,
    })
}

/// Equal bindings.
pub fn copy_bindings(alloc: Global, bindings: &[Binding]) -> Result<Row<Binding>, AllocError>
    ensures { IfOk result (λ bs. bs ≡ bindings.now) }
{
    let mut copies = Row::new(alloc);
    for binding in bindings {
        copies.push(copy_binding(alloc, binding)?)?;
    }
    Ok(copies)
}

/// An equal turn.
fn copy_turn(alloc: Global, turn: &Turn) -> Result<Turn, AllocError>
    ensures { IfOk result (λ t. t ≡ turn.now) }
{
    Ok(Turn {
        phase: turn.phase.copy(alloc)?,
        member: turn.member,
    })
}

/// Equal turns.
pub(crate) fn copy_way(alloc: Global, way: &[Turn]) -> Result<Row<Turn>, AllocError>
    ensures { IfOk result (λ turns. turns ≡ way.now) }
{
    let mut copies = Row::new(alloc);
    for turn in way {
        copies.push(copy_turn(alloc, turn)?)?;
    }
    Ok(copies)
}

fn copy_numbers(alloc: Global, numbers: &[i64]) -> Result<Row<i64>, AllocError>
    ensures { IfOk result (λ r. r ≡ numbers.now) }
{
    let mut copies = Row::new(alloc);
    for number in numbers {
        copies.push(*number)?;
    }
    Ok(copies)
}

/// An equal range.
pub fn copy_range(alloc: Global, range: &ValueRange) -> Result<ValueRange, AllocError>
    ensures { IfOk result (λ r. r ≡ range.now) }
{
    match range {
        ValueRange::Between { low, high } => Ok(ValueRange::Between {
            low: *low,
            high: *high,
        }),
        ValueRange::Among { numbers } => Ok(ValueRange::Among {
            numbers: copy_numbers(alloc, numbers.as_slice())?,
        }),
        ValueRange::Chars => Ok(ValueRange::Chars),
    }
}
