//! Copies of conditions.

ghost use Rattle.std.specs.Prelude.{◌≡◌, IfOk};

use osc_base::Row;
use program_texts::Guard;
use std::alloc::{AllocError, Global};

/// An equal condition.
fn copy_guard(alloc: Global, guard: &Guard) -> Result<Guard, AllocError>
    ensures { IfOk result (λ g. g ≡ guard.now) }
{
    match guard {
        Guard::Choice { phase, member } => Ok(Guard::Choice {
            phase: phase.copy(alloc)?,
            member: *member,
        }),
        Guard::Value { path, value } => Ok(Guard::Value {
            path: path.copy(alloc)?,
            value: *value,
        }),
    }
}

/// Equal conditions.
pub(crate) fn copy_guards(alloc: Global, guards: &[Guard]) -> Result<Row<Guard>, AllocError>
    ensures { IfOk result (λ gs. gs ≡ guards.now) }
{
    let mut copies = Row::new(alloc);
    for guard in guards {
        copies.push(copy_guard(alloc, guard)?)?;
    }
    Ok(copies)
}
