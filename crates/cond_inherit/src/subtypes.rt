//! The conditions of the conditional subtypes of each type.

ghost use Rattle.std.specs.Prelude.{◌≡◌, ◌++◌, ◌<◌, ℕ, [], ◌∷◌, cond, length, map, nat_eq, option_map, option_to_list, slice_index_or, IfOk, OnOk};
ghost use Rattle.cond_inherit.specs.SubtypeConditions.{AreConditions, condition_at, condition_under, seen_condition, seen_rows};

use crate::Condition;
use std::alloc::{AllocError, Global};
use type_model::{Row, Text, TypeId, Types};

/// The conditions of the conditional subtypes of each type, that `seen_rows` sees as a list for each type.
#[derive(Drop)]
pub struct Subtypes {
    rows: Vec<Row<Condition>>,
}

/// Makes rows up to that of a type.
fn grow(alloc: Global, rows: &mut Vec<Row<Condition>>, of: TypeId) -> Result<(), AllocError>
    ensures rows { OnOk result ((t : ℕ) → slice_index_or rows.new.items t [] ≡ slice_index_or rows.old.items t []) }
    ensures enough { OnOk result (of < length rows.new.items) }
{
    'rows: while rows.len() <= of.0 as usize {
        rows.push(Row::new(alloc))?;
    }
    Ok(())
}

/// Puts a condition into the row of a type.
fn put(
    alloc: Global,
    rows: &mut Vec<Row<Condition>>,
    base: TypeId,
    condition: Condition,
) -> Result<(), AllocError>
    ensures { OnOk result ((t : ℕ) → slice_index_or rows.new.items t [] ≡ slice_index_or rows.old.items t [] ++ cond (nat_eq t base) (condition ∷ []) []) }
{
    grow(alloc, rows, base)?;
    let row = &mut rows[base.0 as usize];
    row.push(condition)
}

/// The condition of a type, if it is a conditional subtype.
fn own_condition(alloc: Global, types: &Types, of: TypeId) -> Result<Option<Condition>, AllocError>
    ensures { IfOk result (λ c. option_map seen_condition c ≡ condition_at types.now of) }
{
    let Some((field, value)) = types.condition(of) else {
        return Ok(None);
    };
    let field = Text::copy(alloc, field)?;
    Ok(Some(Condition {
        field,
        value,
        subtype: of,
    }))
}

/// Puts the condition of a type into the row of its base, if it is a conditional subtype.
fn put_condition(
    alloc: Global,
    rows: &mut Vec<Row<Condition>>,
    types: &Types,
    of: TypeId,
) -> Result<(), AllocError>
    ensures { OnOk result ((t : ℕ) → map seen_condition (slice_index_or rows.new.items t []) ≡ map seen_condition (slice_index_or rows.old.items t []) ++ option_to_list (condition_under types.now t of)) }
{
    let Some(base) = types.base(of) else {
        return Ok(());
    };
    match own_condition(alloc, types, of)? {
        Some(condition) => put(alloc, rows, base, condition),
        None => Ok(()),
    }
}

impl Subtypes {
    /// The conditions of the conditional subtypes of all types.
    pub fn build(alloc: Global, types: &Types) -> Result<Subtypes, AllocError>
        ensures { IfOk result (λ s. AreConditions types.now (seen_rows s)) }
    {
        let mut rows = Vec::new(alloc);
        for number in 0..types.count() {
            put_condition(alloc, &mut rows, types, TypeId(number))?;
        }
        Ok(Subtypes { rows })
    }

    /// The conditions of the conditional subtypes of a type, in load order.
    pub fn of(&self, base: TypeId) -> &[Condition]
        ensures { map seen_condition result.now ≡ slice_index_or (seen_rows self.now) base [] }
    {
        match self.rows.get(base.0 as usize) {
            Some(row) => row.as_slice(),
            None => &[],
        }
    }
}
