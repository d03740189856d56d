//! The conditional subtypes of each type.

ghost use Rattle.std.specs.Prelude.{◌≡◌, ◌++◌, ◌<◌, ℕ, [], ◌∷◌, cond, length, map, nat_eq, slice_index_or, IfOk, OnOk};
ghost use Rattle.type_heads.specs.Bodied.{seen_body};
ghost use Rattle.type_members.specs.Listed.{AreSubtypes, is_subtype};

use crate::bodied::conditional_base;
use std::alloc::{AllocError, Global};
use std::marker::Model;
use type_heads::{Body, Heads, Row, TypeId};

/// The conditional subtypes of each type. Contracts see them as a list of lists.
#[derive(Drop)]
pub struct Subtypes {
    rows: Vec<Row<TypeId>>,
}

impl Model for Subtypes {
    ghost use Rattle.std.specs.Prelude.{List, ℕ};

    ghost Value = { List (List ℕ) };

    ghost view = { λ s. s.rows.items };
}

/// Makes rows up to that of a type.
fn grow(alloc: Global, rows: &mut Vec<Row<TypeId>>, of: TypeId) -> Result<(), AllocError>
    ensures rows { OnOk result ((t : ℕ) → slice_index_or rows.new.items t [] ≡ slice_index_or rows.old.items t []) }
    ensures enough { OnOk result (of < length rows.new.items) }
{
    'rows: while rows.len() <= of.0 as usize {
        rows.push(Row::new(alloc))?;
    }
    Ok(())
}

/// Puts a type into the row of another.
fn put(
    alloc: Global,
    rows: &mut Vec<Row<TypeId>>,
    base: TypeId,
    of: TypeId,
) -> Result<(), AllocError>
    ensures { OnOk result ((t : ℕ) → slice_index_or rows.new.items t [] ≡ slice_index_or rows.old.items t [] ++ cond (nat_eq t base) (of ∷ []) []) }
{
    grow(alloc, rows, base)?;
    let row = &mut rows[base.0 as usize];
    row.push(of)
}

/// Puts a type into the row of its base, if it is a conditional subtype.
fn put_subtype(
    alloc: Global,
    rows: &mut Vec<Row<TypeId>>,
    heads: &Heads,
    bodies: &[Body<'_>],
    of: TypeId,
) -> Result<(), AllocError>
    ensures { OnOk result ((t : ℕ) → slice_index_or rows.new.items t [] ≡ slice_index_or rows.old.items t [] ++ cond (is_subtype heads.now (map seen_body bodies.now) t of) (of ∷ []) []) }
{
    match conditional_base(heads, bodies, of) {
        Some(base) => put(alloc, rows, base, of),
        None => Ok(()),
    }
}

impl Subtypes {
    /// The conditional subtypes of each type.
    pub fn build(alloc: Global, heads: &Heads, bodies: &[Body<'_>]) -> Result<Subtypes, AllocError>
        ensures { IfOk result (AreSubtypes heads.now (map seen_body bodies.now)) }
    {
        let mut rows = Vec::new(alloc);
        for number in 0..heads.count() {
            put_subtype(alloc, &mut rows, heads, bodies, TypeId(number))?;
        }
        Ok(Subtypes { rows })
    }

    /// Those of a type, in load order.
    pub fn of(&self, of: TypeId) -> &[TypeId]
        ensures { result.now ≡ slice_index_or self.now of [] }
    {
        match self.rows.get(of.0 as usize) {
            Some(row) => row.as_slice(),
            None => &[],
        }
    }
}
