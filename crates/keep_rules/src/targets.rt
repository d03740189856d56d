//! Which marks override a default.

ghost use Rattle.std.specs.Prelude.{◌≡◌, ◌+◌, ◌++◌, ℕ, drop, IfOk, OnOk};
ghost use Rattle.path_index.specs.osc_base.declared.path.Path.{Path};
ghost use Rattle.keep_rules.specs.Overriding.{overriders as definition};
ghost use Rattle.keep_rules.specs.TargetRows.{row_at, own_at, added};
ghost use Rattle.keep_rules.specs.TargetLists.{later_of};

use crate::rows::TargetRows;
use path_index::osc_base::{Mark, Path, Row, Strength};
use std::alloc::{AllocError, Global};

/// Where a default stands among the marks with its target: those from `skip` on are later.
#[derive(Drop)]
pub(crate) struct Own {
    target: Path,
    skip: usize,
}

/// The marks of a scene, grouped by their targets.
#[derive(Drop)]
pub struct Targets {
    rows: TargetRows,
    owns: Row<Option<Own>>,
}

impl Targets {
    /// The marks, grouped by their targets. More marks than a `u32` counts are out of memory.
    pub fn build(alloc: Global, marks: &[Mark]) -> Result<Targets, AllocError>
        ensures { IfOk result (λ t. (i : ℕ) → later_of t i ≡ definition marks.now i) }
    {
        let mut rows = TargetRows::new(alloc);
        let mut owns = Row::new(alloc);
        let mut number: u32 = 0;
        for mark in marks {
            let own = own_of(alloc, &rows, mark)?;
            owns.push(own)?;
            add(alloc, &mut rows, mark, number)?;
            number = next_number(number)?;
        }
        Ok(Targets { rows, owns })
    }

    /// The numbers of the marks that override mark `i` if they are there, ascending: for a default the later ones with
    /// its target, and none for another mark.
    pub fn overriders(&self, i: u32) -> &[u32]
        ensures { result.now ≡ later_of self.now i }
    {
        match self.owns.as_slice().get(i as usize) {
            Some(Some(own)) => from(self.rows.get(&own.target), own.skip),
            Some(None) | None => &[],
        }
    }
}

/// Where a mark stands among those with its target, if it is a default that has one.
fn own_of(alloc: Global, rows: &TargetRows, mark: &Mark) -> Result<Option<Own>, AllocError>
    ensures { IfOk result (λ o. o ≡ own_at rows.now mark.now) }
{
    match mark.strength {
        Strength::Default => match &mark.target {
            Some(target) => Ok(Some(Own {
                target: target.copy(alloc)?,
                skip: rows.get(target).len() + 1,
            })),
            None => Ok(None),
        },
        Strength::Hard | Strength::Remove => Ok(None),
    }
}

/// Puts the number of a mark to those with its target, if it has one.
fn add(alloc: Global, rows: &mut TargetRows, mark: &Mark, number: u32) -> Result<(), AllocError>
    ensures { OnOk result ((path : Path) → row_at rows.new path ≡ row_at rows.old path ++ added path mark.now.target number) }
{
    match &mark.target {
        Some(target) => rows.push(alloc, target, number),
        None => Ok(()),
    }
}

/// The numbers from a place on.
fn from(numbers: &[u32], skip: usize) -> &[u32]
    ensures { result.now ≡ drop skip numbers.now }
{
    if skip <= numbers.len() {
        &numbers[skip..]
    } else {
        &[]
    }
}

/// The next number. A number that a `u32` doesn't hold counts as out of memory.
fn next_number(number: u32) -> Result<u32, AllocError>
    ensures { IfOk result (λ n. n ≡ number + 1) }
{
    number.checked_add(1).ok_or(AllocError)
}
