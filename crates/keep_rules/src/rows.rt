//! The numbers of the marks with each target.

ghost use Rattle.std.specs.Prelude.{◌≡◌, ◌++◌, ◌∷◌, [], cond, IfOk, OnOk};
ghost use Rattle.path_index.specs.osc_base.declared.path.Path.{Path};
ghost use Rattle.path_index.specs.osc_base.Paths.{same_path};
ghost use Rattle.keep_rules.specs.TargetRows.{row_at};

use indexmap::IndexMap;
use path_index::osc_base::{Path, Row};
use std::alloc::{AllocError, Global};

/// The numbers of the marks with each target, ascending.
#[derive(Drop)]
pub(crate) struct TargetRows {
    rows: IndexMap<Path, Row<u32>>,
}

/// A target and the numbers of its marks, while they are out of the rows.
#[derive(Drop)]
struct Taken {
    target: Path,
    numbers: Row<u32>,
}

impl TargetRows {
    /// No marks.
    pub(crate) fn new(alloc: Global) -> TargetRows
        ensures { (path : Path) → row_at result path ≡ [] }
    {
        TargetRows {
            rows: IndexMap::new(alloc),
        }
    }

    /// The numbers of the marks with this target.
    pub(crate) fn get(&self, target: &Path) -> &[u32]
        ensures { result.now ≡ row_at self.now target.now }
    {
        match self.rows.get(target) {
            Some(row) => row.as_slice(),
            None => &[],
        }
    }

    /// Takes out this target and the numbers of its marks.
    fn take(&mut self, alloc: Global, target: &Path) -> Result<Taken, AllocError>
        ensures target { IfOk result (λ t. t.target ≡ target.now) }
        ensures was { IfOk result (λ t. t.numbers ≡ row_at self.old target.now) }
        ensures others { OnOk result ((path : Path) → row_at self.new path ≡ cond (same_path target.now path) [] (row_at self.old path)) }
    {
        match self.rows.swap_remove_entry(target) {
            Some((target, numbers)) => Ok(Taken { target, numbers }),
            None => no_numbers(alloc, target),
        }
    }

    /// Puts a number at the end of those with this target. If it runs out of memory, they are lost.
    pub(crate) fn push(
        &mut self,
        alloc: Global,
        target: &Path,
        number: u32,
    ) -> Result<(), AllocError>
        ensures { OnOk result ((path : Path) → row_at self.new path ≡ row_at self.old path ++ cond (same_path target.now path) (number ∷ []) []) }
    {
        let taken = self.take(alloc, target)?;
        let mut row = taken.numbers;
        row.push(number)?;
        self.rows.insert(taken.target, row)?;
        Ok(())
    }
}

/// A target without marks.
fn no_numbers(alloc: Global, target: &Path) -> Result<Taken, AllocError>
    ensures target { IfOk result (λ t. t.target ≡ target.now) }
    ensures numbers { IfOk result (λ t. t.numbers ≡ []) }
{
    let target = target.copy(alloc)?;
    Ok(Taken {
        target,
        numbers: Row::new(alloc),
    })
}
