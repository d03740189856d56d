//! The labels of a `do`, which are found by their names.

ghost use Rattle.std.specs.Prelude.{◌≡◌, bytes_eq, find, map, option_copied, IfOk};

use crate::{Made, Turn};
use std::alloc::{AllocError, Global};
use type_model::{Path, Row, Text, TextTable};

/// A label of a phase, the phase's path from the object and the turns on its way, outermost first, and what it makes.
#[derive(Drop)]
pub struct Label {
    pub name: Text,
    pub path: Path,
    pub way: Row<Turn>,
    pub made: Made,
}

/// The labels of a `do`, in order, and the place of each name.
#[derive(Drop)]
pub struct LabelTable {
    labels: Vec<Label>,
    names: TextTable,
    ghost names_are: { names ≡ map (λ l. l.name) labels.items },
}

/// The names of labels.
fn names_of(alloc: Global, labels: &[Label]) -> Result<Vec<Text>, AllocError>
    ensures { IfOk result (λ names. names.items ≡ map (λ l. l.name) labels.now) }
{
    let mut names = Vec::new(alloc);
    for label in labels {
        names.push(Text::copy(alloc, label.name.as_str())?)?;
    }
    Ok(names)
}

impl LabelTable {
    /// These labels. More of them than a `u32` counts are out of memory.
    pub fn of(alloc: Global, labels: Vec<Label>) -> Result<LabelTable, AllocError>
        ensures { IfOk result (λ table. table.labels.items ≡ labels.items) }
    {
        let names = TextTable::of(alloc, names_of(alloc, labels.as_slice())?)?;
        Ok(LabelTable { labels, names })
    }

    /// The first label of that name.
    pub fn named(&self, name: &str) -> Option<&Label>
        ensures { option_copied result ≡ find (λ l. bytes_eq l.name name.now) self.now.labels.items }
    {
        match self.names.place(name) {
            Some(place) => self.labels.get(place),
            None => None,
        }
    }
}
