ghost use Rattle.std.specs.Prelude.{◌≡◌};
ghost use Rattle.dsl_spell.specs.Writing.{[], List, OnOk, Forest, nil, Writes, Steps, comma_row, with_rows};

use crate::writer::Writer;
use dsl_tree::{MarkKind, WordKind};
use std::alloc::AllocError;

/// What stands in rows.
pub(crate) trait Next {
    /// What is left of a row is written as this.
    ghost tail: { List Self → Forest };

    /// Writes the item with what stands before it.
    fn next(&self, w: &mut Writer) -> Result<(), AllocError>
        ensures { OnOk result (Steps tail self.now w.old w.new) };

    ghost ends: { tail [] ≡ nil };
}

/// What stands in rows with commas.
pub(crate) trait Item: Next {
    ghost item: { Self → Forest };

    fn item(&self, w: &mut Writer) -> Result<(), AllocError>
        ensures { OnOk result (Writes w.old (item self.now) w.new) };
}

pub(crate) fn push_rest<T: Next>(w: &mut Writer, items: &[T]) -> Result<(), AllocError>
    ensures { OnOk result (Writes w.old (T.tail items.now) w.new) }
{
    'items: for item in items {
        item.next(w)?;
    }
    Ok(())
}

/// Items with commas between them.
pub(crate) fn push_commas<T: Item>(w: &mut Writer, items: &[T]) -> Result<(), AllocError>
    ensures { OnOk result (Writes w.old (comma_row T.item T.tail items.now) w.new) }
{
    match items.split_first() {
        None => Ok(()),
        Some((first, others)) => {
            first.item(w)?;
            push_rest(w, others)
        }
    }
}

/// A block after `with:`, or the end of the line if nothing stands in it.
pub(crate) fn push_with<T: Next>(w: &mut Writer, items: &[T]) -> Result<(), AllocError>
    ensures { OnOk result (Writes w.old (with_rows T.tail items.now) w.new) }
{
    match items {
        [] => w.line_end(),
        [_, ..] => {
            w.bare_word(WordKind::WithWord)?;
            w.bare_mark(MarkKind::Colon)?;
            w.begin_block()?;
            push_rest(w, items)?;
            w.end_block()
        }
    }
}
