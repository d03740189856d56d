//! Rows of items.

ghost use Rattle.std.specs.Prelude.{◌≡◌, ◌≢◌, ◌<◌, ◌∷◌};
ghost use Rattle.dsl_cursor.specs.Words.{[], List, length, drop, Err, IfOk, IfErr, Memory, Part, Of, newline, indent, dedent, Forest, first, starts, read, in_row, Gives, IsNext, IsRow, in_block, IsItemRow};

use crate::signs::Sign;
use crate::stop::Stop;
use crate::tokens::Cursor;
use dsl_tree::osc_base::Row;
use std::alloc::{AllocError, Global};

/// What stands in rows.
pub trait Repeated {
    /// The tree of one item.
    type Tree: Drop;

    /// What is left of a row after an item.
    ghost tail: { Part };

    /// What that is written as.
    ghost rest: { List Self.Tree → Forest };

    /// Another item with what stands before it, if the tokens go on with the row.
    fn next(alloc: Global, tokens: &mut Cursor<'_>) -> Result<Option<Self::Tree>, Stop>
        ensures { IsNext tail rest tokens.old result tokens.new };
}

/// What stands in rows without anything between.
pub trait Item {
    /// Its tree.
    type Tree: Drop;

    /// An item, and any number of them.
    ghost part: { Part };

    ghost tail: { Part };

    /// What they are written as.
    ghost item: { Self.Tree → Forest };

    ghost rest: { List Self.Tree → Forest };

    /// Whether the tokens begin with an item.
    fn begins(tokens: &Cursor<'_>) -> bool
        ensures { result ≡ starts (first tail) tokens.now };

    fn item(alloc: Global, tokens: &mut Cursor<'_>) -> Result<Self::Tree, Stop>
        ensures { Gives item (read part tokens.old) result tokens.new };

    ghost law: { IsItemRow part tail item rest };
}

/// The row with this item alone.
pub fn row_of<T: Drop>(alloc: Global, item: T) -> Result<Row<T>, AllocError>
    ensures { IfOk result (λ row. row ≡ item ∷ []) }
{
    let mut row = Row::new(alloc);
    row.push(item)?;
    Ok(row)
}

/// The row with the items after those that it begins with.
pub fn with_rest<T: Repeated>(
    alloc: Global,
    begun: Row<T::Tree>,
    tokens: &mut Cursor<'_>,
) -> Result<Row<T::Tree>, Stop>
    ensures ok { IfOk result (λ row. IsRow T.tail T.rest begun row tokens.old tokens.new) }
    ensures err { IfErr result (λ e. e ≢ Memory → read T.tail tokens.old ≡ Err e) }
{
    let mut row = begun;
    'items: while let Some(item) = T::next(alloc, tokens)? {
        row.push(item)?;
    }
    Ok(row)
}

/// The row with this item and those after it.
pub fn row_from<T: Repeated>(
    alloc: Global,
    first: T::Tree,
    tokens: &mut Cursor<'_>,
) -> Result<Row<T::Tree>, Stop>
    ensures first { IfOk result (λ row. row ≡ first ∷ drop 1 row) }
    ensures rest { Gives (λ row. T.rest (drop 1 row)) (read T.tail tokens.old) result tokens.new }
{
    with_rest::<T>(alloc, row_of(alloc, first)?, tokens)
}

/// The items with all that stand after them.
fn with_items<T: Item>(
    alloc: Global,
    begun: Row<T::Tree>,
    tokens: &mut Cursor<'_>,
) -> Result<Row<T::Tree>, Stop>
    ensures ok { IfOk result (λ all. IsRow T.tail T.rest begun all tokens.old tokens.new) }
    ensures err { IfErr result (λ e. e ≢ Memory → read T.tail tokens.old ≡ Err e) }
{
    let mut row = begun;
    'items: while T::begins(tokens) {
        let item = T::item(alloc, tokens)?;
        row.push(item)?;
    }
    Ok(row)
}

/// All items that are left of a row.
pub fn items<T: Item>(alloc: Global, tokens: &mut Cursor<'_>) -> Result<Row<T::Tree>, Stop>
    ensures { Gives T.rest (read T.tail tokens.old) result tokens.new }
{
    with_items::<T>(alloc, Row::new(alloc), tokens)
}

/// A block: the line end and the indentation, one item or more, and the end of the block.
pub fn block<T: Item>(alloc: Global, tokens: &mut Cursor<'_>) -> Result<Row<T::Tree>, Stop>
    ensures gives { Gives (in_block T.item T.rest) (in_row read (newline ∷ indent ∷ Of T.part ∷ Of T.tail ∷ dedent ∷ []) tokens.old) result tokens.new }
    ensures some { IfOk result (λ all. 0 < length all) }
{
    tokens.expect(Sign::Newline)?;
    tokens.expect(Sign::Indent)?;
    let first = T::item(alloc, tokens)?;
    let row = with_items::<T>(alloc, row_of(alloc, first)?, tokens)?;
    tokens.expect(Sign::Dedent)?;
    Ok(row)
}
