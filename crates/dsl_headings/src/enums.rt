//! Declarations of enums.

ghost use Rattle.dsl_cursor.specs.Words.{Part, read, in_row, Gives, rule_at};
ghost use Rattle.dsl_tree.specs.WrittenFile as written;

use dsl_cursor::Sign::{self, Mark, Word};
use dsl_cursor::{Cursor, Repeated, Stop, row_from};
use dsl_tree::WordKind::EnumWord;
use dsl_tree::osc_base::Row;
use dsl_tree::{Digits, EnumDecl, EnumItem, MarkKind};
use std::alloc::Global;

#[tactic(auto, using(dsl_cursor::proofs::ReadSteps::read_step))]
fn item_number(tokens: &mut Cursor<'_>) -> Result<Option<Digits>, Stop>
    ensures { Gives written.item_number (read Part.ItemNumber tokens.old) result tokens.new }
{
    match tokens.take(Mark(MarkKind::Assign)) {
        Some(_) => Ok(Some(tokens.expect_whole()?)),
        None => Ok(None),
    }
}

#[tactic(auto, using(dsl_cursor::proofs::ReadSteps::read_step))]
fn enum_item(alloc: Global, tokens: &mut Cursor<'_>) -> Result<EnumItem, Stop>
    ensures { Gives written.enum_item (read Part.EnumItem tokens.old) result tokens.new }
{
    let name = tokens.expect_name(alloc)?;
    let number = item_number(tokens)?;
    Ok(EnumItem { name, number })
}

/// The items of an enum after its first one.
struct MoreItems;

impl Repeated for MoreItems {
    type Tree = EnumItem;

    ghost tail = { Part.ItemsTail };

    ghost rest = { written.items_tail };

    #[tactic(auto, using(dsl_cursor::proofs::ReadSteps::read_step, dsl_cursor::proofs::Lengths::lengths))]
    fn next(alloc: Global, tokens: &mut Cursor<'_>) -> Result<Option<EnumItem>, Stop> {
        if tokens.take(Mark(MarkKind::Comma)).is_none() {
            return Ok(None);
        }
        Ok(Some(enum_item(alloc, tokens)?))
    }
}

/// The items of an enum, in square brackets.
#[tactic(auto, using(dsl_cursor::proofs::ReadSteps::read_step))]
pub fn enum_items(alloc: Global, tokens: &mut Cursor<'_>) -> Result<Row<EnumItem>, Stop>
    ensures { Gives written.enum_items (read Part.EnumItems tokens.old) result tokens.new }
{
    tokens.expect(Mark(MarkKind::OpenSquare))?;
    let first = enum_item(alloc, tokens)?;
    let items = row_from::<MoreItems>(alloc, first, tokens)?;
    tokens.expect(Mark(MarkKind::CloseSquare))?;
    Ok(items)
}

/// `enum NAME: [ITEMS]` and the line end.
pub fn enum_declaration(alloc: Global, tokens: &mut Cursor<'_>) -> Result<EnumDecl, Stop>
    ensures { Gives written.enum_declaration (in_row read (rule_at Part.Declaration 2) tokens.old) result tokens.new }
{
    let place = tokens.expect(Word(EnumWord))?;
    let name = tokens.expect_name(alloc)?;
    tokens.expect(Mark(MarkKind::Colon))?;
    let items = enum_items(alloc, tokens)?;
    tokens.expect(Sign::Newline)?;
    Ok(EnumDecl { place, name, items })
}
