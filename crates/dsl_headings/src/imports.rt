//! Imports.

ghost use Rattle.std.specs.Prelude.{◌≡◌, ◌≢◌, refl};
ghost use Rattle.dsl_cursor.specs.Words.{Err, IfOk, IfErr, Memory, Part, read, in_row, Gives, rule_at, IsRow};
ghost use Rattle.dsl_headings.specs.Words.{Import, dotted_names};
ghost use Rattle.dsl_tree.specs.WrittenFile as written;

use dsl_cursor::Sign::{self, Mark, Word};
use dsl_cursor::{Cursor, Item, Repeated, Stop, items, row_of, with_rest};
use dsl_tree::osc_base::Row;
use dsl_tree::{Ident, Import, MarkKind, WordKind};
use std::alloc::Global;

/// Names, each after a point.
struct MoreNames;

impl Repeated for MoreNames {
    type Tree = Ident;

    ghost tail = { Part.DottedNames };

    ghost rest = { dotted_names };

    #[tactic(auto, using(dsl_cursor::proofs::ReadSteps::read_step, dsl_cursor::proofs::Lengths::lengths))]
    fn next(alloc: Global, tokens: &mut Cursor<'_>) -> Result<Option<Ident>, Stop> {
        if tokens.take(Mark(MarkKind::Dot)).is_none() {
            return Ok(None);
        }
        Ok(Some(tokens.expect_name(alloc)?))
    }
}

/// The names with those after them, each after a point.
pub fn dotted_names(
    alloc: Global,
    begun: Row<Ident>,
    tokens: &mut Cursor<'_>,
) -> Result<Row<Ident>, Stop>
    ensures ok { IfOk result (λ names. IsRow Part.DottedNames dotted_names begun names tokens.old tokens.new) }
    ensures err { IfErr result (λ e. e ≢ Memory → read Part.DottedNames tokens.old ≡ Err e) }
{
    with_rest::<MoreNames>(alloc, begun, tokens)
}

fn names_of_import(alloc: Global, tokens: &mut Cursor<'_>) -> Result<Row<Ident>, Stop>
    ensures { Gives (λ names. written.import_rest (Import.Dotted names)) (in_row read (rule_at Part.ImportRest 1) tokens.old) result tokens.new }
{
    let first = tokens.expect_name(alloc)?;
    let names = dotted_names(alloc, row_of(alloc, first)?, tokens)?;
    tokens.expect(Sign::Newline)?;
    Ok(names)
}

#[tactic(auto, using(dsl_cursor::proofs::ReadSteps::read_step))]
fn import_rest(alloc: Global, tokens: &mut Cursor<'_>) -> Result<Import, Stop>
    ensures { Gives written.import_rest (read Part.ImportRest tokens.old) result tokens.new }
{
    if tokens.begins_text() {
        let (place, name) = tokens.expect_text(alloc)?;
        tokens.expect(Sign::Newline)?;
        return Ok(Import::Named { place, name });
    }
    let names = names_of_import(alloc, tokens)?;
    Ok(Import::Dotted { names })
}

/// One import.
struct ImportItem;

impl Item for ImportItem {
    type Tree = Import;

    ghost part = { Part.Import };

    ghost tail = { Part.Imports };

    ghost item = { written.import_of };

    ghost rest = { written.imports };

    ghost law = { (refl, refl, refl, refl, refl, λ x xs. refl) };

    fn begins(tokens: &Cursor<'_>) -> bool {
        tokens.begins(Word(WordKind::ImportWord))
    }

    #[tactic(auto, using(dsl_cursor::proofs::ReadSteps::read_step))]
    fn item(alloc: Global, tokens: &mut Cursor<'_>) -> Result<Import, Stop> {
        tokens.expect(Word(WordKind::ImportWord))?;
        import_rest(alloc, tokens)
    }
}

/// The imports of a file.
pub fn imports(alloc: Global, tokens: &mut Cursor<'_>) -> Result<Row<Import>, Stop>
    ensures { Gives written.imports (read Part.Imports tokens.old) result tokens.new }
{
    items::<ImportItem>(alloc, tokens)
}
