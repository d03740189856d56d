//! Declarations and extensions.

ghost use Rattle.std.specs.Prelude.{◌≡◌, refl, map};
ghost use Rattle.dsl_cursor.specs.Words.{Part, read, in_row, Gives, rule_at, first};
ghost use Rattle.dsl_parser.specs.Words.{compound_tree, declaration_tree, written_extension};
ghost use Rattle.dsl_tree.specs.WrittenFile as written;

use crate::members::{body, members};
use dsl_cursor::Sign::{self, Mark, Word};
use dsl_cursor::{Cursor, Item, Stop, items};
use dsl_headings::{
    begins_owned, begins_plain, begins_type_or_unit, enum_declaration, enum_items, heir,
    owned_word, plain_word, qualified_name, type_declaration, unit_declaration,
};
use dsl_tree::WordKind::{EnumWord, ExtendWord, TypeWord, UnitWord};
use dsl_tree::{
    CompoundDecl, Declaration, EnumExtension, EnumItem, MarkKind, Member, MemberExtension, QName,
};
use osc_base::Row;
use std::alloc::Global;

#[tactic(auto, using(crate::proofs::Blocks::plain_forest))]
fn plain_compound(alloc: Global, tokens: &mut Cursor<'_>) -> Result<CompoundDecl, Stop>
    ensures { Gives (λ c. written.compound_heading c.kind (compound_tree c)) (in_row read (rule_at Part.Declaration 3) tokens.old) result tokens.new }
{
    let (place, kind) = plain_word(tokens)?;
    let first = tokens.expect_name(alloc)?;
    let heir = heir(alloc, tokens)?;
    let members = body(alloc, tokens)?;
    let name = QName {
        first,
        second: None,
    };
    Ok(CompoundDecl {
        place,
        kind,
        name,
        heir,
        members,
    })
}

#[tactic(auto, using(crate::proofs::Blocks::owned_forest))]
fn owned_compound(alloc: Global, tokens: &mut Cursor<'_>) -> Result<CompoundDecl, Stop>
    ensures { Gives (λ c. written.compound_heading c.kind (compound_tree c)) (in_row read (rule_at Part.Declaration 4) tokens.old) result tokens.new }
{
    let (place, kind) = owned_word(tokens)?;
    let name = qualified_name(alloc, tokens)?;
    let heir = heir(alloc, tokens)?;
    let members = body(alloc, tokens)?;
    Ok(CompoundDecl {
        place,
        kind,
        name,
        heir,
        members,
    })
}

/// What is added to a type.
#[derive(Drop)]
enum Addition {
    Items(Row<EnumItem>),
    Members(Row<Member>),
}

#[tactic(auto, using(dsl_cursor::proofs::ReadSteps::read_step))]
fn extension_rest(alloc: Global, tokens: &mut Cursor<'_>) -> Result<Addition, Stop>
    ensures { Gives written_extension (read Part.ExtensionRest tokens.old) result tokens.new }
{
    if tokens.begins(Mark(MarkKind::OpenSquare)) {
        let items = enum_items(alloc, tokens)?;
        tokens.expect(Sign::Newline)?;
        return Ok(Addition::Items(items));
    }
    Ok(Addition::Members(members(alloc, tokens)?))
}

fn extension(alloc: Global, tokens: &mut Cursor<'_>) -> Result<Declaration, Stop>
    ensures { Gives (λ d. written.declaration (declaration_tree d)) (in_row read (rule_at Part.Declaration 5) tokens.old) result tokens.new }
{
    let place = tokens.expect(Word(ExtendWord))?;
    let name = qualified_name(alloc, tokens)?;
    tokens.expect(Mark(MarkKind::Colon))?;
    match extension_rest(alloc, tokens)? {
        Addition::Items(items) => Ok(Declaration::EnumExtension(EnumExtension {
            place,
            name,
            items,
        })),
        Addition::Members(members) => Ok(Declaration::MemberExtension(MemberExtension {
            place,
            name,
            members,
        })),
    }
}

/// One declaration.
struct DeclarationItem;

impl Item for DeclarationItem {
    type Tree = Declaration;

    ghost part = { Part.Declaration };

    ghost tail = { Part.Declarations };

    ghost item = { λ d. written.declaration (declaration_tree d) };

    ghost rest = { λ ds. written.declarations (map declaration_tree ds) };

    ghost law = { (refl, refl, refl, refl, refl, λ x xs. refl) };

    fn begins(tokens: &Cursor<'_>) -> bool {
        begins_type_or_unit(tokens)
            || tokens.begins(Word(EnumWord))
            || begins_plain(tokens)
            || begins_owned(tokens)
            || tokens.begins(Word(ExtendWord))
    }

    #[tactic(auto, using(crate::proofs::Steps::step_declaration))]
    fn item(alloc: Global, tokens: &mut Cursor<'_>) -> Result<Declaration, Stop> {
        if tokens.begins(Word(TypeWord)) {
            return Ok(Declaration::Physical(type_declaration(alloc, tokens)?));
        }
        if tokens.begins(Word(UnitWord)) {
            return Ok(Declaration::Unit(unit_declaration(alloc, tokens)?));
        }
        if tokens.begins(Word(EnumWord)) {
            return Ok(Declaration::Enum(enum_declaration(alloc, tokens)?));
        }
        if begins_plain(tokens) {
            return Ok(Declaration::Compound(plain_compound(alloc, tokens)?));
        }
        if begins_owned(tokens) {
            return Ok(Declaration::Compound(owned_compound(alloc, tokens)?));
        }
        extension(alloc, tokens)
    }
}

/// The declarations of a file.
pub fn declarations(alloc: Global, tokens: &mut Cursor<'_>) -> Result<Row<Declaration>, Stop>
    ensures { Gives (λ ds. written.declarations (map declaration_tree ds)) (read Part.Declarations tokens.old) result tokens.new }
{
    items::<DeclarationItem>(alloc, tokens)
}
