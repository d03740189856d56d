//! Members of types, and their blocks.

ghost use Rattle.std.specs.Prelude.{◌≡◌, ◌<◌, ◌∷◌, refl, map};
ghost use Rattle.dsl_cursor.specs.Words.{length, IfOk, Part, read, in_row, Gives, rule_at, rest_at, drop};
ghost use Rattle.dsl_parser.specs.Words.{field_tree, member_tree, written_field_rest};
ghost use Rattle.dsl_tree.specs.WrittenFile as written;

use crate::phases::phase;
use crate::rules::{RuleItem, initial_value, rules_of_field};
use dsl_cursor::Sign::{self, Mark, Word};
use dsl_cursor::{Cursor, Item, Repeated, Stop, block, row_from};
use dsl_tree::{Expr, FieldDecl, Ident, MarkKind, Member, RuleDecl, WordKind};
use osc_base::{Place, Row};
use std::alloc::Global;

/// Names, each after a comma.
struct MoreNames;

impl Repeated for MoreNames {
    type Tree = Ident;

    ghost tail = { Part.NamesTail };

    ghost rest = { written.names_tail };

    #[tactic(auto, using(dsl_cursor::proofs::ReadSteps::read_step, dsl_cursor::proofs::Lengths::lengths))]
    fn next(alloc: Global, tokens: &mut Cursor<'_>) -> Result<Option<Ident>, Stop> {
        if tokens.take(Mark(MarkKind::Comma)).is_none() {
            return Ok(None);
        }
        Ok(Some(tokens.expect_name(alloc)?))
    }
}

/// The names from this one on.
fn names_from(alloc: Global, first: Ident, tokens: &mut Cursor<'_>) -> Result<Row<Ident>, Stop>
    ensures first { IfOk result (λ names. names ≡ first ∷ drop 1 names) }
    ensures rest { Gives (λ names. written.names_tail (drop 1 names)) (read Part.NamesTail tokens.old) result tokens.new }
{
    row_from::<MoreNames>(alloc, first, tokens)
}

/// The type of a field.
#[derive(Drop)]
struct FieldType {
    list: Option<Place>,
    of: Ident,
}

#[tactic(auto, using(dsl_cursor::proofs::ReadSteps::read_step))]
fn field_type(alloc: Global, tokens: &mut Cursor<'_>) -> Result<FieldType, Stop>
    ensures { Gives (λ t. written.field_type t.list t.of) (read Part.FieldType tokens.old) result tokens.new }
{
    if tokens.begins_name() {
        let of = tokens.expect_name(alloc)?;
        return Ok(FieldType { list: None, of });
    }
    let list = Some(tokens.expect(Word(WordKind::ListWord))?);
    tokens.expect(Word(WordKind::OfWord))?;
    let of = tokens.expect_name(alloc)?;
    Ok(FieldType { list, of })
}

/// A field after its names.
#[derive(Drop)]
struct FieldRest {
    of: FieldType,
    initial: Option<Expr>,
    rules: Row<RuleDecl>,
}

fn field_behind_names(alloc: Global, tokens: &mut Cursor<'_>) -> Result<FieldRest, Stop>
    ensures { Gives written_field_rest (in_row read (rest_at Part.Member 0 2) tokens.old) result tokens.new }
{
    tokens.expect(Mark(MarkKind::Colon))?;
    let of = field_type(alloc, tokens)?;
    let initial = initial_value(alloc, tokens)?;
    let rules = rules_of_field(alloc, tokens)?;
    Ok(FieldRest { of, initial, rules })
}

fn field(alloc: Global, tokens: &mut Cursor<'_>) -> Result<FieldDecl, Stop>
    ensures { Gives (λ f. written.field f.names (field_tree f)) (in_row read (rule_at Part.Member 0) tokens.old) result tokens.new }
{
    let first = tokens.expect_name(alloc)?;
    let names = names_from(alloc, first, tokens)?;
    let field = field_behind_names(alloc, tokens)?;
    let FieldRest { of, initial, rules } = field;
    let FieldType { list, of } = of;
    Ok(FieldDecl {
        names,
        list,
        of,
        initial,
        rules,
    })
}

fn do_member(alloc: Global, tokens: &mut Cursor<'_>) -> Result<Member, Stop>
    ensures { Gives (λ m. written.member (member_tree m)) (in_row read (rule_at Part.Member 2) tokens.old) result tokens.new }
{
    let place = tokens.expect(Word(WordKind::DoWord))?;
    let phase = phase(alloc, tokens)?;
    Ok(Member::Do { place, phase })
}

/// One member.
struct MemberItem;

impl Item for MemberItem {
    type Tree = Member;

    ghost part = { Part.Member };

    ghost tail = { Part.MembersTail };

    ghost item = { λ m. written.member (member_tree m) };

    ghost rest = { λ ms. written.members_tail (map member_tree ms) };

    ghost law = { (refl, refl, refl, refl, refl, λ x xs. refl) };

    fn begins(tokens: &Cursor<'_>) -> bool {
        tokens.begins_name() || RuleItem::begins(tokens) || tokens.begins(Word(WordKind::DoWord))
    }

    #[tactic(auto, using(dsl_cursor::proofs::ReadSteps::read_step))]
    fn item(alloc: Global, tokens: &mut Cursor<'_>) -> Result<Member, Stop> {
        if tokens.begins_name() {
            return Ok(Member::Field(field(alloc, tokens)?));
        }
        if RuleItem::begins(tokens) {
            return Ok(Member::Rule(RuleItem::item(alloc, tokens)?));
        }
        do_member(alloc, tokens)
    }
}

/// A block of members, one or more, after its colon.
#[tactic(auto, using(dsl_cursor::proofs::ReadSteps::read_step, crate::proofs::Blocks::members_block))]
pub fn members(alloc: Global, tokens: &mut Cursor<'_>) -> Result<Row<Member>, Stop>
    ensures gives { Gives (λ ms. written.block (map member_tree ms)) (read Part.Block tokens.old) result tokens.new }
    ensures some { IfOk result (λ ms. 0 < length ms) }
{
    let members = block::<MemberItem>(alloc, tokens)?;
    Ok(members)
}

/// The line end, or a colon and a block of members.
#[tactic(auto, using(crate::proofs::Blocks::step_body, crate::proofs::Blocks::members_body))]
pub fn body(alloc: Global, tokens: &mut Cursor<'_>) -> Result<Row<Member>, Stop>
    ensures { Gives (λ ms. written.body (map member_tree ms)) (read Part.Body tokens.old) result tokens.new }
{
    if tokens.take(Sign::Newline).is_some() {
        return Ok(Row::new(alloc));
    }
    tokens.expect(Mark(MarkKind::Colon))?;
    let members = members(alloc, tokens)?;
    Ok(members)
}
