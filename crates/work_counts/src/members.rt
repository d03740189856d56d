//! The own constraints of an object, member by member.

ghost use Rattle.std.specs.Prelude.{◌≡◌, ◌+◌, length, map, option_map, suc};
ghost use Rattle.std.specs.Option.{option_map_or};
ghost use Rattle.dsl_tree.specs.Views.{expr_tree, field_tree, member_tree};
ghost use Rattle.program_texts.specs.expansion_laws.WorkNodes.{own_within};
ghost use Rattle.dsl_tree.specs.osc_base.declared.path.Path.{Path};
ghost use Rattle.program_texts.specs.type_heads.Members as told;
ghost use Rattle.program_texts.specs.type_heads.Table.{line_within};
ghost use Rattle.program_texts.specs.type_members.Listed.{seen_listed};
ghost use Rattle.program_texts.specs.SeenTexts.{types_in};
ghost use Rattle.work_counts.specs.Amounts.{amount_of, kept, no_amount, sum_of};
ghost use Rattle.work_counts.specs.TextAmounts.{base_amount, field_amount, initial_amount, member_amount, type_amount};

use crate::Tally;
use crate::texts::{base_tally, initial_tally, rule_tally, rules_tally};
use dsl_tree::{Expr, FieldDecl, Member};
use program_texts::{ListedMember, ProgramTexts, TypeId};

/// The conditions of the types on a line, the nearest first.
fn line_tally(texts: &ProgramTexts<'_>, of: TypeId, first: Option<TypeId>) -> Tally
    ensures { result ≡ kept (sum_of (base_amount (types_in texts.now) of) (line_within (length (types_in texts.now).table.heads) (types_in texts.now).table.heads first)) }
{
    let mut all = Tally::none();
    let mut at = first;
    let mut steps = texts.types().count();
    while steps > 0 {
        let Some(current) = at else {
            return all;
        };
        all = all.with(base_tally(texts, of, current));
        at = texts.types().base(current);
        steps -= 1;
    }
    all
}

/// The conditions that the objects of a type meet.
fn type_tally(texts: &ProgramTexts<'_>, of: TypeId) -> Tally
    ensures { result ≡ kept (type_amount (types_in texts.now) of) }
{
    let own = base_tally(texts, of, of);
    own.with(line_tally(texts, of, texts.types().base(of)))
}

/// The conditions of the type of a field.
fn declared_tally(texts: &ProgramTexts<'_>, of: Option<TypeId>) -> Tally
    ensures { result ≡ kept (option_map_or (type_amount (types_in texts.now)) of no_amount) }
{
    match of {
        Some(of) => type_tally(texts, of),
        None => Tally::none(),
    }
}

/// The initial value of a field, if it has one.
fn given_tally(is_list: bool, initial: &Option<Expr>) -> Tally
    ensures { result ≡ kept (option_map_or (initial_amount is_list) (option_map expr_tree initial.now) no_amount) }
{
    match initial {
        Some(initial) => initial_tally(is_list, initial),
        None => Tally::none(),
    }
}

/// One name of a field.
fn field_tally(texts: &ProgramTexts<'_>, decl: &FieldDecl) -> Tally
    ensures { result ≡ kept (field_amount (types_in texts.now) (field_tree decl.now)) }
{
    let conditions = declared_tally(texts, texts.declared_type(decl));
    let rules = rules_tally(decl.rules.as_slice());
    let initial = given_tally(decl.list.is_some(), &decl.initial);
    conditions.with(rules.with(initial))
}

/// A member.
fn member_tally(texts: &ProgramTexts<'_>, member: &Member) -> Tally
    ensures { result ≡ kept (member_amount (types_in texts.now) (member_tree member.now)) }
{
    match member {
        Member::Field(decl) => {
            let names = decl.names.as_slice().len();
            field_tally(texts, decl).times(names as u64)
        }
        Member::Rule(rule) => rule_tally(rule),
        Member::Do { .. } => Tally::none(),
    }
}

/// Members.
fn members_tally(texts: &ProgramTexts<'_>, members: &[ListedMember<'_>]) -> Tally
    ensures { result ≡ kept (sum_of (λ m. member_amount (types_in texts.now) m.written.member) (map seen_listed members.now)) }
{
    let mut all = Tally::none();
    for listed in members {
        all = all.with(member_tally(texts, listed.written.member));
    }
    all
}

/// The members of a type, one part of a row after the other.
fn parts_tally(texts: &ProgramTexts<'_>, of: TypeId) -> Tally
    ensures { result ≡ kept (sum_of (λ m. member_amount (types_in texts.now) m.written.member) (told.members (types_in texts.now) of)) }
{
    let lists = texts.lists();
    let span = lists.span(of);
    let mut all = Tally::none();
    for part in lists.front(span.row) {
        all = all.with(members_tally(texts, lists.part(part)));
    }
    all.with(members_tally(texts, lists.own(&span)))
}

/// The own constraints of an object of a type with so many steps left, wherever the object is.
pub fn object_tally(texts: &ProgramTexts<'_>, steps: u32, of: TypeId) -> Tally
    ensures { (path : Path) → result ≡ kept (amount_of (own_within steps (types_in texts.now) path of)) }
{
    if steps == 0 {
        return Tally::none();
    }
    parts_tally(texts, of)
}
