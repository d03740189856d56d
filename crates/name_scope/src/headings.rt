//! The faults of names in headings.

ghost use Rattle.std.specs.Prelude.{◌≡◌, [], ◌∷◌, ◌++◌, flat_map, Option, option_map};
ghost use Rattle.dsl_tree.specs.osc_base.FaultRows.{first_from, first_fault};
ghost use Rattle.name_scope.specs.Declaring.{declared_name};
ghost use Rattle.name_scope.specs.Headings.{declarations, twice_rows, unknown_row, unowned_row, qualified_rows, owner_rows, value_rows, condition_rows, heir_rows, member_rows, reference_rows, rows_behind, heading_rows};
ghost use Rattle.name_scope.specs.Earlier.{earlier_of};
ghost use Rattle.name_scope.specs.Seen.{seen_name};

use crate::known::{Earlier, is_declared, is_owned_in, is_taken};
use crate::least::with_fault;
use crate::source::Source;
use crate::table::{Declared, name_declared};
use dsl_tree::osc_base::{Fault, FaultCode, Place};
use dsl_tree::{
    CompoundDecl, ConditionValue, Declaration, Heir, HeirCondition, Ident, Member, QName,
};

fn place_of(declared: Declared<'_>) -> Place
    ensures { result ≡ (seen_name declared.entry).place }
{
    match declared {
        Declared::Type(name) | Declared::Unit(name) | Declared::Behaviour(name) => name.place,
        Declared::Owned { owner: _, name } => name.place,
    }
}

fn with_twice(
    first: Option<Fault>,
    earlier: Earlier<'_>,
    declaration: &Declaration,
) -> Option<Fault>
    ensures { result ≡ first_from first (twice_rows (earlier_of earlier.entry) (declared_name declaration.now)) }
{
    match name_declared(declaration) {
        Some(declared) => with_fault(
            first,
            place_of(declared),
            FaultCode::Twice,
            is_taken(earlier, declared),
        ),
        None => first,
    }
}

fn with_unknown(first: Option<Fault>, all: &[Source], name: &Ident) -> Option<Fault>
    ensures { result ≡ first_from first (unknown_row (declarations all.now) name.now ∷ []) }
{
    with_fault(
        first,
        name.place,
        FaultCode::Unknown,
        !is_declared(all, name.text.as_str()),
    )
}

fn with_unowned(first: Option<Fault>, all: &[Source], owner: &Ident, name: &Ident) -> Option<Fault>
    ensures { result ≡ first_from first (unowned_row (declarations all.now) owner.now name.now ∷ []) }
{
    let owner = owner.text.as_str();
    let unowned = is_declared(all, owner) && !is_owned_in(all, owner, name.text.as_str());
    with_fault(first, name.place, FaultCode::Unknown, unowned)
}

/// Faults of a name of a base or of an extended type.
fn with_qualified(first: Option<Fault>, all: &[Source], name: &QName) -> Option<Fault>
    ensures { result ≡ first_from first (qualified_rows (declarations all.now) name.now.first name.now.second) }
{
    let first = with_unknown(first, all, &name.first);
    match &name.second {
        Some(second) => with_unowned(first, all, &name.first, second),
        None => first,
    }
}

fn with_owner(first: Option<Fault>, all: &[Source], name: &QName) -> Option<Fault>
    ensures { result ≡ first_from first (owner_rows (declarations all.now) name.now.first name.now.second) }
{
    match &name.second {
        Some(_) => with_unknown(first, all, &name.first),
        None => first,
    }
}

fn with_value(first: Option<Fault>, all: &[Source], value: &ConditionValue) -> Option<Fault>
    ensures { result ≡ first_from first (value_rows (declarations all.now) value.now) }
{
    match value {
        ConditionValue::EnumName { of, member: _ } => with_unknown(first, all, of),
        ConditionValue::Truth { place: _, value: _ } | ConditionValue::Name(_) => first,
    }
}

fn with_condition(
    first: Option<Fault>,
    all: &[Source],
    condition: &Option<HeirCondition>,
) -> Option<Fault>
    ensures { result ≡ first_from first (condition_rows (declarations all.now) condition.now) }
{
    match condition {
        Some(condition) => with_value(first, all, &condition.value),
        None => first,
    }
}

fn with_heir(first: Option<Fault>, all: &[Source], heir: &Option<Heir>) -> Option<Fault>
    ensures { result ≡ first_from first (heir_rows (declarations all.now) heir.now) }
{
    match heir {
        Some(heir) => {
            let first = with_qualified(first, all, &heir.base);
            with_condition(first, all, &heir.condition)
        }
        None => first,
    }
}

fn with_member(first: Option<Fault>, all: &[Source], member: &Member) -> Option<Fault>
    ensures { result ≡ first_from first (member_rows (declarations all.now) member.now) }
{
    match member {
        Member::Field(field) => with_unknown(first, all, &field.of),
        Member::Rule(_) | Member::Do { place: _, phase: _ } => first,
    }
}

fn with_members(first: Option<Fault>, all: &[Source], members: &[Member]) -> Option<Fault>
    ensures { result ≡ first_from first (flat_map (member_rows (declarations all.now)) members.now) }
{
    let mut found = first;
    for member in members {
        found = with_member(found, all, member);
    }
    found
}

fn with_compound(first: Option<Fault>, all: &[Source], compound: &CompoundDecl) -> Option<Fault>
    ensures { result ≡ first_from first (owner_rows (declarations all.now) compound.now.name.first compound.now.name.second ++ heir_rows (declarations all.now) compound.now.heir ++ flat_map (member_rows (declarations all.now)) compound.now.members) }
{
    let first = with_owner(first, all, &compound.name);
    let first = with_heir(first, all, &compound.heir);
    with_members(first, all, compound.members.as_slice())
}

/// Faults of the names that a declaration uses.
fn with_references(first: Option<Fault>, all: &[Source], declaration: &Declaration) -> Option<Fault>
    ensures { result ≡ first_from first (reference_rows (declarations all.now) declaration.now) }
{
    match declaration {
        Declaration::Physical(_) | Declaration::Enum(_) => first,
        Declaration::Unit(d) => with_unknown(first, all, &d.of),
        Declaration::Compound(d) => with_compound(first, all, d),
        Declaration::MemberExtension(d) => {
            let first = with_qualified(first, all, &d.name);
            with_members(first, all, d.members.as_slice())
        }
        Declaration::EnumExtension(d) => with_qualified(first, all, &d.name),
    }
}

fn with_declaration(
    first: Option<Fault>,
    all: &[Source],
    earlier: Earlier<'_>,
    declaration: &Declaration,
) -> Option<Fault>
    ensures { result ≡ first_from first (twice_rows (earlier_of earlier.entry) (declared_name declaration.now) ++ reference_rows (declarations all.now) declaration.now) }
{
    let first = with_twice(first, earlier, declaration);
    with_references(first, all, declaration)
}

/// Faults of the headings of a file that comes after others.
fn with_file(first: Option<Fault>, all: &[Source], files: &[Source], file: &Source) -> Option<Fault>
    ensures { result ≡ first_from first (rows_behind (declarations all.now) (declarations files.now) file.now.file.decls) }
{
    let mut found = first;
    let mut index: u32 = 0;
    for declaration in file.file().decls.as_slice() {
        let earlier = Earlier { files, file, index };
        found = with_declaration(found, all, earlier, declaration);
        index += 1;
    }
    found
}

/// The first fault of the headings of the files.
pub fn first_heading_fault(sources: &[Source]) -> Option<Fault>
    ensures { result ≡ first_fault (heading_rows sources.now) }
{
    let mut found = None;
    for number in 0..sources.len() {
        found = with_file(found, sources, &sources[..number], &sources[number]);
    }
    found
}
