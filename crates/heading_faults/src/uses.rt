//! The faults of the names that declarations use.

ghost use Rattle.std.specs.Prelude.{◌≡◌, [], ◌∷◌, ◌++◌, ◌&&◌, None, false, not, flat_map, map};
ghost use Rattle.std.specs.Option.{option_map_or};
ghost use Rattle.type_members.specs.osc_base.FaultRows.{first_from, row};
ghost use Rattle.type_members.specs.dsl_tree.Views.{compound_tree, member_tree};
ghost use Rattle.type_members.specs.osc_base.Comparisons.{same_number};
ghost use Rattle.type_members.specs.units_si.ExponentTests.{same_exponents};
ghost use Rattle.type_members.specs.type_heads.Table.{form, has_members, is_enum, named};
ghost use Rattle.type_members.specs.type_heads.DeclaredTypes.{meant as meaning};
ghost use Rattle.type_members.specs.type_heads.Seen.{seen_form};
ghost use Rattle.type_members.specs.type_heads.HeadingFaults.{compound_rows, differ as differs, heir_rows, is_physical, kind_row, meant_row, member_rows, name_rows, owner_rows, unknown_row};

use crate::heirs::with_heir;
use crate::members::with_members;
use crate::references::{last_place, meant, with_name, with_owner, with_unknown};
use dsl_tree::{CompoundDecl, EnumExtension, Ident, MemberExtension, QName, UnitDecl};
use name_scope::with_fault;
use osc_base::{Fault, FaultCode};
use type_heads::{Form, Heads};
use units_si::Exponents;

/// Faults of the owner of a declared behaviour.
fn with_own_owner(first: Option<Fault>, heads: &Heads, name: &QName) -> Option<Fault>
    ensures { result ≡ first_from first (option_map_or (λ second. owner_rows heads.now name.now.first) name.now.second []) }
{
    match &name.second {
        Some(_) => with_owner(first, heads, &name.first),
        None => first,
    }
}

fn with_heading(first: Option<Fault>, heads: &Heads, declared: &CompoundDecl) -> Option<Fault>
    ensures { result ≡ first_from first (option_map_or (λ second. owner_rows heads.now declared.now.name.first) declared.now.name.second [] ++ option_map_or (heir_rows heads.now (compound_tree declared.now)) declared.now.heir []) }
{
    let first = with_own_owner(first, heads, &declared.name);
    with_heir(first, heads, declared)
}

/// Faults of a type with members.
pub fn with_compound(first: Option<Fault>, heads: &Heads, declared: &CompoundDecl) -> Option<Fault>
    ensures { result ≡ first_from first (compound_rows heads.now (compound_tree declared.now)) }
{
    let first = with_heading(first, heads, declared);
    with_members(first, heads, declared.members.as_slice())
}

/// Whether a name means a type that has no members.
fn is_without_members(heads: &Heads, name: &QName) -> bool
    ensures { result ≡ option_map_or (λ t. not (has_members (form heads.now t))) (meaning heads.now name.now) false }
{
    match meant(heads, name) {
        Some(of) => !heads.form(of).has_members(),
        None => false,
    }
}

fn with_more(first: Option<Fault>, heads: &Heads, extension: &MemberExtension) -> Option<Fault>
    ensures { result ≡ first_from first (meant_row heads.now (λ t. has_members (form heads.now t)) extension.now.name ∷ flat_map (member_rows heads.now) (map member_tree extension.now.members)) }
{
    let is_wrong = is_without_members(heads, &extension.name);
    let place = last_place(&extension.name);
    let first = with_fault(first, place, FaultCode::WrongKind, is_wrong);
    with_members(first, heads, extension.members.as_slice())
}

/// Faults of an extension by members.
pub fn with_extension(
    first: Option<Fault>,
    heads: &Heads,
    extension: &MemberExtension,
) -> Option<Fault>
    ensures { result ≡ first_from first (name_rows heads.now extension.now.name.first extension.now.name.second ++ meant_row heads.now (λ t. has_members (form heads.now t)) extension.now.name ∷ flat_map (member_rows heads.now) (map member_tree extension.now.members)) }
{
    let first = with_name(first, heads, &extension.name);
    with_more(first, heads, extension)
}

/// Whether a name means a type that is no enum.
fn is_no_enum(heads: &Heads, name: &QName) -> bool
    ensures { result ≡ option_map_or (λ t. not (is_enum (form heads.now t))) (meaning heads.now name.now) false }
{
    match meant(heads, name) {
        Some(of) => !heads.form(of).is_enum(),
        None => false,
    }
}

fn with_no_enum(first: Option<Fault>, heads: &Heads, name: &QName) -> Option<Fault>
    ensures { result ≡ first_from first (meant_row heads.now (λ t. is_enum (form heads.now t)) name.now ∷ []) }
{
    let is_wrong = is_no_enum(heads, name);
    with_fault(first, last_place(name), FaultCode::WrongKind, is_wrong)
}

/// Faults of the name in an extension of an enum.
pub fn with_enum_extension(
    first: Option<Fault>,
    heads: &Heads,
    extension: &EnumExtension,
) -> Option<Fault>
    ensures { result ≡ first_from first (name_rows heads.now extension.now.name.first extension.now.name.second ++ meant_row heads.now (λ t. is_enum (form heads.now t)) extension.now.name ∷ []) }
{
    let first = with_name(first, heads, &extension.name);
    with_no_enum(first, heads, &extension.name)
}

fn is_no_physical(heads: &Heads, name: &Ident) -> bool
    ensures { result ≡ option_map_or (λ t. not (is_physical (form heads.now t))) (named heads.now None name.now.text) false }
{
    match heads.named(None, name.text.as_str()) {
        Some(of) => !heads.form(of).is_physical(),
        None => false,
    }
}

fn same(x: &i8, y: &i8) -> bool
    ensures { result ≡ same_number x.now y.now }
{
    x == y
}

fn is_same(x: &Exponents, y: &Exponents) -> bool
    ensures { result ≡ same_exponents x.now y.now }
{
    if !same(&x.kg, &y.kg) {
        return false;
    }
    if !same(&x.m, &y.m) {
        return false;
    }
    if !same(&x.s, &y.s) {
        return false;
    }
    is_same_later(x, y)
}

/// Whether the exponents of the ampere and later base units are the same.
fn is_same_later(x: &Exponents, y: &Exponents) -> bool
    ensures { result ≡ (same_number x.now.a y.now.a && (same_number x.now.k y.now.k && (same_number x.now.mol y.now.mol && (same_number x.now.cd y.now.cd && same_number x.now.rad y.now.rad)))) }
{
    if !same(&x.a, &y.a) {
        return false;
    }
    if !same(&x.k, &y.k) {
        return false;
    }
    if !same(&x.mol, &y.mol) {
        return false;
    }
    if !same(&x.cd, &y.cd) {
        return false;
    }
    same(&x.rad, &y.rad)
}

/// Whether exponents differ from those of a physical type.
fn differ(exponents: Option<Exponents>, form: Form<'_>) -> bool
    ensures { result ≡ differs exponents (seen_form form.entry) }
{
    match (exponents, form) {
        (Some(own), Form::Physical(Some(others))) => !is_same(&own, &others),
        _ => false,
    }
}

fn clashes(heads: &Heads, name: &Ident, exponents: Option<Exponents>) -> bool
    ensures { result ≡ option_map_or (λ t. differs exponents (form heads.now t)) (named heads.now None name.now.text) false }
{
    match heads.named(None, name.text.as_str()) {
        Some(of) => differ(exponents, heads.form(of)),
        None => false,
    }
}

/// Faults of a unit with these exponents, but for those of its brackets.
pub fn with_unit(
    first: Option<Fault>,
    heads: &Heads,
    unit: &UnitDecl,
    exponents: Option<Exponents>,
) -> Option<Fault>
    ensures { result ≡ first_from first (unknown_row heads.now unit.now.of ∷ kind_row heads.now is_physical unit.now.of ∷ row unit.now.name.place FaultCode.UnitClash (option_map_or (λ t. differs exponents (form heads.now t)) (named heads.now None unit.now.of.text) false) ∷ []) }
{
    let is_wrong = is_no_physical(heads, &unit.of);
    let is_clash = clashes(heads, &unit.of, exponents);
    let first = with_unknown(first, heads, &unit.of);
    let first = with_fault(first, unit.of.place, FaultCode::WrongKind, is_wrong);
    with_fault(first, unit.name.place, FaultCode::UnitClash, is_clash)
}
