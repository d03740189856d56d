//! The faults of types that inherit.

ghost use Rattle.std.specs.Prelude.{◌≡◌, [], ◌∷◌, None, false, not};
ghost use Rattle.std.specs.Option.{option_map_or};
ghost use Rattle.type_members.specs.osc_base.FaultRows.{first_from};
ghost use Rattle.type_members.specs.dsl_tree.Views.{compound_tree};
ghost use Rattle.type_members.specs.type_heads.DeclaredTypes.{meant as meaning};
ghost use Rattle.type_members.specs.type_heads.HeadingFaults.{fits_base as fits, fits_owner as fits_with, heir_rows, meant_row, own_owner as owner_of, value_rows};

use crate::names::compound;
use crate::references::{last_place, meant, with_name, with_unknown};
use dsl_tree::{CompoundDecl, ConditionValue, Heir, HeirCondition};
use name_scope::with_fault;
use osc_base::{Fault, FaultCode};
use type_heads::{Heads, TypeId};

fn fits_owner(heads: &Heads, own: Option<TypeId>, other: Option<TypeId>) -> bool
    ensures { result ≡ fits_with heads.now own other }
{
    match (own, other) {
        (_, None) => true,
        (None, Some(_)) => false,
        (Some(own), Some(other)) => heads.is_kind_of(other, own),
    }
}

/// The actor that owns a behaviour that is declared.
fn own_owner(heads: &Heads, declared: &CompoundDecl) -> Option<TypeId>
    ensures { result ≡ owner_of heads.now (compound_tree declared.now) }
{
    let owner = compound(declared.kind, &declared.name).owner()?;
    heads.named(None, owner)
}

fn fits_base(heads: &Heads, declared: &CompoundDecl, base: TypeId) -> bool
    ensures { result ≡ fits heads.now (compound_tree declared.now) base }
{
    heads.form(base).is_compound(declared.kind)
        && fits_owner(heads, own_owner(heads, declared), heads.owner(base))
}

/// Whether a name means a type from which this one can't inherit.
fn is_wrong_base(heads: &Heads, declared: &CompoundDecl, heir: &Heir) -> bool
    ensures { result ≡ option_map_or (λ t. not (fits heads.now (compound_tree declared.now) t)) (meaning heads.now heir.now.base) false }
{
    match meant(heads, &heir.base) {
        Some(base) => !fits_base(heads, declared, base),
        None => false,
    }
}

fn with_value(first: Option<Fault>, heads: &Heads, value: &ConditionValue) -> Option<Fault>
    ensures { result ≡ first_from first (value_rows heads.now value.now) }
{
    match value {
        ConditionValue::EnumName { of, member: _ } => with_unknown(first, heads, of),
        ConditionValue::Truth { place: _, value: _ } | ConditionValue::Name(_) => first,
    }
}

fn with_condition(
    first: Option<Fault>,
    heads: &Heads,
    condition: &Option<HeirCondition>,
) -> Option<Fault>
    ensures { result ≡ first_from first (option_map_or (λ c. value_rows heads.now c.value) condition.now []) }
{
    match condition {
        Some(condition) => with_value(first, heads, &condition.value),
        None => first,
    }
}

fn with_meaning(
    first: Option<Fault>,
    heads: &Heads,
    declared: &CompoundDecl,
    heir: &Heir,
) -> Option<Fault>
    ensures { result ≡ first_from first (meant_row heads.now (fits heads.now (compound_tree declared.now)) heir.now.base ∷ option_map_or (λ c. value_rows heads.now c.value) heir.now.condition []) }
{
    let is_wrong = is_wrong_base(heads, declared, heir);
    let place = last_place(&heir.base);
    let first = with_fault(first, place, FaultCode::WrongKind, is_wrong);
    with_condition(first, heads, &heir.condition)
}

fn with_base(
    first: Option<Fault>,
    heads: &Heads,
    declared: &CompoundDecl,
    heir: &Heir,
) -> Option<Fault>
    ensures { result ≡ first_from first (heir_rows heads.now (compound_tree declared.now) heir.now) }
{
    let first = with_name(first, heads, &heir.base);
    with_meaning(first, heads, declared, heir)
}

/// Faults of what a type inherits from.
pub fn with_heir(first: Option<Fault>, heads: &Heads, declared: &CompoundDecl) -> Option<Fault>
    ensures { result ≡ first_from first (option_map_or (heir_rows heads.now (compound_tree declared.now)) declared.now.heir []) }
{
    match &declared.heir {
        Some(heir) => with_base(first, heads, declared, heir),
        None => first,
    }
}
