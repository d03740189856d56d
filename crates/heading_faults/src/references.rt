//! The faults of names that are used.

ghost use Rattle.std.specs.Prelude.{◌≡◌, [], ◌∷◌, ◌++◌, ◌&&◌, Some, None, false, not, is_none, is_some};
ghost use Rattle.std.specs.Option.{option_map_or};
ghost use Rattle.type_members.specs.osc_base.FaultRows.{first_from};
ghost use Rattle.type_members.specs.type_heads.Table.{named, form};
ghost use Rattle.type_members.specs.type_heads.DeclaredTypes.{meant as meaning};
ghost use Rattle.type_members.specs.type_heads.HeadingFaults.{unknown_row, owner_rows, name_rows, last_name};
ghost use Rattle.type_members.specs.type_heads.Table.{is_actor};

use dsl_tree::{Ident, QName};
use name_scope::with_fault;
use osc_base::{Fault, FaultCode, Place};
use type_heads::{Heads, TypeId};

/// A fault of the name of a type or of a behaviour without an owner.
pub fn with_unknown(first: Option<Fault>, heads: &Heads, name: &Ident) -> Option<Fault>
    ensures { result ≡ first_from first (unknown_row heads.now name.now ∷ []) }
{
    let is_unknown = heads.named(None, name.text.as_str()).is_none();
    with_fault(first, name.place, FaultCode::Unknown, is_unknown)
}

fn is_no_actor(heads: &Heads, name: &Ident) -> bool
    ensures { result ≡ option_map_or (λ t. not (is_actor (form heads.now t))) (named heads.now None name.now.text) false }
{
    match heads.named(None, name.text.as_str()) {
        Some(of) => !heads.form(of).is_actor(),
        None => false,
    }
}

/// Faults of the name of an owner.
pub fn with_owner(first: Option<Fault>, heads: &Heads, name: &Ident) -> Option<Fault>
    ensures { result ≡ first_from first (owner_rows heads.now name.now) }
{
    let first = with_unknown(first, heads, name);
    let is_wrong = is_no_actor(heads, name);
    with_fault(first, name.place, FaultCode::WrongKind, is_wrong)
}

fn is_unowned(heads: &Heads, owner: &Ident, name: &Ident) -> bool
    ensures { result ≡ (is_some (named heads.now None owner.now.text) && is_none (named heads.now (Some owner.now.text) name.now.text)) }
{
    let owner = owner.text.as_str();
    heads.named(None, owner).is_some() && heads.named(Some(owner), name.text.as_str()).is_none()
}

/// Faults of a name with or without an owner.
pub fn with_name(first: Option<Fault>, heads: &Heads, name: &QName) -> Option<Fault>
    ensures { result ≡ first_from first (name_rows heads.now name.now.first name.now.second) }
{
    match &name.second {
        None => with_unknown(first, heads, &name.first),
        Some(second) => {
            let is_wrong = is_unowned(heads, &name.first, second);
            let first = with_fault(first, second.place, FaultCode::Unknown, is_wrong);
            with_owner(first, heads, &name.first)
        }
    }
}

/// The type that a name with or without an owner means.
pub fn meant(heads: &Heads, name: &QName) -> Option<TypeId>
    ensures { result ≡ meaning heads.now name.now }
{
    match &name.second {
        None => heads.named(None, name.first.text.as_str()),
        Some(second) => heads.named(Some(name.first.text.as_str()), second.text.as_str()),
    }
}

/// The place of the name after the point, or of the only one.
pub fn last_place(name: &QName) -> Place
    ensures { result ≡ (last_name name.now).place }
{
    match &name.second {
        None => name.first.place,
        Some(second) => second.place,
    }
}
