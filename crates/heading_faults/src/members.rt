//! The faults of the types of fields.

ghost use Rattle.std.specs.Prelude.{◌≡◌, [], ◌∷◌, None, false, not, flat_map, map};
ghost use Rattle.std.specs.Option.{option_map_or};
ghost use Rattle.type_members.specs.osc_base.FaultRows.{first_from};
ghost use Rattle.type_members.specs.dsl_tree.Views.{field_tree, member_tree};
ghost use Rattle.type_members.specs.type_heads.Seen.{seen_form};
ghost use Rattle.type_members.specs.type_heads.Table.{form, named};
ghost use Rattle.type_members.specs.type_heads.HeadingFaults.{can_hold as holds, kind_row, member_rows, unknown_row};

use crate::references::with_unknown;
use dsl_tree::{FieldDecl, Member};
use name_scope::with_fault;
use osc_base::{Fault, FaultCode};
use type_heads::{Form, Heads};

fn can_hold(field: &FieldDecl, form: Form<'_>) -> bool
    ensures { result ≡ holds (field_tree field.now) (seen_form form.entry) }
{
    !(form.is_behaviour() || (field.list.is_some() && form.is_object()))
}

/// Whether the type of a field is one that no field has.
fn is_wrong_type(heads: &Heads, field: &FieldDecl) -> bool
    ensures { result ≡ option_map_or (λ t. not (holds (field_tree field.now) (form heads.now t))) (named heads.now None field.now.of.text) false }
{
    match heads.named(None, field.of.text.as_str()) {
        Some(of) => !can_hold(field, heads.form(of)),
        None => false,
    }
}

fn with_field(first: Option<Fault>, heads: &Heads, field: &FieldDecl) -> Option<Fault>
    ensures { result ≡ first_from first (unknown_row heads.now field.now.of ∷ kind_row heads.now (holds (field_tree field.now)) field.now.of ∷ []) }
{
    let first = with_unknown(first, heads, &field.of);
    let is_wrong = is_wrong_type(heads, field);
    with_fault(first, field.of.place, FaultCode::WrongKind, is_wrong)
}

fn with_member(first: Option<Fault>, heads: &Heads, member: &Member) -> Option<Fault>
    ensures { result ≡ first_from first (member_rows heads.now (member_tree member.now)) }
{
    match member {
        Member::Field(field) => with_field(first, heads, field),
        Member::Rule(_) | Member::Do { place: _, phase: _ } => first,
    }
}

/// Faults of the types of the fields among members.
pub fn with_members(first: Option<Fault>, heads: &Heads, members: &[Member]) -> Option<Fault>
    ensures { result ≡ first_from first (flat_map (member_rows heads.now) (map member_tree members.now)) }
{
    let mut found = first;
    for member in members {
        found = with_member(found, heads, member);
    }
    found
}
