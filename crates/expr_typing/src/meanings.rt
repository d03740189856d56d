//! What a bare name means in its scope.

ghost use Rattle.std.specs.Prelude.{◌≡◌, ◌&&◌, ◌∷◌, [], false, IfOk};
ghost use Rattle.std.specs.Option.{option_map_or};
ghost use Rattle.dsl_tree.specs.osc_base.FaultRows.{first_fault, row};
ghost use Rattle.dsl_tree.specs.osc_base.declared.fault.FaultCode.{FaultCode};
ghost use Rattle.expr_nodes.specs.type_heads.Table.{form, is_behaviour as of_behaviour};
ghost use Rattle.expr_nodes.specs.Names as Names;
ghost use Rattle.expr_nodes.specs.Names.{is_duration as named_duration, held_at as field_held, label_named, meaning_by_duration, meaning_by_label, meaning as meant, typed_meaning, is_nothing, is_several, is_hidden as label_hidden, name_rows, name_typed};
ghost use Rattle.expr_nodes.specs.Seen.{seen_part};
ghost use Rattle.expr_nodes.specs.SeenNames.{seen_scope};
ghost use Rattle.expr_typing.specs.Meanings.{seen_meaning};

use crate::held::held_at;
use crate::names::{
    Meaning, duration_at, is_behaviour, is_duration, label_at, label_of, member_meant, path_of,
};
use dsl_tree::Ident;
use dsl_tree::osc_base::FaultCode;
use expr_nodes::{Boxed, Checked, Fault, FieldType, Path, Place, Scope, Typed, Types, leads_into};
use std::alloc::{AllocError, Global};
use typed_parts::{fault_if, least};

/// A field at a path.
pub(crate) fn field_meant(
    alloc: Global,
    types: &Types,
    place: Place,
    path: Path,
    field: FieldType,
) -> Result<Meaning, AllocError>
    ensures { IfOk result (λ m. seen_meaning m ≡ Names.Something (field_held types.now.table place path field.of field.length)) }
{
    Ok(Meaning::Something(Some(held_at(alloc, types, place, path, field)?)))
}

/// What a name means that is neither a field nor a label.
fn by_duration(
    alloc: Global,
    types: &Types,
    scope: &Scope<'_>,
    name: &Ident,
) -> Result<Meaning, AllocError>
    ensures { IfOk result (λ m. seen_meaning m ≡ meaning_by_duration types.now.table name.now (named_duration name.now.text && of_behaviour (form types.now.table.heads scope.now.holder))) }
{
    if is_duration(name.text.as_str()) && is_behaviour(types, scope.holder) {
        let path = path_of(alloc, "duration")?;
        let typed = Boxed::new(alloc, duration_at(name.place, path))?;
        Ok(Meaning::Something(Some(typed)))
    } else {
        member_meant(alloc, types, name)
    }
}

/// What a name means that is no field.
fn by_label(
    alloc: Global,
    types: &Types,
    scope: &Scope<'_>,
    name: &Ident,
) -> Result<Meaning, AllocError>
    ensures { IfOk result (λ m. seen_meaning m ≡ meaning_by_label types.now.table (seen_scope scope.now) name.now (label_named (seen_scope scope.now) name.now.text)) }
{
    match label_of(scope, name.text.as_str()) {
        Some(label) => {
            let typed = label_at(alloc, name.place, label)?;
            Ok(Meaning::Something(Some(typed)))
        }
        None => by_duration(alloc, types, scope, name),
    }
}

/// What a name means.
fn meaning(
    alloc: Global,
    types: &Types,
    scope: &Scope<'_>,
    name: &Ident,
) -> Result<Meaning, AllocError>
    ensures { IfOk result (λ m. seen_meaning m ≡ meant types.now.table (seen_scope scope.now) name.now) }
{
    match types.field(scope.holder, name.text.as_str()) {
        Some(field) => {
            let path = path_of(alloc, name.text.as_str())?;
            field_meant(alloc, types, name.place, path, field)
        }
        None => by_label(alloc, types, scope, name),
    }
}

fn name_fault(place: Place, meaning: &Meaning, is_hidden: bool) -> Option<Fault>
    ensures { result ≡ first_fault (row place FaultCode.Unknown (is_nothing (seen_meaning meaning.now)) ∷ row place FaultCode.Ambiguous (is_several (seen_meaning meaning.now)) ∷ row place FaultCode.ChoiceLabel is_hidden ∷ []) }
{
    let (is_nothing, is_several) = match meaning {
        Meaning::Nothing => (true, false),
        Meaning::Several => (false, true),
        Meaning::Something(_) => (false, false),
    };
    let unknown = fault_if(place, FaultCode::Unknown, is_nothing);
    let ambiguous = fault_if(place, FaultCode::Ambiguous, is_several);
    let hidden = fault_if(place, FaultCode::ChoiceLabel, is_hidden);
    least(least(unknown, ambiguous), hidden)
}

/// The typed form of what a name means.
pub(crate) fn typed_of(meaning: Meaning) -> Option<Boxed<Typed>>
    ensures { seen_part result ≡ typed_meaning (seen_meaning meaning) }
{
    match meaning {
        Meaning::Something(typed) => typed,
        Meaning::Nothing | Meaning::Several => None,
    }
}

/// The label of that name is hidden.
fn is_label_hidden(scope: &Scope<'_>, name: &str) -> bool
    ensures { result ≡ option_map_or (λ l. l.hidden) (label_named (seen_scope scope.now) name.now) false }
{
    match label_of(scope, name) {
        Some(label) => !leads_into(scope.way, label.way.as_slice()),
        None => false,
    }
}

/// The name is that of a hidden label, and of no field.
fn is_hidden(types: &Types, scope: &Scope<'_>, name: &str) -> bool
    ensures { result ≡ label_hidden types.now.table (seen_scope scope.now) name.now }
{
    types.field(scope.holder, name).is_none() && is_label_hidden(scope, name)
}

/// A name.
pub fn name(
    alloc: Global,
    types: &Types,
    scope: &Scope<'_>,
    name: &Ident,
) -> Result<Checked, AllocError>
    ensures fault { IfOk result (λ c. c.fault ≡ first_fault (name_rows types.now.table (seen_scope scope.now) name.now)) }
    ensures typed { IfOk result (λ c. seen_part c.typed ≡ name_typed types.now.table (seen_scope scope.now) name.now) }
{
    let meaning = meaning(alloc, types, scope, name)?;
    let hidden = is_hidden(types, scope, name.text.as_str());
    match name_fault(name.place, &meaning, hidden) {
        None => Ok(Checked {
            fault: None,
            typed: typed_of(meaning),
        }),
        Some(fault) => Ok(Checked {
            fault: Some(fault),
            typed: None,
        }),
    }
}
