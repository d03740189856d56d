//! What stands after a point.

ghost use Rattle.std.specs.Prelude.{◌≡◌, Some, IfOk};
ghost use Rattle.dsl_tree.specs.osc_base.FaultRows.{first_fault};
ghost use Rattle.expr_nodes.specs.Names.{duration_if, member_of_object as object_member, member_made as made_member, member_of_phase as phase_member, member_of_whole as whole_member, after_point as meant_after, is_nothing as means_nothing, dot_rows, dot_typed};
ghost use Rattle.expr_nodes.specs.Seen.{seen, seen_kind, seen_made, seen_part};
ghost use Rattle.expr_typing.specs.Meanings.{seen_meaning};

use crate::fields::with_name;
use crate::meanings::{field_meant, typed_of};
use crate::names::{Meaning, duration_at, is_behaviour, is_duration};
use dsl_tree::Ident;
use dsl_tree::osc_base::FaultCode;
use expr_nodes::{Boxed, Checked, Made, Path, Place, Text, TypeId, Typed, Types, ValueKind};
use std::alloc::{AllocError, Global};
use typed_parts::fault_if;

/// The duration of what stands at a path, if it has one.
fn timed(alloc: Global, place: Place, path: Path, has: bool) -> Result<Meaning, AllocError>
    ensures { IfOk result (λ m. seen_meaning m ≡ duration_if place path has) }
{
    if has {
        let path = with_name(path, Text::copy(alloc, "duration")?)?;
        let typed = Boxed::new(alloc, duration_at(place, path))?;
        Ok(Meaning::Something(Some(typed)))
    } else {
        Ok(Meaning::Nothing)
    }
}

/// A member of an object, or the object's duration.
fn member_of_object(
    alloc: Global,
    types: &Types,
    place: Place,
    path: Path,
    of: TypeId,
    name: &str,
) -> Result<Meaning, AllocError>
    ensures { IfOk result (λ m. seen_meaning m ≡ object_member types.now.table place path of name.now) }
{
    match types.field(of, name) {
        Some(field) => {
            let path = with_name(path, Text::copy(alloc, name)?)?;
            field_meant(alloc, types, place, path, field)
        }
        None => {
            let has = is_duration(name) && is_behaviour(types, of);
            timed(alloc, place, path, has)
        }
    }
}

/// A member of what a phase makes.
fn member_made(
    alloc: Global,
    types: &Types,
    place: Place,
    path: Path,
    made: Made,
    name: &str,
) -> Result<Meaning, AllocError>
    ensures { IfOk result (λ m. seen_meaning m ≡ made_member types.now.table place path name.now (seen_made made)) }
{
    match made {
        Made::Makes(of) => member_of_object(alloc, types, place, path, of, name),
        Made::Unknown => Ok(Meaning::Something(None)),
        Made::Nothing => Ok(Meaning::Nothing),
    }
}

/// A phase's duration, or a member of what it makes.
fn member_of_phase(
    alloc: Global,
    types: &Types,
    place: Place,
    path: Path,
    made: Made,
    name: &str,
) -> Result<Meaning, AllocError>
    ensures { IfOk result (λ m. seen_meaning m ≡ phase_member types.now.table place path (seen_made made) name.now) }
{
    if is_duration(name) {
        timed(alloc, place, path, true)
    } else {
        member_made(alloc, types, place, path, made, name)
    }
}

/// A member of a whole object or phase.
fn member_of_whole(
    alloc: Global,
    types: &Types,
    place: Place,
    path: Path,
    kind: ValueKind,
    name: &str,
) -> Result<Meaning, AllocError>
    ensures { IfOk result (λ m. seen_meaning m ≡ whole_member types.now.table place path (seen_kind kind) name.now) }
{
    match kind {
        ValueKind::Object(of) => member_of_object(alloc, types, place, path, of, name),
        ValueKind::Phase(made) => member_of_phase(alloc, types, place, path, made, name),
        ValueKind::Truth | ValueKind::Number(_) | ValueKind::Member(_) | ValueKind::Chars => {
            Ok(Meaning::Nothing)
        }
    }
}

/// What a name means after the point of an expression.
fn after_point(
    alloc: Global,
    types: &Types,
    head: Boxed<Typed>,
    name: &str,
) -> Result<Meaning, AllocError>
    ensures { IfOk result (λ m. seen_meaning m ≡ meant_after types.now.table (seen head) name.now) }
{
    match head.into_inner() {
        Typed::Whole { info, path } => {
            member_of_whole(alloc, types, info.place, path, info.kind, name)
        }
        Typed::Constant { .. }
        | Typed::Read { .. }
        | Typed::Listed { .. }
        | Typed::Span { .. }
        | Typed::Minus { .. }
        | Typed::Not { .. }
        | Typed::Joined { .. }
        | Typed::Implies { .. }
        | Typed::Relation { .. }
        | Typed::Within { .. } => Ok(Meaning::Nothing),
    }
}

/// The name means nothing.
fn is_nothing(meaning: &Meaning) -> bool
    ensures { result ≡ means_nothing (seen_meaning meaning.now) }
{
    match meaning {
        Meaning::Nothing => true,
        Meaning::Several | Meaning::Something(_) => false,
    }
}

fn dot_of(
    alloc: Global,
    types: &Types,
    head: Boxed<Typed>,
    name: &Ident,
) -> Result<Checked, AllocError>
    ensures fault { IfOk result (λ c. c.fault ≡ first_fault (dot_rows types.now.table (Some (seen head)) name.now)) }
    ensures typed { IfOk result (λ c. seen_part c.typed ≡ dot_typed types.now.table (Some (seen head)) name.now) }
{
    let meaning = after_point(alloc, types, head, name.text.as_str())?;
    let fault = fault_if(name.place, FaultCode::Unknown, is_nothing(&meaning));
    Ok(Checked {
        fault,
        typed: typed_of(meaning),
    })
}

/// A name after a point.
pub(crate) fn dot(
    alloc: Global,
    types: &Types,
    head: Option<Boxed<Typed>>,
    name: &Ident,
) -> Result<Checked, AllocError>
    ensures fault { IfOk result (λ c. c.fault ≡ first_fault (dot_rows types.now.table (seen_part head) name.now)) }
    ensures typed { IfOk result (λ c. seen_part c.typed ≡ dot_typed types.now.table (seen_part head) name.now) }
{
    match head {
        Some(head) => dot_of(alloc, types, head, name),
        None => Ok(Checked {
            fault: None,
            typed: None,
        }),
    }
}
