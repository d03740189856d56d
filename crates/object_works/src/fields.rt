//! The objects and the values that the fields of an object hold.

ghost use Rattle.std.specs.Prelude.{◌≡◌, ◌++◌, ◌∷◌, [], Some, flat_map, map, IfOk, OnOk};
ghost use Rattle.scene_expansion.specs.composition.Givens.{guards_under};
ghost use Rattle.scene_expansion.specs.composition.Homes as homes;
ghost use Rattle.scene_expansion.specs.composition.SeenParts.{seen_binding};
ghost use Rattle.dsl_tree.specs.Views.{field_tree};
ghost use Rattle.scene_expansion.specs.expansion_laws.Works.{field_works, value_works};
ghost use Rattle.scene_expansion.specs.expansion_laws.Works as works;
ghost use Rattle.expr_nodes.specs.type_heads.Members.{fields};
ghost use Rattle.scene_expansion.specs.SeenWorks.{seen_work};
ghost use Rattle.program_texts.specs.program_fields.SeenFields.{seen_field};
ghost use Rattle.program_texts.specs.SeenTexts.{types_in};
ghost use Rattle.object_works.specs.Held.{held_objects, held_values, held_works};

use crate::copies::{copy_guard, copy_guards, copy_range};
use crate::within::Within;
use dsl_tree::FieldDecl;
use osc_base::{Path, Row};
use program_texts::{
    Guard, ProgramTexts, TypeField, TypeId, ValueRange, list_length, range_of, then_name,
};
use scene_expansion::{Work, then_index};
use std::alloc::{AllocError, Global};

impl Within<'_> {
    /// Whether a parameter is another name of its argument.
    fn is_bound(&self, path: &Path) -> bool
        ensures { result ≡ homes.is_bound (map seen_binding self.now.bindings.now) path.now }
    {
        self.bound.get(path).is_some()
    }
}

/// Puts a value at the end.
fn push_value<'p>(
    alloc: Global,
    into: &mut Vec<Work<'p>>,
    path: Path,
    guards: &[Guard],
    range: &ValueRange,
) -> Result<(), AllocError>
    ensures { OnOk result (map seen_work into.new.items ≡ map seen_work into.old.items ++ works.Work.Value path guards.now range.now ∷ []) }
{
    let guards = copy_guards(alloc, guards)?;
    let range = copy_range(alloc, range)?;
    into.push(Work::Value {
        path,
        guards,
        range,
    })?;
    Ok(())
}

/// Puts the elements of a list of values at the end.
fn push_elements<'p>(
    alloc: Global,
    into: &mut Vec<Work<'p>>,
    path: &Path,
    guards: &[Guard],
    length: u32,
    range: &ValueRange,
) -> Result<(), AllocError>
    ensures { OnOk result (map seen_work into.new.items ≡ map seen_work into.old.items ++ value_works path.now guards.now (Some length) range.now) }
{
    for number in 0..length {
        let element = then_index(alloc, path, number)?;
        push_value(alloc, into, element, guards, range)?;
    }
    Ok(())
}

/// Puts one value at the end, or one for each element of a list.
fn push_values<'p>(
    alloc: Global,
    into: &mut Vec<Work<'p>>,
    path: &Path,
    guards: &[Guard],
    length: Option<u32>,
    range: &ValueRange,
) -> Result<(), AllocError>
    ensures { OnOk result (map seen_work into.new.items ≡ map seen_work into.old.items ++ value_works path.now guards.now length range.now) }
{
    match length {
        Some(length) => push_elements(alloc, into, path, guards, length, range),
        None => push_value(alloc, into, path.copy(alloc)?, guards, range),
    }
}

/// Puts the values that a field of a type holds at the end. An object holds none.
fn push_held_values<'p>(
    alloc: Global,
    texts: &ProgramTexts<'p>,
    into: &mut Vec<Work<'p>>,
    path: &Path,
    guards: &[Guard],
    decl: &FieldDecl,
    of: TypeId,
) -> Result<(), AllocError>
    ensures { OnOk result (map seen_work into.new.items ≡ map seen_work into.old.items ++ held_values (types_in texts.now) path.now guards.now (field_tree decl.now) of) }
{
    let length = list_length(decl)?;
    match range_of(alloc, texts.types(), of)? {
        Some(range) => push_values(alloc, into, path, guards, length, &range),
        None => Ok(()),
    }
}

/// Puts the object that a field of a type holds at the end, unless the field is bound.
fn push_held_object<'p>(
    alloc: Global,
    texts: &ProgramTexts<'p>,
    into: &mut Vec<Work<'p>>,
    within: &Within<'_>,
    path: &Path,
    guards: &[Guard],
    of: TypeId,
) -> Result<(), AllocError>
    ensures { OnOk result (map seen_work into.new.items ≡ map seen_work into.old.items ++ held_objects within.now.steps (types_in texts.now) (map seen_binding within.now.bindings.now) path.now guards.now of) }
{
    if !texts.is_object(of) || within.is_bound(path) {
        return Ok(());
    }
    let guards = copy_guards(alloc, guards)?;
    into.push(Work::Object {
        steps: within.steps,
        path: path.copy(alloc)?,
        of,
        guards,
        bindings: Row::new(alloc),
    })?;
    Ok(())
}

/// Puts what a field of a type holds at the end.
fn push_held<'p>(
    alloc: Global,
    texts: &ProgramTexts<'p>,
    into: &mut Vec<Work<'p>>,
    within: &Within<'_>,
    path: &Path,
    guards: &[Guard],
    decl: &FieldDecl,
    of: TypeId,
) -> Result<(), AllocError>
    ensures { OnOk result (map seen_work into.new.items ≡ map seen_work into.old.items ++ held_works within.now.steps (types_in texts.now) (map seen_binding within.now.bindings.now) path.now guards.now (field_tree decl.now) of) }
{
    push_held_object(alloc, texts, into, within, path, guards, of)?;
    push_held_values(alloc, texts, into, path, guards, decl, of)
}

/// The conditions of the object and of a field.
fn field_guards(
    alloc: Global,
    texts: &ProgramTexts<'_>,
    within: &Within<'_>,
    under: &[TypeId],
) -> Result<Row<Guard>, AllocError>
    ensures { IfOk result (λ gs. gs ≡ within.now.guards.now ++ guards_under (types_in texts.now) within.now.object.now within.now.of under.now) }
{
    let mut guards = copy_guards(alloc, within.guards)?;
    let more = texts.guards_under(alloc, within.object, within.of, under)?;
    push_guards(alloc, &mut guards, more.as_slice())?;
    Ok(guards)
}

/// Puts copies of conditions at the end.
fn push_guards(alloc: Global, guards: &mut Row<Guard>, more: &[Guard]) -> Result<(), AllocError>
    ensures { OnOk result (guards.new ≡ guards.old ++ more.now) }
{
    for guard in more {
        guards.push(copy_guard(alloc, guard)?)?;
    }
    Ok(())
}

/// Puts what a field holds at the end.
fn push_field<'p>(
    alloc: Global,
    texts: &ProgramTexts<'p>,
    into: &mut Vec<Work<'p>>,
    within: &Within<'_>,
    field: &TypeField<'p>,
) -> Result<(), AllocError>
    ensures { OnOk result (map seen_work into.new.items ≡ map seen_work into.old.items ++ field_works within.now.steps (types_in texts.now) (map seen_binding within.now.bindings.now) within.now.object.now within.now.of within.now.guards.now (seen_field field.now)) }
{
    let Some(of) = texts.declared_type(field.decl) else {
        return Ok(());
    };
    let path = then_name(alloc, within.object, field.name.text.as_str())?;
    let guards = field_guards(alloc, texts, within, field.under)?;
    push_held(
        alloc,
        texts,
        into,
        within,
        &path,
        guards.as_slice(),
        field.decl,
        of,
    )
}

/// Puts what the fields of the object hold at the end.
pub(crate) fn push_fields<'p>(
    alloc: Global,
    texts: &ProgramTexts<'p>,
    into: &mut Vec<Work<'p>>,
    within: &Within<'_>,
) -> Result<(), AllocError>
    ensures { OnOk result (map seen_work into.new.items ≡ map seen_work into.old.items ++ flat_map (field_works within.now.steps (types_in texts.now) (map seen_binding within.now.bindings.now) within.now.object.now within.now.of within.now.guards.now) (fields (types_in texts.now) within.now.of)) }
{
    let fields = texts.fields(alloc, within.of)?;
    push_each(alloc, texts, into, within, fields.as_slice())
}

/// Puts what some fields hold at the end.
fn push_each<'p>(
    alloc: Global,
    texts: &ProgramTexts<'p>,
    into: &mut Vec<Work<'p>>,
    within: &Within<'_>,
    fields: &[TypeField<'p>],
) -> Result<(), AllocError>
    ensures { OnOk result (map seen_work into.new.items ≡ map seen_work into.old.items ++ flat_map (field_works within.now.steps (types_in texts.now) (map seen_binding within.now.bindings.now) within.now.object.now within.now.of within.now.guards.now) (map seen_field fields.now)) }
{
    for field in fields {
        push_field(alloc, texts, into, within, field)?;
    }
    Ok(())
}
