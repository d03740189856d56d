//! The constraints of initial values.

ghost use Rattle.std.specs.Prelude.{◌≡◌, ◌++◌, ◌∷◌, [], None, Some, cond, length, map, option_and_then, option_map, IfOk, OnOk};
ghost use Rattle.program_texts.specs.composition.Givens.{element as element_tree};
ghost use Rattle.program_texts.specs.composition.SeenParts.{seen_occurrence};
ghost use Rattle.dsl_tree.specs.ExprTree.{ExprTree};
ghost use Rattle.dsl_tree.specs.Views.{expr_tree};
ghost use Rattle.expr_nodes.specs.Scope as Scopes;
ghost use Rattle.expr_nodes.specs.Seen.{seen_part};
ghost use Rattle.program_texts.specs.Ranges.{listed_items, seen_exprs};
ghost use Rattle.expr_nodes.specs.type_heads.Members.{items_in};
ghost use Rattle.expr_nodes.specs.Typing.{first};
ghost use Rattle.text_constraints.specs.Elements.{AreSampled, SampleFor, sample_at, sample_in, seen_sample};
ghost use Rattle.text_constraints.specs.Kept.{seen_owner};
ghost use Rattle.text_constraints.specs.OwnTexts.{elements_kept, initial_kept, initials_kept};
ghost use Rattle.text_constraints.specs.Sites.{seen_site};

use crate::elements::{Sample, element, sample_list, sampled};
use crate::rules::{Owner, constraint, equal};
use crate::targets::TextSite;
use dsl_tree::Expr;
use expr_eval::{checked, it};
use expr_nodes::{Typed, Types};
use osc_base::{Boxed, Place, Strength};
use program_texts::{Occurrence, TypeId, first_place, list_items};
use std::alloc::{AllocError, Global};

/// The default that `it` has an initial value.
fn initial(
    alloc: Global,
    types: &Types,
    text: &TextSite<'_, '_, '_>,
    owner: &Owner<'_, '_>,
    value: &Expr,
) -> Result<Occurrence, AllocError>
    ensures { IfOk result (λ o. seen_occurrence o ≡ initial_kept types.now.table (seen_site text.now) (seen_owner owner.now) (ExprTree.It (first (expr_tree value.now))) (expr_tree value.now)) }
{
    let begins = first_place(value);
    let left = it(alloc, types, text.scope, begins)?;
    let right = checked(alloc, types, text.scope, value)?;
    equal(
        alloc,
        text,
        owner,
        begins,
        Strength::Default,
        begins,
        left,
        right,
    )
}

/// The default that an element has an initial value, by a sample of the elements.
fn sampled_element(
    alloc: Global,
    types: &Types,
    text: &TextSite<'_, '_, '_>,
    owner: &Owner<'_, '_>,
    sample: Sample,
    number: u32,
    value: &Expr,
) -> Result<Occurrence, AllocError>
    ensures { IfOk result (λ o. SampleFor types.now.table (seen_site text.now).scope number (Some (seen_sample sample)) → seen_occurrence o ≡ initial_kept types.now.table (seen_site text.now) (seen_owner owner.now) (element_tree (first (expr_tree value.now)) number) (expr_tree value.now)) }
{
    let begins = first_place(value);
    let left = element(alloc, sample, begins, number)?;
    let right = checked(alloc, types, text.scope, value)?;
    equal(
        alloc,
        text,
        owner,
        begins,
        Strength::Default,
        begins,
        left,
        right,
    )
}

/// The default that an element has an initial value, by a list of one element. Without one, the element has no typed form.
fn initial_element(
    alloc: Global,
    types: &Types,
    text: &TextSite<'_, '_, '_>,
    owner: &Owner<'_, '_>,
    list: &Option<Boxed<Typed>>,
    number: u32,
    value: &Expr,
) -> Result<Occurrence, AllocError>
    ensures { IfOk result (λ o. SampleFor types.now.table (seen_site text.now).scope number (sample_in (seen_part list.now)) → seen_occurrence o ≡ initial_kept types.now.table (seen_site text.now) (seen_owner owner.now) (element_tree (first (expr_tree value.now)) number) (expr_tree value.now)) }
{
    match sampled(list) {
        Some(sample) => sampled_element(alloc, types, text, owner, sample, number, value),
        None => constraint(
            alloc,
            owner,
            first_place(value),
            Strength::Default,
            None,
            None,
        ),
    }
}

/// The number of an element. More elements than a `u32` counts are out of memory.
fn element_number(place: usize) -> Result<u32, AllocError>
    ensures { IfOk result (λ n. n ≡ place) }
{
    u32::try_from(place).ok().ok_or(AllocError)
}

/// Puts the default that an element has an initial value at the end.
fn push_element(
    alloc: Global,
    types: &Types,
    text: &TextSite<'_, '_, '_>,
    owner: &Owner<'_, '_>,
    into: &mut Vec<Occurrence>,
    list: &Option<Boxed<Typed>>,
    place: usize,
    value: &Expr,
) -> Result<(), AllocError>
    ensures { OnOk result (SampleFor types.now.table (seen_site text.now).scope place (sample_in (seen_part list.now)) → map seen_occurrence into.new.items ≡ map seen_occurrence into.old.items ++ initial_kept types.now.table (seen_site text.now) (seen_owner owner.now) (element_tree (first (expr_tree value.now)) place) (expr_tree value.now) ∷ []) }
{
    let number = element_number(place)?;
    into.push(initial_element(alloc, types, text, owner, list, number, value)?)?;
    Ok(())
}

/// Puts the defaults that elements have initial values at the end.
fn push_elements(
    alloc: Global,
    types: &Types,
    text: &TextSite<'_, '_, '_>,
    owner: &Owner<'_, '_>,
    into: &mut Vec<Occurrence>,
    list: &Option<Boxed<Typed>>,
    values: &[Expr],
) -> Result<(), AllocError>
    ensures { OnOk result (AreSampled types.now.table (seen_site text.now).scope (length values.now) (sample_in (seen_part list.now)) → map seen_occurrence into.new.items ≡ map seen_occurrence into.old.items ++ elements_kept types.now.table (seen_site text.now) (seen_owner owner.now) 0 (map expr_tree values.now)) }
{
    for (place, value) in values.iter().enumerate() {
        push_element(alloc, types, text, owner, into, list, place, value)?;
    }
    Ok(())
}

/// A list field with one element, if its type is known.
fn list_of(
    alloc: Global,
    types: &Types,
    place: Place,
    of: &Option<TypeId>,
) -> Result<Option<Boxed<Typed>>, AllocError>
    ensures { IfOk result (λ t. sample_in (seen_part t) ≡ option_and_then (sample_at types.now.table place) of.now) }
{
    match of {
        Some(of) => sample_list(alloc, types, place, *of),
        None => Ok(None),
    }
}

/// Puts the defaults that the elements of a list field of a type have initial values at the end.
fn push_listed(
    alloc: Global,
    types: &Types,
    text: &TextSite<'_, '_, '_>,
    owner: &Owner<'_, '_>,
    into: &mut Vec<Occurrence>,
    of: &Option<TypeId>,
    values: &[Expr],
) -> Result<(), AllocError>
    ensures { OnOk result ((seen_site text.now).scope.it ≡ option_map (λ t. Scopes.It.Of t (Some (length values.now))) of.now → map seen_occurrence into.new.items ≡ map seen_occurrence into.old.items ++ elements_kept types.now.table (seen_site text.now) (seen_owner owner.now) 0 (map expr_tree values.now)) }
{
    let [first, ..] = values else {
        return Ok(());
    };
    let list = list_of(alloc, types, first_place(first), of)?;
    push_elements(alloc, types, text, owner, into, &list, values)
}

/// The items of an initial value that is given as a list.
fn items_given(is_list: bool, initial: &Expr) -> Option<&[Expr]>
    ensures { option_map seen_exprs result ≡ cond is_list (listed_items (expr_tree initial.now)) None }
{
    if is_list { list_items(initial) } else { None }
}

/// Puts the default that a field of a type has its initial value at the end, or that each element of a list has.
pub(crate) fn push_initial(
    alloc: Global,
    types: &Types,
    text: &TextSite<'_, '_, '_>,
    owner: &Owner<'_, '_>,
    into: &mut Vec<Occurrence>,
    of: &Option<TypeId>,
    is_list: bool,
    value: &Expr,
) -> Result<(), AllocError>
    ensures { OnOk result ((seen_site text.now).scope.it ≡ option_map (λ t. Scopes.It.Of t (cond is_list (Some (items_in (Some (expr_tree value.now)))) None)) of.now → map seen_occurrence into.new.items ≡ map seen_occurrence into.old.items ++ initials_kept types.now.table (seen_site text.now) (seen_owner owner.now) is_list (expr_tree value.now)) }
{
    match items_given(is_list, value) {
        Some(items) => push_listed(alloc, types, text, owner, into, of, items),
        None => {
            into.push(initial(alloc, types, text, owner, value)?)?;
            Ok(())
        }
    }
}
