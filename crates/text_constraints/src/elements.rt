//! The elements of a list field, each by itself.

ghost use Rattle.std.specs.Prelude.{◌≡◌, None, Some, map, option_and_then, option_copied, option_map, IfOk};
ghost use Rattle.expr_nodes.specs.Seen.{seen, seen_part};
ghost use Rattle.expr_nodes.specs.Typed.{row_of};
ghost use Rattle.text_constraints.specs.Elements.{element_path, element_read, first_item, first_of as item_first, sample_at, sample_in, sample_read, seen_sample};

use expr_eval::{Checked, it};
use expr_nodes::{FieldType, Info, It, Scope, Typed, Types};
use osc_base::{Boxed, Path, Place, Row};
use program_texts::{TypeId, then_index, then_name};
use std::alloc::{AllocError, Global};

/// What an element of a list holds of itself, and over what it is counted.
#[derive(Clone, Copy)]
pub struct Sample {
    pub info: Info,
    pub per: u32,
}

/// What a value that is read holds of itself.
fn sample_of(typed: &Typed) -> Option<Sample>
    ensures { option_map seen_sample result ≡ sample_read (seen typed.now) }
{
    match typed {
        Typed::Read { info, per, .. } => Some(Sample {
            info: *info,
            per: *per,
        }),
        Typed::Constant { .. }
        | Typed::Whole { .. }
        | Typed::Listed { .. }
        | Typed::Span { .. }
        | Typed::Minus { .. }
        | Typed::Not { .. }
        | Typed::Joined { .. }
        | Typed::Implies { .. }
        | Typed::Relation { .. }
        | Typed::Within { .. } => None,
    }
}

/// The first of some items.
fn first_of(items: &[Typed]) -> Option<&Typed>
    ensures { option_map seen (option_copied result) ≡ first_item (row_of (map seen items.now)) }
{
    match items {
        [first, ..] => Some(first),
        [] => None,
    }
}

/// The first item of a list.
fn first_in(typed: &Typed) -> Option<&Typed>
    ensures { option_map seen (option_copied result) ≡ item_first (seen typed.now) }
{
    match typed {
        Typed::Listed { items, .. } => first_of(items.as_slice()),
        Typed::Constant { .. }
        | Typed::Read { .. }
        | Typed::Whole { .. }
        | Typed::Span { .. }
        | Typed::Minus { .. }
        | Typed::Not { .. }
        | Typed::Joined { .. }
        | Typed::Implies { .. }
        | Typed::Relation { .. }
        | Typed::Within { .. } => None,
    }
}

/// A sample of the items of a list.
pub(crate) fn sampled(typed: &Option<Boxed<Typed>>) -> Option<Sample>
    ensures { option_map seen_sample result ≡ sample_in (seen_part typed.now) }
{
    match typed {
        Some(list) => match first_in(list.get()) {
            Some(first) => sample_of(first),
            None => None,
        },
        None => None,
    }
}

/// A list field of that type with one element, if that has a typed form.
pub(crate) fn sample_list(
    alloc: Global,
    types: &Types,
    place: Place,
    of: TypeId,
) -> Result<Option<Boxed<Typed>>, AllocError>
    ensures { IfOk result (λ t. sample_in (seen_part t) ≡ sample_at types.now.table place of) }
{
    let length = Some(1);
    let scope = Scope {
        holder: of,
        it: Some(It::Of(FieldType { of, length })),
        labels: None,
        way: &[],
    };
    let known = it(alloc, types, &scope, place)?;
    Ok(known.typed)
}

/// The path of element n of `it`.
fn element_path(alloc: Global, number: u32) -> Result<Path, AllocError>
    ensures { IfOk result (λ p. p ≡ element_path number) }
{
    let root = Path {
        steps: Row::new(alloc),
    };
    let it = then_name(alloc, &root, "it")?;
    then_index(alloc, &it, number)
}

/// Element n of `it`, by a sample of the elements.
pub(crate) fn element(
    alloc: Global,
    sample: Sample,
    place: Place,
    number: u32,
) -> Result<Checked, AllocError>
    ensures fault { IfOk result (λ c. c.fault ≡ None) }
    ensures typed { IfOk result (λ c. seen_part c.typed ≡ Some (element_read place number (seen_sample sample))) }
{
    let info = Info {
        place,
        kind: sample.info.kind,
        size: sample.info.size,
    };
    let path = element_path(alloc, number)?;
    let typed = Typed::Read {
        info,
        path,
        per: sample.per,
    };
    Ok(Checked {
        fault: None,
        typed: Some(Boxed::new(alloc, typed)?),
    })
}
