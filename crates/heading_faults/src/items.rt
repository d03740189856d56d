//! The faults of the members of enums.

ghost use Rattle.std.specs.Prelude.{◌≡◌, ◌||◌, ◌+◌, ◌++◌, [], ◌∷◌, nat_lt, flat_map, IfOk, OnOk};
ghost use Rattle.std.specs.Option.{option_map_or};
ghost use Rattle.type_members.specs.osc_base.FaultRows.{first_from, row};
ghost use Rattle.type_members.specs.type_heads.Form.{EnumMember, greatest_value};
ghost use Rattle.type_members.specs.type_heads.HeadingFaults.{number_place as place_of_number, shares_item};
ghost use Rattle.heading_faults.specs.ItemSets.{has_item, HasItems, ContinuesItems, items_in, rows_of_items};
ghost use Rattle.type_members.specs.dsl_tree.Views.{declaration_tree};
ghost use Rattle.heading_faults.specs.Trees.{trees};

use dsl_tree::{Declaration, EnumItem};
use fault_sets::{NumberSet, TextSet};
use name_scope::with_fault;
use osc_base::{Fault, FaultCode, Place};
use std::alloc::{AllocError, Global};
use type_heads::PlacedDecl;

/// The members of an enum that were met, and the number that the next one has if none is written.
#[derive(Drop)]
pub struct ItemSet<'a> {
    names: TextSet<'a>,
    numbers: NumberSet,
    next: u128,
}

/// The greatest number of a member.
const GREATEST_VALUE: u128 = 1_000_000_000;

/// The place of the number of a member, or of its name if it has none.
fn number_place(item: &EnumItem) -> Place
    ensures { result ≡ place_of_number item.now }
{
    match &item.number {
        Some(number) => number.place,
        None => item.name.place,
    }
}

/// The number of a member.
fn number_of(item: &EnumItem, next: u128) -> u128
    ensures { result ≡ option_map_or (λ d. d.digits) item.now.number next }
{
    match &item.number {
        Some(number) => u128::from(number.digits),
        None => next,
    }
}

/// The number after this one. A number that a `u128` doesn't hold counts as out of memory.
fn number_after(number: u128) -> Result<u128, AllocError>
    ensures { IfOk result (λ n. n ≡ number + 1) }
{
    match number.checked_add(1) {
        Some(next) => Ok(next),
        None => Err(AllocError),
    }
}

/// Faults of a member, that is met before or not.
fn with_member(first: Option<Fault>, item: &EnumItem, number: u128, is_met: bool) -> Option<Fault>
    ensures { result ≡ first_from first (row item.now.name.place FaultCode.Twice is_met ∷ row (place_of_number item.now) FaultCode.TooLarge (nat_lt greatest_value number) ∷ []) }
{
    let is_large = number > GREATEST_VALUE;
    let first = with_fault(first, item.name.place, FaultCode::Twice, is_met);
    with_fault(first, number_place(item), FaultCode::TooLarge, is_large)
}

impl<'a> ItemSet<'a> {
    /// No members.
    fn new(alloc: Global) -> ItemSet<'a>
        ensures none { HasItems result [] }
        ensures next { result.next ≡ 0 }
    {
        ItemSet {
            names: TextSet::new(alloc),
            numbers: NumberSet::new(alloc),
            next: 0,
        }
    }

    /// Adds a member of that name and number. The result says whether one of them was met before.
    fn meet(&mut self, name: &'a str, number: u128) -> Result<bool, AllocError>
        ensures before { IfOk result (λ is_met. is_met ≡ has_item self.old (record { name = name.now; number = number })) }
        ensures more { OnOk result ((other : EnumMember) → has_item self.new other ≡ (shares_item other (record { name = name.now; number = number }) || has_item self.old other)) }
        ensures next { self.new.next ≡ self.old.next }
    {
        let is_named = self.names.meet(name)?;
        let is_numbered = self.numbers.meet(number)?;
        Ok(is_named || is_numbered)
    }
}

/// Faults of one member more.
fn with_item<'a>(
    first: Option<Fault>,
    met: &mut ItemSet<'a>,
    item: &'a EnumItem,
) -> Result<Option<Fault>, AllocError>
    ensures { IfOk result (λ f. ContinuesItems first met.old f met.new (item.entry.now ∷ [])) }
{
    let number = number_of(item, met.next);
    let is_met = met.meet(item.name.text.as_str(), number)?;
    met.next = number_after(number)?;
    Ok(with_member(first, item, number, is_met))
}

/// Faults of some members more.
fn with_items<'a>(
    first: Option<Fault>,
    met: &mut ItemSet<'a>,
    items: &'a [EnumItem],
) -> Result<Option<Fault>, AllocError>
    ensures { IfOk result (λ f. ContinuesItems first met.old f met.new items.entry.now) }
{
    let mut found = first;
    for item in items {
        found = with_item(found, met, item)?;
    }
    Ok(found)
}

/// The members that an extension of an enum adds.
fn items_added<'a>(declaration: &'a Declaration) -> &'a [EnumItem]
    ensures { result.now ≡ items_in (declaration_tree declaration.now) }
{
    match declaration {
        Declaration::EnumExtension(extension) => extension.items.as_slice(),
        Declaration::Physical(_)
        | Declaration::Unit(_)
        | Declaration::Enum(_)
        | Declaration::Compound(_)
        | Declaration::MemberExtension(_) => &[],
    }
}

/// Faults of the members that extensions add.
fn with_extensions<'a>(
    first: Option<Fault>,
    met: &mut ItemSet<'a>,
    extensions: &[PlacedDecl<'a>],
) -> Result<Option<Fault>, AllocError>
    ensures { IfOk result (λ f. ContinuesItems first met.old f met.new (flat_map items_in (trees extensions.now))) }
{
    let mut found = first;
    for extension in extensions {
        found = with_items(found, met, items_added(extension.declaration))?;
    }
    Ok(found)
}

/// Faults of the members of an enum: its own, and then those of its extensions.
pub fn with_enum<'a>(
    alloc: Global,
    first: Option<Fault>,
    own: &'a [EnumItem],
    extensions: &[PlacedDecl<'a>],
) -> Result<Option<Fault>, AllocError>
    ensures { IfOk result (λ f. f ≡ first_from first (rows_of_items (own.entry.now ++ flat_map items_in (trees extensions.now)))) }
{
    let mut met = ItemSet::new(alloc);
    let first = with_items(first, &mut met, own)?;
    with_extensions(first, &mut met, extensions)
}
