//! The names of the rules of a scene.

ghost use Rattle.std.specs.Prelude.{◌≡◌, ◌<◌, ◌≤◌, ◌^◌, ◌++◌, ◌+◌, ℕ, flat_map, map, IfOk, OnOk};
ghost use Rattle.std.specs.List.{range_with_len};
ghost use Rattle.scene_rules.specs.composition.Items.{item_name, occurrence_item, occurrence_items, typed_item, rule_names as names_of};
ghost use Rattle.scene_rules.specs.composition.Scenes.{Scene as SeenScene};
ghost use Rattle.scene_rules.specs.composition.SeenParts.{seen_occurrence, seen_modifier};
ghost use Rattle.scene_rules.specs.composition.SeenScenes.{seen_scene};
ghost use Rattle.scene_rules.specs.composition.declared.spot.ValueSpot.{ValueSpot};
ghost use Rattle.scene_rules.specs.composition.declared.spot.PhaseSpot.{PhaseSpot};
ghost use Rattle.osc_base.specs.declared.listing.RuleName.{RuleName};

use crate::enums::gapped;
use osc_base::{Path, Row, RuleName, Strength};
use scene_rules::{ModifierSpot, Occurrence, PhaseSpot};
use slot_ends::{Scene, ValueSpot};
use std::alloc::{AllocError, Global};

/// Puts the name of a constraint's rule at the end: none for a `remove_default`.
fn push_constraint(constraint: &Occurrence, names: &mut Row<RuleName>) -> Result<(), AllocError>
    ensures { OnOk result ((scene : SeenScene) (number : ℕ) → names.new ≡ names.old ++ map item_name (occurrence_item scene number constraint.now.mark.strength (seen_occurrence constraint.now))) }
{
    let place = constraint.place;
    match constraint.mark.strength {
        Strength::Hard => names.push(RuleName::Hard { place }),
        Strength::Default => names.push(RuleName::Default { place }),
        Strength::Remove => Ok(()),
    }
}

/// Puts the names of the rules of these constraints at the end.
fn push_constraints(constraints: &[Occurrence], names: &mut Row<RuleName>) -> Result<(), AllocError>
    ensures { OnOk result ((scene : SeenScene) → names.new ≡ names.old ++ map item_name (occurrence_items scene 0 (map seen_occurrence constraints.now))) }
{
    'constraints: for constraint in constraints {
        push_constraint(constraint, names)?;
    }
    Ok(())
}

/// Puts the name of a value's rule at the end, if it is of an enum with numbers left out.
fn push_enum(alloc: Global, value: &ValueSpot, names: &mut Row<RuleName>) -> Result<(), AllocError>
    ensures { OnOk result (names.new ≡ names.old ++ map item_name (typed_item value.now.path value.now.range)) }
{
    match gapped(&value.range) {
        Some(_) => {
            let path = value.path.copy(alloc)?;
            names.push(RuleName::Typed { path })
        }
        None => Ok(()),
    }
}

/// Puts the names of the rules of enums with numbers left out at the end.
fn push_enums(
    alloc: Global,
    values: &[ValueSpot],
    names: &mut Row<RuleName>,
) -> Result<(), AllocError>
    ensures { OnOk result (names.new ≡ names.old ++ flat_map (λ (v : ValueSpot). map item_name (typed_item v.path v.range)) values.now) }
{
    'values: for value in values {
        push_enum(alloc, value, names)?;
    }
    Ok(())
}

/// Puts the names of the rules of phases at the end.
fn push_phases(
    alloc: Global,
    phases: &[PhaseSpot],
    names: &mut Row<RuleName>,
) -> Result<(), AllocError>
    ensures { OnOk result (names.new ≡ names.old ++ map (λ (p : PhaseSpot). RuleName.Arranged p.path) phases.now) }
{
    'phases: for phase in phases {
        let path = phase.path.copy(alloc)?;
        names.push(RuleName::Arranged { path })?;
    }
    Ok(())
}

/// Puts the names of the rules of a modifier at the end, tick by tick.
fn push_modifier(
    modifier: &ModifierSpot,
    count: u32,
    names: &mut Row<RuleName>,
) -> Result<(), AllocError>
    ensures { OnOk result (names.new ≡ names.old ++ map (RuleName.Modifier modifier.now.place) (range_with_len 0 count)) }
{
    'ticks: for tick in 0..count {
        let place = modifier.place;
        names.push(RuleName::Modifier { place, tick })?;
    }
    Ok(())
}

/// Puts the names of the rules of modifiers at the end.
fn push_modifiers(
    modifiers: &[ModifierSpot],
    count: u32,
    names: &mut Row<RuleName>,
) -> Result<(), AllocError>
    ensures { OnOk result (names.new ≡ names.old ++ flat_map (λ m. map (RuleName.Modifier m.place) (range_with_len 0 count)) (map seen_modifier modifiers.now)) }
{
    'modifiers: for modifier in modifiers {
        push_modifier(modifier, count, names)?;
    }
    Ok(())
}

/// Puts the names of the rules of a vehicle's motion at the end, tick by tick.
fn push_motion(
    alloc: Global,
    vehicle: &Path,
    count: u32,
    names: &mut Row<RuleName>,
) -> Result<(), AllocError>
    ensures { OnOk result (names.new ≡ names.old ++ map (RuleName.Motion vehicle.now) (range_with_len 0 count)) }
{
    'ticks: for tick in 0..count {
        let path = vehicle.copy(alloc)?;
        names.push(RuleName::Motion { path, tick })?;
    }
    Ok(())
}

/// Puts the names of the rules of the motion of vehicles at the end.
fn push_motions(
    alloc: Global,
    vehicles: &[Path],
    count: u32,
    names: &mut Row<RuleName>,
) -> Result<(), AllocError>
    ensures { OnOk result (names.new ≡ names.old ++ flat_map (λ v. map (RuleName.Motion v) (range_with_len 0 count)) vehicles.now) }
{
    'vehicles: for vehicle in vehicles {
        push_motion(alloc, vehicle, count, names)?;
    }
    Ok(())
}

/// The names of the rules of a scene, in the order of the rules.
pub fn rule_names(alloc: Global, scene: &Scene) -> Result<Row<RuleName>, AllocError>
    requires { (seen_scene scene.now).setting.ticks ≤ 600 }
    ensures { IfOk result (λ ns. ns ≡ names_of (seen_scene scene.now)) }
{
    let count = scene.setting().ticks + 1;
    let mut names = Row::new(alloc);
    push_constraints(scene.occurrences(), &mut names)?;
    push_enums(alloc, scene.values(), &mut names)?;
    push_phases(alloc, scene.phases(), &mut names)?;
    push_modifiers(scene.modifiers(), count, &mut names)?;
    push_motions(alloc, scene.vehicles(), count, &mut names)?;
    Ok(names)
}
