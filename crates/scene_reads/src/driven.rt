//! Whether a scene has the vehicles of a modifier.

ghost use Rattle.std.specs.Prelude.{◌≡◌, ◌&&◌, is_some, map, option_to_list, IfOk};
ghost use Rattle.std.specs.List.{list_all};
ghost use Rattle.osc_base.specs.declared.path.Path.{Path};
ghost use Rattle.composition.specs.Expanded.{is_driven as driven};
ghost use Rattle.composition.specs.SeenScenes.{seen_scene};
ghost use Rattle.composition.specs.path_index.Places.{place_at};
ghost use Rattle.scene_reads.specs.Vehicles.{vehicle_path};

use composition::{HasPath, ModifierSpot, PathIndex, Scene};
use osc_base::Path;
use std::alloc::{AllocError, Global};

/// A vehicle of a scene.
#[derive(Drop)]
struct Vehicle<'a> {
    path: &'a Path,
}

impl HasPath for Vehicle<'_> {
    ghost path_of = { λ v. v.path.now };

    fn path(&self) -> &Path {
        self.path
    }
}

/// A scene, and the places of its vehicles.
#[derive(Drop)]
pub(crate) struct Driven<'a> {
    pub(crate) scene: &'a Scene,
    places: PathIndex,
    ghost has_all: { (path : Path) → is_some (place_at places path) ≡ driven (seen_scene scene.now) path },
}

/// The vehicles at some paths.
fn vehicles_at(alloc: Global, paths: &[Path]) -> Result<Vec<Vehicle<'_>>, AllocError>
    ensures { IfOk result (λ vs. map vehicle_path vs.items ≡ paths.now) }
{
    let mut vehicles = Vec::new(alloc);
    for path in paths {
        vehicles.push(Vehicle { path })?;
    }
    Ok(vehicles)
}

/// The places of the vehicles of a scene.
fn vehicle_places(alloc: Global, scene: &Scene) -> Result<PathIndex, AllocError>
    ensures { IfOk result (λ places. (path : Path) → is_some (place_at places path) ≡ driven (seen_scene scene.now) path) }
{
    let vehicles = vehicles_at(alloc, scene.vehicles())?;
    let places = PathIndex::of(alloc, vehicles.as_slice())?;
    Ok(places)
}

impl<'a> Driven<'a> {
    /// A scene with the places of its vehicles.
    pub(crate) fn of(alloc: Global, scene: &'a Scene) -> Result<Driven<'a>, AllocError>
        ensures { IfOk result (λ d. d.scene.now ≡ scene.entry.now) }
    {
        let places = vehicle_places(alloc, scene)?;
        Ok(Driven { scene, places })
    }

    /// Whether a path leads to a vehicle of the scene.
    fn has(&self, path: &Path) -> bool
        ensures { result ≡ driven (seen_scene self.now.scene.now) path.now }
    {
        self.places.get(path).is_some()
    }

    /// Whether the other vehicle of a modifier, if it has one, is a vehicle of the scene.
    fn has_other(&self, other: &Option<Path>) -> bool
        ensures { result ≡ list_all (driven (seen_scene self.now.scene.now)) (option_to_list other.now) }
    {
        match other {
            Some(other) => self.has(other),
            None => true,
        }
    }

    /// Whether the scene has the vehicles of a modifier.
    pub(crate) fn has_vehicles(&self, modifier: &ModifierSpot) -> bool
        ensures { result ≡ (driven (seen_scene self.now.scene.now) modifier.now.own && list_all (driven (seen_scene self.now.scene.now)) (option_to_list modifier.now.other)) }
    {
        self.has(&modifier.own) && self.has_other(&modifier.other)
    }
}
