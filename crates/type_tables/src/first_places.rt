//! The first place of each name in a list.

ghost use Rattle.std.specs.Prelude.{◌≡◌, ℕ, ◌<◌, ◌^◌, ◌&&◌, List, None, Some, bytes_eq, cond, drop, find, is_some, length, not, option_copied, take, true, IfOk, OnOk};
ghost use Rattle.std.specs.Option.{option_or};
ghost use Rattle.type_members.specs.name_scope.Declaring.{first_place};
ghost use Rattle.type_tables.specs.Places.{AreDistinct, HasPlaces, Places, high_place, low_place, place_in};

use indexmap::IndexMap;
use std::alloc::{AllocError, Global};

/// What has a name.
pub trait HasName {
    ghost name_of: { Self → List ℕ };

    /// The name.
    fn own_name(&self) -> &str
        ensures { result.now ≡ name_of self.now };
}

/// A list of so few things is gone over. No places are kept for it, which saves memory for types with few fields.
const FEW: usize = 8;

/// A list of more things than a `u32` counts is gone over, too.
const MOST: usize = 4_294_967_295;

/// The first place of each name in a list of fewer than 2^32 things, if places are kept for the list. Else it is gone over.
/// If names are known to be distinct, the first place of a name is its only one.
#[derive(Drop)]
pub struct FirstPlaces {
    is_kept: bool,
    is_distinct: bool,
    places: IndexMap<String, u32>,
}

impl FirstPlaces {
    fn new(alloc: Global, is_kept: bool) -> FirstPlaces
        ensures kept { result.is_kept ≡ is_kept }
        ensures distinct { result.is_distinct ≡ is_kept }
        ensures none { (name : List ℕ) → place_in result name ≡ None }
    {
        FirstPlaces {
            is_kept,
            is_distinct: is_kept,
            places: IndexMap::new(alloc),
        }
    }

    fn get(&self, name: &str) -> Option<u32>
        ensures { result ≡ place_in self.now name.now }
    {
        self.places.get(name).copied()
    }

    /// Keeps the place for the name, if it has none yet. Else names aren't distinct.
    fn note(&mut self, alloc: Global, name: &str, place: u32) -> Result<(), AllocError>
        ensures distinct { OnOk result (self.new.is_distinct ≡ (self.old.is_distinct && not (is_some (place_in self.old name.now)))) }
        ensures places { OnOk result ((other : List ℕ) → place_in self.new other ≡ option_or (place_in self.old other) (cond (bytes_eq name.now other) (Some place) None)) }
    {
        if self.places.contains_key(name) {
            self.is_distinct = false;
            return Ok(());
        }
        let key = String::from_str(alloc, name)?;
        self.places.insert(key, place)?;
        Ok(())
    }

    /// The first place of each name, if there are more than a few things, and no more than a `u32` counts.
    pub fn of<T: HasName>(alloc: Global, things: &[T]) -> Result<FirstPlaces, AllocError>
        ensures { IfOk result (λ t. Places t T.name_of things.now) }
    {
        if things.len() <= FEW || things.len() > MOST {
            return Ok(FirstPlaces::new(alloc, false));
        }
        let places = FirstPlaces::of_many(alloc, things)?;
        Ok(places)
    }

    /// The first place of each name, and whether names are distinct.
    fn of_many<T: HasName>(alloc: Global, things: &[T]) -> Result<FirstPlaces, AllocError>
        requires { length things.now < 2 ^ 32 }
        ensures places { IfOk result (λ t. HasPlaces t T.name_of things.now) }
        ensures distinct { IfOk result (λ t. t.is_distinct ≡ true → AreDistinct T.name_of things.now) }
    {
        let mut index = FirstPlaces::new(alloc, true);
        let mut place: u32 = 0;
        for thing in things {
            index.note(alloc, thing.own_name(), place)?;
            place += 1;
        }
        Ok(index)
    }
}

/// The first of the things of that name, by the places of their names.
pub fn found<'a, T: HasName>(places: &FirstPlaces, things: &'a [T], name: &str) -> Option<&'a T>
    requires { Places places.now T.name_of things.now }
    ensures { option_copied result ≡ find (λ x. bytes_eq (T.name_of x) name.now) things.now }
{
    if !places.is_kept {
        return first_named(things, name);
    }
    found_by_place(places, things, name)
}

/// The first of the things of that name from one place to another. If names are known to be distinct, it takes the same
/// time for any number of things. Else those from the one place to the other are gone over.
pub fn found_between<'a, T: HasName>(
    places: &FirstPlaces,
    things: &'a [T],
    from: usize,
    to: usize,
    name: &str,
) -> Option<&'a T>
    requires { Places places.now T.name_of things.now }
    ensures { option_copied result ≡ find (λ x. bytes_eq (T.name_of x) name.now) (drop from (take to things.now)) }
{
    if !places.is_distinct {
        return first_named(between(things, from, to), name);
    }
    match if_between(place_of(places, things, name), from, to) {
        Some(place) => things.get(place),
        None => None,
    }
}

/// A place, if it isn't before `from`, and is before `to`.
fn if_between(place: Option<usize>, from: usize, to: usize) -> Option<usize>
    ensures { result ≡ high_place from (low_place to place) }
{
    match if_low(place, to) {
        Some(place) if place < from => None,
        low => low,
    }
}

/// A place, if it is among the first `len`.
fn if_low(place: Option<usize>, len: usize) -> Option<usize>
    ensures { result ≡ low_place len place }
{
    match place {
        Some(place) if place < len => Some(place),
        _ => None,
    }
}

/// The first of some things, or all of them if there are fewer.
fn first_of<T>(things: &[T], len: usize) -> &[T]
    ensures { result.now ≡ take len things.now }
{
    if len < things.len() {
        &things[..len]
    } else {
        things
    }
}

/// Those of some things that stand at a place or after it.
fn after<T>(things: &[T], from: usize) -> &[T]
    ensures { result.now ≡ drop from things.now }
{
    if from < things.len() {
        &things[from..]
    } else {
        &things[..0]
    }
}

/// The things from one place to another, as far as they are there.
fn between<T>(things: &[T], from: usize, to: usize) -> &[T]
    ensures { result.now ≡ drop from (take to things.now) }
{
    after(first_of(things, to), from)
}

/// The first of the things of that name.
fn first_named<'a, T: HasName>(things: &'a [T], name: &str) -> Option<&'a T>
    ensures { option_copied result ≡ find (λ x. bytes_eq (T.name_of x) name.now) things.now }
{
    things.iter().find(|x| x.own_name() == name)
}

/// The first of the things of that name, whose places are kept.
fn found_by_place<'a, T: HasName>(
    places: &FirstPlaces,
    things: &'a [T],
    name: &str,
) -> Option<&'a T>
    requires { HasPlaces places.now T.name_of things.now }
    ensures { option_copied result ≡ find (λ x. bytes_eq (T.name_of x) name.now) things.now }
{
    match places.get(name) {
        Some(place) => things.get(place as usize),
        None => None,
    }
}

/// The place of the first of the things of that name, counted from 0.
pub fn place_of<T: HasName>(places: &FirstPlaces, things: &[T], name: &str) -> Option<usize>
    requires { Places places.now T.name_of things.now }
    ensures { result ≡ first_place (λ x. bytes_eq (T.name_of x) name.now) 0 things.now }
{
    if !places.is_kept {
        return place_among(things, name);
    }
    places.get(name).map(|place| place as usize)
}

/// The place of the first of the things of that name, which are gone over.
fn place_among<T: HasName>(things: &[T], name: &str) -> Option<usize>
    ensures { result ≡ first_place (λ x. bytes_eq (T.name_of x) name.now) 0 things.now }
{
    let mut place: usize = 0;
    for thing in things {
        if thing.own_name() == name {
            return Some(place);
        }
        place += 1;
    }
    None
}
