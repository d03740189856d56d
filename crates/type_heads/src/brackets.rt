//! The exponents of the base units in brackets.

ghost use Rattle.std.specs.Prelude.{◌≡◌, ◌&&◌, not, pos, List, [], bytes_eq, find, min, option_copied};
ghost use Rattle.std.specs.List.{list_any};
ghost use Rattle.name_scope.specs.dsl_tree.declared.units.BasePart.{BasePart as Part};
ghost use Rattle.type_heads.specs.Units.{are_bases, exponent_of, exponents_of, greatest_exponent, is_base_unit, signed};
ghost use Rattle.type_heads.specs.Exponents.{exponents_in};

use name_scope::dsl_tree::{BasePart, Signed};
use units_si::Exponents;

/// Whether it is one of the eight base units.
fn is_base(name: &str) -> bool
    ensures { result ≡ is_base_unit name.now }
{
    matches!(name, "kg" | "m" | "s" | "A" | "K" | "mol" | "cd" | "rad")
}

/// The greatest exponent in brackets: the grammar has no greater one.
const GREATEST_EXPONENT: u64 = 9;

/// An exponent with its sign.
fn small(exponent: Signed) -> i8
    ensures { result ≡ signed exponent.minus (pos (min exponent.number.digits greatest_exponent)) }
{
    let size = exponent.number.digits.min(GREATEST_EXPONENT) as i8;
    if exponent.minus { -size } else { size }
}

/// The first part of that name.
fn part_of<'a>(bases: &'a [BasePart], name: &str) -> Option<&'a BasePart>
    ensures { option_copied result ≡ find (λ (p : Part). bytes_eq p.name.text name.now) bases.now }
{
    bases.iter().find(|p| p.name.text.as_str() == name)
}

/// The exponent of a base unit, 0 if it isn't mentioned.
fn exponent(bases: &[BasePart], name: &str) -> i8
    ensures { result ≡ exponent_of bases.now name.now }
{
    match part_of(bases, name) {
        Some(part) => small(part.exponent),
        None => 0,
    }
}

/// Whether one of the parts has that name.
fn is_mentioned(bases: &[BasePart], name: &str) -> bool
    ensures { result ≡ list_any (λ (p : Part). bytes_eq name.now p.name.text) bases.now }
{
    bases.iter().any(|p| name == p.name.text.as_str())
}

/// Whether it is one of the eight base units, and isn't mentioned before.
fn is_fresh_base(before: &[BasePart], name: &str) -> bool
    ensures { result ≡ is_base_unit name.now && not (list_any (λ (p : Part). bytes_eq name.now p.name.text) before.now) }
{
    is_base(name) && !is_mentioned(before, name)
}

/// Whether each part is one of the eight base units, and none is mentioned twice.
fn have_no_fault(bases: &[BasePart]) -> bool
    ensures { result ≡ are_bases [] bases.now }
{
    let mut index = 0;
    for part in bases {
        if !is_fresh_base(&bases[..index], part.name.text.as_str()) {
            return false;
        }
        index += 1;
    }
    true
}

fn all_exponents(bases: &[BasePart]) -> Exponents
    ensures { result ≡ exponents_in bases.now }
{
    Exponents {
        kg: exponent(bases, "kg"),
        m: exponent(bases, "m"),
        s: exponent(bases, "s"),
        a: exponent(bases, "A"),
        k: exponent(bases, "K"),
        mol: exponent(bases, "mol"),
        cd: exponent(bases, "cd"),
        rad: exponent(bases, "rad"),
    }
}

/// The exponents of all eight base units. There are none if the brackets have a fault.
pub fn exponents(bases: &[BasePart]) -> Option<Exponents>
    ensures { result ≡ exponents_of bases.now }
{
    if have_no_fault(bases) {
        Some(all_exponents(bases))
    } else {
        None
    }
}
