//! The tests that rows of faults ask of parts, and the first of two faults.

ghost use Rattle.std.specs.Prelude.{◌≡◌, ◌&&◌, ◌||◌, not};
ghost use Rattle.expr_nodes.specs.osc_base.FaultRows.{first_of, row, row_fault, is_before as precedes};
ghost use Rattle.expr_nodes.specs.Kinds.{is_truth, is_number, same_units};
ghost use Rattle.expr_nodes.specs.Typed.{kind};
ghost use Rattle.expr_nodes.specs.Sizes.{size, joined, is_wide};
ghost use Rattle.expr_nodes.specs.Parts.{of_one, of_two, is_whole as whole, both_numbers};
ghost use Rattle.expr_nodes.specs.Seen.{seen, seen_part};

use expr_nodes::{Boxed, Fault, FaultCode, Place, Typed};

fn is_before(f: &Fault, g: &Fault) -> bool
    ensures { result ≡ precedes f.now g.now }
{
    let (f_place, g_place) = (f.place, g.place);
    f_place.file < g_place.file
        || (f_place.file == g_place.file
            && (f_place.token < g_place.token
                || (f_place.token == g_place.token && f.code.number() < g.code.number())))
}

/// The first of two faults that may be there.
pub fn least(first: Option<Fault>, second: Option<Fault>) -> Option<Fault>
    ensures { result ≡ first_of first second }
{
    match (first, second) {
        (None, second) => second,
        (Some(fault), None) => Some(fault),
        (Some(fault), Some(other)) => {
            if is_before(&other, &fault) {
                Some(other)
            } else {
                Some(fault)
            }
        }
    }
}

/// The fault, if it is there.
pub fn fault_if(place: Place, code: FaultCode, holds: bool) -> Option<Fault>
    ensures { result ≡ row_fault (row place code holds) }
{
    if holds {
        Some(Fault { place, code })
    } else {
        None
    }
}

/// Something else than one value stands where one is asked for.
pub fn is_whole(part: &Option<Boxed<Typed>>) -> bool
    ensures { result ≡ whole (seen_part part.now) }
{
    match part {
        Some(typed) => !typed.get().is_scalar(),
        None => false,
    }
}

/// One of the parts is whole, or something else is wrong with them.
pub fn are_whole(left: &Option<Boxed<Typed>>, right: &Option<Boxed<Typed>>, other: bool) -> bool
    ensures { result ≡ (whole (seen_part left.now) || (whole (seen_part right.now) || other)) }
{
    is_whole(left) || (is_whole(right) || other)
}

/// The part is no truth value.
pub fn is_no_truth(part: &Option<Boxed<Typed>>) -> bool
    ensures { result ≡ of_one (seen_part part.now) (λ x. not (is_truth (kind x))) }
{
    match part {
        Some(typed) => !typed.get().info().kind.is_truth(),
        None => false,
    }
}

/// The part is no number.
pub fn is_no_number(part: &Option<Boxed<Typed>>) -> bool
    ensures { result ≡ of_one (seen_part part.now) (λ x. not (is_number (kind x))) }
{
    match part {
        Some(typed) => !typed.get().info().kind.is_number(),
        None => false,
    }
}

/// One of the parts is no truth value.
pub fn are_no_truths(left: &Option<Boxed<Typed>>, right: &Option<Boxed<Typed>>) -> bool
    ensures { result ≡ of_two (seen_part left.now) (seen_part right.now) (λ x y. not (is_truth (kind x) && is_truth (kind y))) }
{
    match (left, right) {
        (Some(x), Some(y)) => !(x.get().info().kind.is_truth() && y.get().info().kind.is_truth()),
        (Some(_), None) | (None, _) => false,
    }
}

/// Both are numbers.
pub fn are_numbers(left: &Typed, right: &Typed) -> bool
    ensures { result ≡ both_numbers (seen left.now) (seen right.now) }
{
    left.info().kind.is_number() && right.info().kind.is_number()
}

/// Both are numbers, and their units differ in more than a factor.
pub fn differ_in_units(left: &Typed, right: &Typed) -> bool
    ensures { result ≡ (both_numbers (seen left.now) (seen right.now) && not (same_units (kind (seen left.now)) (kind (seen right.now)))) }
{
    are_numbers(left, right) && !left.info().kind.has_units_of(&right.info().kind)
}

/// Their sum or relation is too wide.
pub fn is_joined_wide(left: &Typed, right: &Typed) -> bool
    ensures { result ≡ is_wide (joined (size (seen left.now)) (size (seen right.now))) }
{
    left.info().size.joined(&right.info().size).is_none()
}

/// One of the parts is no number.
pub fn are_no_numbers(left: &Option<Boxed<Typed>>, right: &Option<Boxed<Typed>>) -> bool
    ensures { result ≡ of_two (seen_part left.now) (seen_part right.now) (λ x y. not (both_numbers x y)) }
{
    match (left, right) {
        (Some(x), Some(y)) => !are_numbers(x.get(), y.get()),
        (Some(_), None) | (None, _) => false,
    }
}

/// The parts are numbers of different units.
pub fn have_other_units(left: &Option<Boxed<Typed>>, right: &Option<Boxed<Typed>>) -> bool
    ensures { result ≡ of_two (seen_part left.now) (seen_part right.now) (λ x y. both_numbers x y && not (same_units (kind x) (kind y))) }
{
    match (left, right) {
        (Some(x), Some(y)) => differ_in_units(x.get(), y.get()),
        (Some(_), None) | (None, _) => false,
    }
}

/// The sum or relation of the parts is too wide.
pub fn are_joined_wide(left: &Option<Boxed<Typed>>, right: &Option<Boxed<Typed>>) -> bool
    ensures { result ≡ of_two (seen_part left.now) (seen_part right.now) (λ x y. is_wide (joined (size x) (size y))) }
{
    match (left, right) {
        (Some(x), Some(y)) => is_joined_wide(x.get(), y.get()),
        (Some(_), None) | (None, _) => false,
    }
}
