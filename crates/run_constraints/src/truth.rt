//! Whether expressions are true in a run.

ghost use Rattle.std.specs.Prelude.{◌≡◌, true};
ghost use Rattle.std.specs.Option.{option_map_or};
ghost use Rattle.osc_base.specs.Comparisons.{same_number};
ghost use Rattle.expr_nodes.specs.Seen.{seen, seen_part};
ghost use Rattle.scene_conditions.specs.composition.Invariants.{is_expression};
ghost use Rattle.scene_conditions.specs.composition.Numbers.{is_true as true_in};
ghost use Rattle.run_values.specs.SeenNumbers.{scene_in, run_in};
ghost use Rattle.run_constraints.specs.FirstConstraints.{is_sound_part};

use expr_nodes::Typed;
use osc_base::Fraction;
use run_values::{Numbers, value};

/// All that the expression reads is held, and its value is 1.
fn is_true(numbers: &Numbers<'_>, typed: &Typed) -> bool
    requires { is_expression (scene_in numbers.now) (seen typed.now) ≡ true }
    ensures { result ≡ true_in (scene_in numbers.now) (run_in numbers.now) (seen typed.now) }
{
    match value(typed, numbers) {
        Some(value) => is_one(&value),
        None => false,
    }
}

/// The value is 1.
fn is_one(value: &Fraction) -> bool
    ensures { result ≡ same_number value.now.num value.now.den }
{
    value.num == value.den
}

/// The expression is true, if there is one.
pub(crate) fn is_satisfied(numbers: &Numbers<'_>, typed: &Option<Typed>) -> bool
    requires { is_sound_part (scene_in numbers.now) (seen_part typed.now) ≡ true }
    ensures { result ≡ option_map_or (true_in (scene_in numbers.now) (run_in numbers.now)) (seen_part typed.now) true }
{
    match typed {
        Some(typed) => is_true(numbers, typed),
        None => true,
    }
}
