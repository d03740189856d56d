//! Whole numbers by steps.
ghost use Rattle.std.specs.Prelude.{◌≡◌, ◌+◌, ◌≤◌, ◌<◌, ◌^◌, ◌≤ℤ◌, ◌<ℤ◌, ◌+ℤ◌, ◌-ℤ◌, pos, max, unsigned_abs};
ghost use Rattle.search_plans.specs.Steps.{multiple, steps_in, steps_to, excess, greatest_to, least_from, middle, eighth};

/// So many steps.
#[tactic(auto, unfolding(crate::specs::Steps::multiple))]
pub(crate) fn multiple(step: u32, count: i128) -> i128
    requires { unsigned_abs count ≤ 2 ^ 66 }
    ensures is { result ≡ multiple step count }
    ensures small { unsigned_abs result ≤ 2 ^ 98 }
{
    count * i128::from(step.max(1))
}

/// How many steps there are in a number, rounded down.
#[tactic(auto, unfolding(crate::specs::Steps::steps_in))]
pub(crate) fn steps_in(step: u32, number: i128) -> i128
    requires { unsigned_abs number ≤ 2 ^ 64 }
    ensures is { result ≡ steps_in step number }
    ensures small { unsigned_abs result ≤ 2 ^ 64 }
{
    number.div_euclid(i128::from(step.max(1)))
}

/// The same, rounded up.
pub(crate) fn steps_to(step: u32, number: i64) -> i128
    ensures is { result ≡ steps_to step number }
    ensures small { unsigned_abs result ≤ 2 ^ 65 }
{
    after(steps_in(step, before(i128::from(number))))
}

/// The number before another.
pub(crate) fn before(number: i128) -> i128
    requires { unsigned_abs number ≤ 2 ^ 98 }
    ensures is { result ≡ number -ℤ pos 1 }
    ensures small { unsigned_abs result ≤ unsigned_abs number + 1 }
{
    number - 1
}

/// The number after another.
pub(crate) fn after(number: i128) -> i128
    requires { unsigned_abs number ≤ 2 ^ 98 }
    ensures is { result ≡ number +ℤ pos 1 }
    ensures small { unsigned_abs result ≤ unsigned_abs number + 1 }
{
    number + 1
}

/// How far a number is above the greatest one up to it that differs from a base by a multiple of the step.
#[tactic(auto, unfolding(crate::specs::Steps::excess))]
fn excess(step: u32, number: i128, base: i128) -> i128
    requires number { unsigned_abs number ≤ 2 ^ 100 }
    requires base { unsigned_abs base ≤ 2 ^ 100 }
    ensures is { result ≡ excess step number base }
    ensures low { pos 0 ≤ℤ result }
    ensures high { result <ℤ pos (2 ^ 32) }
{
    (number - base).rem_euclid(i128::from(step.max(1)))
}

/// The greatest number up to another that differs from a base by a multiple of the step.
pub(crate) fn greatest_to(step: u32, base: i64, number: i128) -> i128
    requires { unsigned_abs number ≤ 2 ^ 100 }
    ensures is { result ≡ greatest_to step base number }
    ensures small { unsigned_abs result ≤ unsigned_abs number + 2 ^ 32 }
{
    number - excess(step, number, i128::from(base))
}

/// The least such number from another on.
pub(crate) fn least_from(step: u32, base: i64, number: i128) -> i128
    requires { unsigned_abs number ≤ 2 ^ 100 }
    ensures is { result ≡ least_from step base number }
    ensures small { unsigned_abs result ≤ unsigned_abs number + 2 ^ 32 }
{
    number + excess(step, i128::from(base), number)
}

/// The number in the middle of two others, rounded down.
#[tactic(auto, unfolding(crate::specs::Steps::middle))]
pub(crate) fn middle(low: i128, high: i128) -> i128
    requires low { unsigned_abs low ≤ 2 ^ 65 }
    requires high { unsigned_abs high ≤ 2 ^ 65 }
    requires ordered { low <ℤ high }
    ensures is { result ≡ middle low high }
    ensures above { low ≤ℤ result }
    ensures below { result <ℤ high }
{
    low + (high - low).div_euclid(2)
}

/// An eighth of the way from one number to another, rounded down.
#[tactic(auto, unfolding(crate::specs::Steps::eighth))]
fn eighth(low: i128, high: i128) -> i128
    requires low { unsigned_abs low ≤ 2 ^ 65 }
    requires high { unsigned_abs high ≤ 2 ^ 65 }
    requires ordered { low ≤ℤ high }
    ensures is { result ≡ eighth low high }
    ensures small { unsigned_abs result ≤ 2 ^ 66 }
{
    (high - low).div_euclid(8)
}

/// An eighth of the way up.
pub(crate) fn eighth_up(first: i128, last: i128) -> i128
    requires first { unsigned_abs first ≤ 2 ^ 65 }
    requires last { unsigned_abs last ≤ 2 ^ 65 }
    requires ordered { first ≤ℤ last }
    ensures is { result ≡ first +ℤ eighth first last }
    ensures small { unsigned_abs result ≤ 2 ^ 67 }
{
    first + eighth(first, last)
}

/// An eighth of the way down.
pub(crate) fn eighth_down(first: i128, last: i128) -> i128
    requires first { unsigned_abs first ≤ 2 ^ 65 }
    requires last { unsigned_abs last ≤ 2 ^ 65 }
    requires ordered { first ≤ℤ last }
    ensures is { result ≡ last -ℤ eighth first last }
    ensures small { unsigned_abs result ≤ 2 ^ 67 }
{
    last - eighth(first, last)
}
