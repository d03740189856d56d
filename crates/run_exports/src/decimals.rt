//! Decimals of whole numbers of thousandths and millionths.

ghost use Rattle.std.specs.Prelude.{◌≡◌, ◌++◌, OnOk};
ghost use Rattle.std.specs.Fmt.{sign_text};
ghost use Rattle.std.specs.String.{string_bytes};
ghost use Rattle.run_exports.specs.Decimals.{fixed, signed_fixed};

use std::alloc::AllocError;

/// Adds a number of thousandths, with three places.
#[tactic(auto, unfolding(crate::specs::Decimals::fixed))]
pub fn push_thousandths(text: &mut String, number: u128) -> Result<(), AllocError>
    ensures { OnOk result (string_bytes text.new ≡ string_bytes text.old ++ fixed 3 number) }
{
    let (whole, part) = (number / 1_000, number % 1_000);
    write!(text, "{whole}.{part:03}")
}

/// Adds a number of millionths, with six places.
#[tactic(auto, unfolding(crate::specs::Decimals::fixed))]
pub fn push_millionths(text: &mut String, number: u128) -> Result<(), AllocError>
    ensures { OnOk result (string_bytes text.new ≡ string_bytes text.old ++ fixed 6 number) }
{
    let (whole, part) = (number / 1_000_000, number % 1_000_000);
    write!(text, "{whole}.{part:06}")
}

/// Adds `-` if a number is negative.
pub fn push_sign(text: &mut String, negative: bool) -> Result<(), AllocError>
    ensures { OnOk result (string_bytes text.new ≡ string_bytes text.old ++ sign_text negative) }
{
    if negative { text.push_str("-") } else { Ok(()) }
}

/// Adds a signed number of thousandths, with three places.
#[tactic(auto, unfolding(crate::specs::Decimals::signed_fixed))]
pub fn push_signed_thousandths(text: &mut String, number: i64) -> Result<(), AllocError>
    ensures { OnOk result (string_bytes text.new ≡ string_bytes text.old ++ signed_fixed 3 number) }
{
    push_sign(text, number.is_negative())?;
    push_thousandths(text, u128::from(number.unsigned_abs()))
}

/// Adds a signed number of millionths, with six places.
#[tactic(auto, unfolding(crate::specs::Decimals::signed_fixed))]
pub fn push_signed_millionths(text: &mut String, number: i64) -> Result<(), AllocError>
    ensures { OnOk result (string_bytes text.new ≡ string_bytes text.old ++ signed_fixed 6 number) }
{
    push_sign(text, number.is_negative())?;
    push_millionths(text, u128::from(number.unsigned_abs()))
}
