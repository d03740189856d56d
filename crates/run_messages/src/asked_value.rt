//! Numbers that a source writes out.

use mistake_cases::{first_part, is_number, unit_of};

/// Two ends, in thousandths.
#[derive(Debug, Clone, Copy, PartialEq, Eq)]
pub struct Ends {
    pub low: i64,
    pub high: i64,
}

/// The range or the number that a text begins with, in thousandths of the base unit. `None` if it is neither, or if a unit
/// isn't one of the library's.
pub fn ends_in(text: &str) -> Option<Ends> {
    let Some(inner) = text.strip_prefix('[') else {
        let (number, _) = thousandths_in(text)?;
        return Some(Ends {
            low: number,
            high: number,
        });
    };
    let (low, rest) = thousandths_in(inner.trim_start())?;
    let rest = rest.trim_start().strip_prefix("..")?;
    let (high, rest) = thousandths_in(rest.trim_start())?;
    if rest.trim_start().starts_with(']') {
        Some(Ends { low, high })
    } else {
        None
    }
}

/// The number that a text begins with, in thousandths of the base unit, and the text behind it.
fn thousandths_in(text: &str) -> Option<(i64, &str)> {
    let (is_negative, digits) = match text.strip_prefix('-') {
        Some(digits) => (true, digits.trim_start()),
        None => (false, text),
    };
    let part = first_part(digits);
    let rest = digits.strip_prefix(part)?;
    if is_operator(rest.trim_start()) || !is_number(part) {
        return None;
    }
    let value = value_of(part)?;
    Some((
        if is_negative {
            value.checked_neg()?
        } else {
            value
        },
        rest,
    ))
}

fn is_operator(text: &str) -> bool {
    text.starts_with(['+', '-', '*', '/', '(', '['])
}

/// A literal in thousandths of its base unit, the nearest one, and a half upward.
fn value_of(part: &str) -> Option<i64> {
    let unit = unit_of(part);
    let (factor, divisor): (i64, i64) = match unit {
        "" | "m" | "s" | "mps" | "mpsps" => (1, 1),
        "km" => (1000, 1),
        "min" => (60, 1),
        "ms" => (1, 1000),
        "kph" => (277_777_778, 1_000_000_000),
        _ => return None,
    };
    let number = part.strip_suffix(unit)?;
    let (digits, scale) = decimal_of(number)?;
    let above = digits.checked_mul(factor)?.checked_mul(2000)?;
    let below = scale.checked_mul(divisor)?;
    let double = below.checked_mul(2)?;
    above.checked_add(below)?.checked_div(double)
}

/// The digits of a decimal, read as one number, and the power of ten that divides them.
fn decimal_of(number: &str) -> Option<(i64, i64)> {
    let Some((whole, part)) = number.split_once('.') else {
        return Some((number.parse().ok()?, 1));
    };
    if part.len() > 6 {
        return None;
    }
    let mut scale: i64 = 1;
    for _digit in part.bytes() {
        scale = scale.checked_mul(10)?;
    }
    let whole: i64 = whole.parse().ok()?;
    let part: i64 = part.parse().ok()?;
    Some((whole.checked_mul(scale)?.checked_add(part)?, scale))
}
