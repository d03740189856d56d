//! Numbers as people read them.

use std::alloc::AllocError;

/// Puts a number of `places` decimals, without zeros at its end.
pub fn put_decimal(text: &mut String, number: i64, places: u32) -> Result<(), AllocError> {
    if number < 0 {
        text.push_str("-")?;
    }
    let scale = 10u64.saturating_pow(places).max(1);
    let (whole, part) = (number.unsigned_abs() / scale, number.unsigned_abs() % scale);
    write!(text, "{whole}")?;
    put_fraction(text, part, scale)
}

/// Puts a point and the digits of `part / scale`, if that isn't 0.
fn put_fraction(text: &mut String, part: u64, scale: u64) -> Result<(), AllocError> {
    if part == 0 {
        return Ok(());
    }
    text.push_str(".")?;
    let (mut left, mut unit) = (part, scale / 10);
    for _digit in 0..18 {
        if left == 0 || unit == 0 {
            return Ok(());
        }
        let digit = left / unit;
        write!(text, "{digit}")?;
        left %= unit;
        unit /= 10;
    }
    Ok(())
}

/// Puts so many ticks of `length` milliseconds as seconds.
pub fn put_seconds(text: &mut String, ticks: i64, length: i64) -> Result<(), AllocError> {
    put_decimal(text, ticks.saturating_mul(length), 3)?;
    text.push_str(" s")
}

/// Puts a tick as seconds, where ticks are `length` milliseconds long: as `1.2 s (tick 12)`.
pub fn put_tick(text: &mut String, tick: u64, length: i64) -> Result<(), AllocError> {
    put_seconds(text, i64::try_from(tick).unwrap_or(i64::MAX), length)?;
    write!(text, " (tick {tick})")
}
