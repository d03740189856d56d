ghost use Rattle.std.specs.Prelude.{◌≡◌, ◌≤◌, ◌<◌, ◌^◌, length, true, IfSome, pos, ◌-ℤ◌};
ghost use Rattle.std.specs.List.{list_all};
ghost use Rattle.std.specs.Str.Parse.{digits_value};
ghost use Rattle.record_text.specs.Scan.{is_digit, is_short, has_no_leading_zero, is_numeral, natural_at, below_zero, integer_at};

use crate::begins::begins;

/// The most digits that a number has.
const MOST_DIGITS: usize = 18;

/// The number of these digits: 1 to 18 of them, without leading zeros.
pub(crate) fn natural(text: &[u8]) -> Option<u64>
    ensures value { result ≡ natural_at text.now }
    ensures fits { IfSome result (λ number. number < 10 ^ 18) }
{
    if is_numeral(text) {
        Some(value(text))
    } else {
        None
    }
}

/// The number of these digits, or of a minus and the digits of a number above 0.
pub(crate) fn integer(text: &[u8]) -> Option<i64>
    ensures { result ≡ integer_at text.now }
{
    if begins(text, b"-") {
        match natural(&text[1..]) {
            Some(magnitude) => below_zero(magnitude),
            None => None,
        }
    } else {
        match natural(text) {
            Some(number) => Some(positive(number)),
            None => None,
        }
    }
}

/// The number below 0 of this magnitude.
fn below_zero(magnitude: u64) -> Option<i64>
    requires { magnitude < 10 ^ 18 }
    ensures { result ≡ below_zero magnitude }
{
    if magnitude == 0 {
        None
    } else {
        Some(negative(magnitude))
    }
}

fn positive(number: u64) -> i64
    requires { number < 10 ^ 18 }
    ensures { result ≡ pos number }
{
    number as i64
}

fn negative(magnitude: u64) -> i64
    requires { magnitude < 10 ^ 18 }
    ensures { result ≡ pos 0 -ℤ pos magnitude }
{
    -positive(magnitude)
}

/// Digits as a number is written with: 1 to 18 of them, without leading zeros.
fn is_numeral(text: &[u8]) -> bool
    ensures { result ≡ is_numeral text.now }
{
    are_digits(text) && is_short(text) && has_no_leading_zero(text)
}

fn are_digits(text: &[u8]) -> bool
    ensures { result ≡ list_all is_digit text.now }
{
    text.iter().all(|byte| byte.is_ascii_digit())
}

fn is_short(text: &[u8]) -> bool
    ensures { result ≡ is_short text.now }
{
    1 <= text.len() && text.len() <= MOST_DIGITS
}

fn has_no_leading_zero(text: &[u8]) -> bool
    ensures { result ≡ has_no_leading_zero text.now }
{
    !begins(text, b"0") || text.len() == 1
}

/// The number that digits stand for.
fn value(digits: &[u8]) -> u64
    requires digits { list_all is_digit digits.now ≡ true }
    requires few { length digits.now ≤ 18 }
    ensures value { result ≡ digits_value 10 digits.now }
    ensures fits { result < 10 ^ 18 }
{
    let mut number = 0;
    for digit in digits {
        number = number * 10 + u64::from(digit - b'0');
    }
    number
}
