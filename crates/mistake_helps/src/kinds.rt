//! What is said of units that don't fit: what stands there, and what is asked for.
//!
//! Only operands are told that are a literal or a path, since their kind is known without a reading of the expression.

use crate::program_names::{
    Declared, has_units, type_of_field, type_of_member, type_of_unit, units_of,
};
use dsl_tree::QName;
use mistake_cases::{Help, View, digits_of, first_part, is_number, last_part, last_word, unit_of};
use osc_base::FaultCode;
use std::alloc::{AllocError, Global};

/// How many units are told.
const UNITS: usize = 4;

/// What an operand is.
#[derive(Debug, Clone, Copy, PartialEq, Eq)]
enum Kind<'a> {
    /// A number without a unit.
    Plain,
    /// A number with a unit of this physical type.
    Of(&'a str),
}

/// An operand and its kind.
#[derive(Debug, Clone, Copy)]
struct Operand<'a> {
    text: &'a str,
    kind: Kind<'a>,
}

/// Where names are looked up: all that the program declares, and the type around the place.
#[derive(Clone, Copy)]
struct Scope<'s, 'a> {
    names: &'s [Declared<'a>],
    around: Option<&'a QName>,
}

/// What is said of units that don't fit. `None` if one of the two kinds isn't known.
pub fn kind_help<'a>(
    alloc: Global,
    view: &View<'a>,
    names: &[Declared<'a>],
    around: Option<&'a QName>,
) -> Result<Option<Help>, AllocError> {
    if view.code != FaultCode::UnitClash {
        return Ok(None);
    }
    let scope = Scope { names, around };
    match sign_at(view) {
        Some(sign) => sides_help(alloc, view, sign, scope),
        None => place_help(alloc, view, scope),
    }
}

/// The operator at the place, if an operand stands before it.
fn sign_at(view: &View<'_>) -> Option<&'static str> {
    if last_part(view.before).is_empty() {
        return None;
    }
    for sign in ["==", "!=", "<=", ">=", "<", ">", "+", "-"] {
        if view.onward.starts_with(sign) {
            return Some(sign);
        }
    }
    if view.word() == "in" {
        Some("in")
    } else {
        None
    }
}

/// What is said of the two sides of an operator.
fn sides_help<'a>(
    alloc: Global,
    view: &View<'a>,
    sign: &str,
    scope: Scope<'_, 'a>,
) -> Result<Option<Help>, AllocError> {
    let behind = view.onward.get(sign.len()..).unwrap_or("");
    let (Some(left), Some(right)) = (
        left_operand(view.before, scope),
        right_operand(behind, scope),
    ) else {
        return Ok(None);
    };
    if left.kind == right.kind {
        return Ok(None);
    }
    let mut text = String::new(alloc);
    put_operand(&mut text, left)?;
    text.push_str(", and ")?;
    put_operand(&mut text, right)?;
    text.push_str(".\n")?;
    put_cure(alloc, &mut text, left, right, scope)?;
    Ok(Some(Help::of(text)))
}

/// Puts what would make two operands fit.
fn put_cure(
    alloc: Global,
    text: &mut String,
    left: Operand<'_>,
    right: Operand<'_>,
    scope: Scope<'_, '_>,
) -> Result<(), AllocError> {
    match (left.kind, right.kind) {
        (Kind::Of(of), Kind::Plain) => put_unit(alloc, text, right.text, of, scope),
        (Kind::Plain, Kind::Of(of)) => put_unit(alloc, text, left.text, of, scope),
        _ => text.push_str(
            "Both sides of a sum or a comparison are of one kind. A product changes the kind: a speed times a\ntime is a length.\n",
        ),
    }
}

/// What is said of a part that stands where another kind is asked for.
fn place_help<'a>(
    alloc: Global,
    view: &View<'a>,
    scope: Scope<'_, 'a>,
) -> Result<Option<Help>, AllocError> {
    let Some(asked) = asked_at(view, scope) else {
        return Ok(None);
    };
    let Some(there) = inner_operand(view.onward, scope) else {
        return Ok(None);
    };
    if there.kind == asked.kind {
        return Ok(None);
    }
    let mut text = String::new(alloc);
    put_operand(&mut text, there)?;
    let asker = asked.text;
    write!(text, ", and `{asker}` takes ")?;
    put_kind(&mut text, asked.kind)?;
    text.push_str(".\n")?;
    match asked.kind {
        Kind::Of(of) => put_unit(alloc, &mut text, there.text, of, scope)?,
        Kind::Plain => put_plain(&mut text, there.text)?,
    }
    Ok(Some(Help::of(text)))
}

/// What asks for a kind at the place, and for which one.
fn asked_at<'a>(view: &View<'a>, scope: Scope<'_, 'a>) -> Option<Operand<'a>> {
    let before = view.before.trim_end();
    if let Some(head) = before.strip_suffix('(') {
        return asked_by_call(last_word(head), scope);
    }
    if let Some(head) = before.strip_suffix(':') {
        return if last_word(head) == "duration" {
            known("duration:", "time", scope)
        } else {
            None
        };
    }
    let of = last_word(before.strip_suffix('=')?);
    let kind = kind_of_type(of, scope)?;
    Some(Operand { text: of, kind })
}

/// What the first argument of a modifier, or of `elapsed`, is to be.
fn asked_by_call<'a>(name: &str, scope: Scope<'_, 'a>) -> Option<Operand<'a>> {
    match name {
        "speed" => known("speed(..)", "speed", scope),
        "position" => known("position(..)", "length", scope),
        "elapsed" => known("elapsed(..)", "time", scope),
        "lane" => Some(Operand {
            text: "lane(..)",
            kind: Kind::Plain,
        }),
        _ => None,
    }
}

/// An asker for a type of the library, if the program has the library.
fn known<'a>(text: &'static str, of: &'static str, scope: Scope<'_, 'a>) -> Option<Operand<'a>> {
    if has_units(scope.names, of) {
        Some(Operand {
            text,
            kind: Kind::Of(of),
        })
    } else {
        None
    }
}

/// The operand before an operator, if it is a literal or a path and no factor.
fn left_operand<'a>(before: &'a str, scope: Scope<'_, 'a>) -> Option<Operand<'a>> {
    let text = last_part(before);
    let head = before.trim_end().strip_suffix(text)?.trim_end();
    if head.ends_with(['*', '/', ')', ']', '.']) {
        return None;
    }
    known_operand(text, scope)
}

/// The operand behind an operator, if it is a literal or a path and no factor, or the first end of a range.
fn right_operand<'a>(behind: &'a str, scope: Scope<'_, 'a>) -> Option<Operand<'a>> {
    let text = behind.trim_start();
    if text.starts_with('[') {
        return inner_operand(text, scope);
    }
    let part = first_part(text.strip_prefix('-').unwrap_or(text).trim_start());
    let (_, later) = text.split_once(part)?;
    if later.trim_start().starts_with(['*', '/', '(', '[', '.']) {
        return None;
    }
    known_operand(part, scope)
}

/// The operand with which a part begins, or the first end of a range.
fn inner_operand<'a>(text: &'a str, scope: Scope<'_, 'a>) -> Option<Operand<'a>> {
    let inner = text.strip_prefix('[').unwrap_or(text).trim_start();
    let part = first_part(inner.strip_prefix('-').unwrap_or(inner).trim_start());
    let (_, later) = inner.split_once(part)?;
    if later
        .trim_start()
        .starts_with([')', ',', ']', '.', '\n', '\r', '#'])
        || later.trim().is_empty()
    {
        known_operand(part, scope)
    } else {
        None
    }
}

fn known_operand<'a>(text: &'a str, scope: Scope<'_, 'a>) -> Option<Operand<'a>> {
    let kind = if is_number(text) {
        kind_of_number(text, scope)?
    } else {
        kind_of_path(text, scope)?
    };
    Some(Operand { text, kind })
}

fn kind_of_number<'a>(text: &str, scope: Scope<'_, 'a>) -> Option<Kind<'a>> {
    match unit_of(text) {
        "" => Some(Kind::Plain),
        unit => type_of_unit(scope.names, unit).map(Kind::Of),
    }
}

/// The kind of a field that a path leads to from the type around the place.
fn kind_of_path<'a>(path: &str, scope: Scope<'_, 'a>) -> Option<Kind<'a>> {
    let mut parts = path.split('.');
    let first = parts.next()?;
    if first == "duration" {
        return None;
    }
    let mut of = type_of_field(scope.names, scope.around?, first);
    let mut is_label = of.is_none();
    for part in parts {
        if is_label && part == "duration" && has_units(scope.names, "time") {
            return Some(Kind::Of("time"));
        }
        of = type_of_member(scope.names, of?, part);
        is_label = false;
    }
    kind_of_type(of?, scope)
}

fn kind_of_type<'a>(of: &'a str, scope: Scope<'_, 'a>) -> Option<Kind<'a>> {
    match of {
        "int" | "uint" | "float" => Some(Kind::Plain),
        _ if has_units(scope.names, of) => Some(Kind::Of(of)),
        _ => None,
    }
}

fn put_operand(text: &mut String, operand: Operand<'_>) -> Result<(), AllocError> {
    let written = operand.text;
    write!(text, "`{written}` is ")?;
    put_kind(text, operand.kind)
}

fn put_kind(text: &mut String, kind: Kind<'_>) -> Result<(), AllocError> {
    match kind {
        Kind::Plain => text.push_str("a number without a unit"),
        Kind::Of(of) if of.starts_with(['a', 'e', 'i', 'o', 'u']) => write!(text, "an {of}"),
        Kind::Of(of) => write!(text, "a {of}"),
    }
}

/// Puts how a number is written as one of this type: with a unit of it.
fn put_unit(
    alloc: Global,
    text: &mut String,
    written: &str,
    of: &str,
    scope: Scope<'_, '_>,
) -> Result<(), AllocError> {
    let digits = written_digits(written);
    text.push_str(if digits.is_empty() {
        "The units of "
    } else {
        "Write a unit of "
    })?;
    write!(text, "{of}: ")?;
    let units = units_of(alloc, scope.names, of)?;
    put_units(text, digits, first_of(units.as_slice()))?;
    text.push_str(".\n")
}

/// The first units of many.
fn first_of<'s, 'a>(units: &'s [&'a str]) -> &'s [&'a str] {
    units.get(..UNITS).unwrap_or(units)
}

/// Puts digits with each of some units.
fn put_units(text: &mut String, digits: &str, units: &[&str]) -> Result<(), AllocError> {
    let mut mark = "";
    for unit in units {
        write!(text, "{mark}`{digits}{unit}`")?;
        mark = ", ";
    }
    Ok(())
}

fn put_plain(text: &mut String, written: &str) -> Result<(), AllocError> {
    match written_digits(written) {
        "" => text.push_str("Write a number without a unit.\n"),
        digits => write!(text, "Write `{digits}`.\n"),
    }
}

/// The digits of a number, empty for a path.
fn written_digits(written: &str) -> &str {
    if is_number(written) {
        digits_of(written)
    } else {
        ""
    }
}
