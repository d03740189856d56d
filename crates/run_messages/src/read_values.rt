//! What a run has of the fields that a constraint of the named scenario reads.

use crate::decimals::put_decimal;
use crate::run_parts::value_of;
use crate::setting::Asked;
use message_parts::load_kept;
use mistake_cases::{View, first_part, is_name};
use mistake_helps::{Declared, declared_names, type_of_member};
use outside_io::MemoryShelf;
use serde_json::Value;
use std::alloc::{AllocError, Global};

/// How many fields are told.
const TOLD: usize = 6;

/// Puts the values that a run has of the scenario's own fields that stand in the rest of a line.
pub fn put_values(
    alloc: Global,
    text: &mut String,
    view: &View<'_>,
    run: &Value,
    asked: &Asked<'_>,
    kept: &mut MemoryShelf,
) -> Result<(), AllocError> {
    let Some(program) = load_kept(alloc, asked.source.file, kept)? else {
        return Ok(());
    };
    let names = declared_names(alloc, &program)?;
    let mut told: Vec<&str> = Vec::new(alloc);
    for part in view.rest().split(|c: char| !is_part(c)) {
        let field = first_part(part);
        if !is_name(field) || told.as_slice().contains(&field) || told.len() >= TOLD {
            continue;
        }
        told.push(field)?;
        put_value(text, run, names.as_slice(), asked.source.scenario, field)?;
    }
    Ok(())
}

fn is_part(c: char) -> bool {
    c.is_ascii_alphanumeric() || c == '_' || c == '.'
}

/// Puts the value of a field, if it is a number, a truth value or a physical quantity of the library.
fn put_value(
    text: &mut String,
    run: &Value,
    names: &[Declared<'_>],
    scenario: &str,
    field: &str,
) -> Result<(), AllocError> {
    let (Some(of), Some(number)) = (type_of_member(names, scenario, field), value_of(run, field))
    else {
        return Ok(());
    };
    let Some((places, unit)) = measure_of(of) else {
        return Ok(());
    };
    text.push_str(if text.is_empty() {
        "the run has "
    } else {
        ", "
    })?;
    write!(text, "`{field}` = ")?;
    if of == "bool" {
        return text.push_str(if number == 0 { "false" } else { "true" });
    }
    put_decimal(text, number, places)?;
    text.push_str(unit)
}

/// How many decimals a value of a type has in a run, and its unit.
fn measure_of(of: &str) -> Option<(u32, &'static str)> {
    match of {
        "int" | "uint" | "bool" => Some((0, "")),
        "float" => Some((3, "")),
        "length" => Some((3, " m")),
        "time" => Some((3, " s")),
        "speed" => Some((3, " m/s")),
        "acceleration" => Some((3, " m/s2")),
        _ => None,
    }
}
