//! What is said of a name that isn't declared.

use mistake_cases::{Help, View, is_number, nearest_of, unit_of};
use mistake_helps::{Declared, all_units, nearest_name, scenarios};
use name_scope::Program;
use std::alloc::{AllocError, Global};

/// How many names are told.
const TOLD: usize = 12;

/// What is said of a name that isn't declared: a name near it. Of a unit all units. `None` if there is nothing to say.
pub fn unknown_help(
    alloc: Global,
    view: &View<'_>,
    names: &[Declared<'_>],
) -> Result<Option<Help>, AllocError> {
    if is_number(view.word()) {
        return unit_help(alloc, unit_of(view.number()), names);
    }
    let word = view.word();
    match nearest_name(alloc, names, word)? {
        Some(name) => {
            let text = format!(in alloc; "A name near `{word}` is `{name}`.\n")?;
            Ok(Some(Help::of(text)))
        }
        None if view.behind().starts_with('.') => {
            let text = format!(in alloc;
                "No field `{word}` is declared here: declare it, as in `{word}: vehicle`.\n"
            )?;
            Ok(Some(Help::of(text)))
        }
        None => Ok(None),
    }
}

fn unit_help(
    alloc: Global,
    unit: &str,
    names: &[Declared<'_>],
) -> Result<Option<Help>, AllocError> {
    let units = all_units(alloc, names)?;
    if units.is_empty() {
        return Ok(None);
    }
    let mut text = String::new(alloc);
    if let Some(near) = nearest_of(alloc, unit, units.as_slice())? {
        write!(text, "A unit near `{unit}` is `{near}`. ")?;
    }
    text.push_str("The units are")?;
    put_units(&mut text, units.get(..TOLD).unwrap_or(units.as_slice()))?;
    text.push_str(
        ".\nOthers are declared by `unit`, as in `unit cm of length is SI(m: 1, factor: 0.01)`.\n",
    )?;
    Ok(Some(Help::of(text)))
}

fn put_units(text: &mut String, units: &[&str]) -> Result<(), AllocError> {
    let mut mark = " ";
    for unit in units {
        write!(text, "{mark}`{unit}`")?;
        mark = ", ";
    }
    Ok(())
}

/// What is said of a scenario that isn't declared: which scenarios are.
pub fn scenario_help(
    alloc: Global,
    program: &Program,
    asked: &str,
) -> Result<Option<Help>, AllocError> {
    let names = scenarios(alloc, program)?;
    let mut text = String::new(alloc);
    put_near(alloc, &mut text, asked, names.as_slice())?;
    if names.is_empty() {
        write!(
            text,
            "The files declare no scenario. Declare one: `scenario {asked}:`.\n"
        )?;
    } else {
        put_list(&mut text, names.as_slice())?;
    }
    Ok(Some(Help::of(text)))
}

fn put_near(
    alloc: Global,
    text: &mut String,
    asked: &str,
    names: &[String],
) -> Result<(), AllocError> {
    let mut known = Vec::new(alloc);
    for name in names {
        known.push(name.as_str())?;
    }
    match nearest_of(alloc, asked, known.as_slice())? {
        Some(name) => write!(text, "A name near `{asked}` is `{name}`.\n"),
        None => Ok(()),
    }
}

fn put_list(text: &mut String, names: &[String]) -> Result<(), AllocError> {
    text.push_str("The scenarios are")?;
    put_names(text, names.get(..TOLD).unwrap_or(names))?;
    if names.len() > TOLD {
        text.push_str(" and others")?;
    }
    text.push_str(".\n")
}

/// Puts names, with commas between them.
fn put_names(text: &mut String, names: &[String]) -> Result<(), AllocError> {
    let mut mark = " ";
    for name in names {
        let name = name.as_str();
        write!(text, "{mark}`{name}`")?;
        mark = ", ";
    }
    Ok(())
}
