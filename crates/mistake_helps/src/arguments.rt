//! What is said of an argument that isn't taken: which one it is, and what is taken in its place.

use mistake_cases::{Help, View, first_word, is_name, last_word, nearest_of};
use osc_base::FaultCode;
use std::alloc::{AllocError, Global};

/// A modifier, and the names of its arguments.
#[derive(Debug, Clone, Copy)]
struct Modifier {
    name: &'static str,
    /// The names of arguments that stand without a value.
    alone: &'static [&'static str],
    /// The names of arguments that stand behind a value.
    beside: &'static [&'static str],
    /// All names.
    all: &'static [&'static str],
    /// A value.
    value: &'static str,
}

const MODIFIERS: [Modifier; 3] = [
    Modifier {
        name: "speed",
        alone: &["same_as"],
        beside: &["faster_than", "slower_than"],
        all: &["faster_than", "slower_than", "same_as", "at"],
        value: "[1mps..5mps]",
    },
    Modifier {
        name: "lane",
        alone: &["same_as", "left_of", "right_of"],
        beside: &[],
        all: &["same_as", "left_of", "right_of", "at"],
        value: "1",
    },
    Modifier {
        name: "position",
        alone: &[],
        beside: &["ahead_of", "behind"],
        all: &["ahead_of", "behind", "at"],
        value: "[5m..20m]",
    },
];

/// Names of arguments in ASAM's domain library, and what serves in their place.
const FOREIGN: [(&[&str], &str); 8] = [
    (
        &["distance"],
        "The distance is the first argument, and has no name: `position([5m..20m], behind: c)`.\n",
    ),
    (
        &["speed"],
        "The speed is the first argument, and has no name: `speed(20mps)`.\n",
    ),
    (
        &["lane"],
        "The lane is the first argument, and has no name: `lane(1)`.\n",
    ),
    (
        &["position"],
        "The position is the first argument, and has no name: `position(100m)`.\n",
    ),
    (
        &["side_of", "side"],
        "The side is in the argument's name: `lane(left_of: c)` or `lane(right_of: c)`.\n",
    ),
    (
        &["time", "time_headway", "headway"],
        "This profile has no headway in seconds. Write a distance: `position([20m..40m], behind: c)`.\n",
    ),
    (
        &[
            "start_to_start",
            "start_to_end",
            "end_to_start",
            "end_to_end",
        ],
        "This profile has no offsets in a `parallel`. Give the later member a `serial` that begins with a wait:\n`wait elapsed(2s)`.\n",
    ),
    (
        &[
            "movement",
            "measure_by",
            "track",
            "rate_profile",
            "shape",
            "num_of_lanes",
        ],
        "This profile has no such argument: leave it out.\n",
    ),
];

/// An argument as it is written.
#[derive(Debug, Clone, Copy)]
pub struct Argument<'a> {
    /// Where it begins, behind the place of the fault.
    pub shift: usize,
    /// Its name, empty if it has none.
    pub name: &'a str,
    /// What it is, without white space around it.
    pub value: &'a str,
    /// Where that begins, behind the place of the fault.
    pub value_shift: usize,
}

/// What is said of an argument that isn't taken. `None` if the cause isn't known.
pub fn argument_help(alloc: Global, view: &View<'_>) -> Result<Option<Help>, AllocError> {
    if view.code != FaultCode::BadArgument {
        return Ok(None);
    }
    match modifier_named(view.word()) {
        Some(modifier) if view.behind().starts_with('(') => modifier_help(alloc, view, modifier),
        _ => phase_help(alloc, view),
    }
}

fn modifier_named(name: &str) -> Option<Modifier> {
    for modifier in &MODIFIERS {
        if modifier.name == name {
            return Some(*modifier);
        }
    }
    None
}

/// What is said of the arguments of a modifier.
fn modifier_help(
    alloc: Global,
    view: &View<'_>,
    modifier: Modifier,
) -> Result<Option<Help>, AllocError> {
    let arguments = arguments_in(alloc, view.onward)?;
    let arguments = arguments.as_slice();
    for argument in arguments {
        if !argument.name.is_empty() && !modifier.all.contains(&argument.name) {
            return Ok(Some(named_help(alloc, argument, modifier)?));
        }
    }
    for argument in arguments {
        if argument.name == "at" && !["start", "end", "all"].contains(&argument.value) {
            return Ok(Some(at_help(alloc, argument)?));
        }
    }
    count_help(alloc, arguments, modifier)
}

/// What is said of a name that the modifier's arguments don't have.
fn named_help(
    alloc: Global,
    argument: &Argument<'_>,
    modifier: Modifier,
) -> Result<Help, AllocError> {
    let (name, of) = (argument.name, modifier.name);
    let mut text = String::new(alloc);
    match nearest_of(alloc, name, modifier.all)? {
        Some(near) => write!(text, "A name near `{name}` is `{near}`.\n")?,
        None => text.push_str(foreign_argument(name))?,
    }
    write!(text, "Behind its value `{of}` takes ")?;
    put_names(&mut text, modifier.beside)?;
    put_alone(&mut text, modifier)?;
    Ok(Help {
        text,
        shift: argument.shift,
    })
}

fn foreign_argument(name: &str) -> &'static str {
    for (names, text) in &FOREIGN {
        if names.contains(&name) {
            return text;
        }
    }
    ""
}

/// Puts names with a colon each, and `at:`.
fn put_names(text: &mut String, names: &[&str]) -> Result<(), AllocError> {
    for name in names {
        write!(text, "`{name}:`, ")?;
    }
    text.push_str("`at:`.\n")
}

/// Puts which arguments stand without a value.
fn put_alone(text: &mut String, modifier: Modifier) -> Result<(), AllocError> {
    if modifier.alone.is_empty() {
        return Ok(());
    }
    text.push_str("In place of a value it takes")?;
    let mut mark = " ";
    for name in modifier.alone {
        write!(text, "{mark}`{name}:`")?;
        mark = ", ";
    }
    text.push_str(".\n")
}

fn at_help(alloc: Global, argument: &Argument<'_>) -> Result<Help, AllocError> {
    let mut text = String::new(alloc);
    let near = match argument.value {
        "begin" | "beginning" | "first" => Some("start"),
        "finish" | "last" => Some("end"),
        "always" | "middle" => Some("all"),
        value => nearest_of(alloc, value, &["start", "end", "all"])?,
    };
    if let Some(near) = near {
        write!(text, "Write `at: {near}`.\n")?;
    }
    text.push_str("`at:` takes `start`, `end` or `all`.\n")?;
    Ok(Help {
        text,
        shift: argument.value_shift,
    })
}

/// What is said of arguments of which there are too few or too many. `None` if the cause isn't known.
fn count_help(
    alloc: Global,
    arguments: &[Argument<'_>],
    modifier: Modifier,
) -> Result<Option<Help>, AllocError> {
    let of = modifier.name;
    let values = arguments.iter().filter(|it| it.name.is_empty()).count();
    let alone = arguments
        .iter()
        .filter(|it| modifier.alone.contains(&it.name))
        .count();
    let beside = first_of(arguments, modifier.beside);
    let (text, shift) = match (values, alone) {
        (0, 0) => (missing_value(alloc, modifier, beside)?, 0),
        (1, 0) => return Ok(None),
        (0, 1) => match beside {
            Some(argument) => (alone_text(alloc, of)?, argument.shift),
            None => return Ok(None),
        },
        (0, _) | (1, _) => (
            alone_text(alloc, of)?,
            shift_of(first_of(arguments, modifier.alone)),
        ),
        _ => (
            format!(in alloc; "`{of}` takes one value: a second one has a name.\n")?,
            second_value(arguments),
        ),
    };
    Ok(Some(Help { text, shift }))
}

fn alone_text(alloc: Global, of: &str) -> Result<String, AllocError> {
    format!(in alloc;
        "`{of}` takes either a value, or one vehicle to go by. Write two lines for both.\n"
    )
}

fn shift_of(argument: Option<&Argument<'_>>) -> usize {
    match argument {
        Some(argument) => argument.shift,
        None => 0,
    }
}

/// Where the second argument without a name begins.
fn second_value(arguments: &[Argument<'_>]) -> usize {
    shift_of(arguments.iter().filter(|it| it.name.is_empty()).nth(1))
}

/// The first argument that has one of these names.
fn first_of<'s, 'a>(arguments: &'s [Argument<'a>], names: &[&str]) -> Option<&'s Argument<'a>> {
    arguments.iter().find(|it| names.contains(&it.name))
}

/// The text for a modifier without a value, before an argument that wants one.
fn missing_value(
    alloc: Global,
    modifier: Modifier,
    beside: Option<&Argument<'_>>,
) -> Result<String, AllocError> {
    let (of, value) = (modifier.name, modifier.value);
    match beside {
        Some(argument) => {
            let (name, other) = (argument.name, argument.value);
            format!(in alloc;
                "A value is missing before `{name}:`, which says how much: `{of}({value}, {name}: {other})`.\n"
            )
        }
        None => format!(in alloc; "A value is missing: `{of}({value})`.\n"),
    }
}

/// What is said of an argument of an invocation or a composition. `None` if the cause isn't known.
fn phase_help(alloc: Global, view: &View<'_>) -> Result<Option<Help>, AllocError> {
    let Some((head, _)) = view.before.rsplit_once('(') else {
        return Ok(None);
    };
    let of = last_word(head);
    let name = argument_name(view.onward);
    match of {
        "parallel" | "serial" | "one_of" => composition_help(alloc, view, of, name),
        "drive" if name.is_empty() => {
            let number = view.number();
            let text = format!(in alloc;
                "`drive` takes nothing but a duration, which has a name: `duration: {number}`.\n"
            )?;
            Ok(Some(Help::of(text)))
        }
        _ => Ok(None),
    }
}

/// What is said of an argument of a composition.
fn composition_help(
    alloc: Global,
    view: &View<'_>,
    of: &str,
    name: &str,
) -> Result<Option<Help>, AllocError> {
    let mut text = String::new(alloc);
    if name.is_empty() {
        let number = view.number();
        write!(text, "Arguments have names here: `duration: {number}`.\n")?;
    } else if name == "overlap" && of == "parallel" {
        text.push_str("`overlap:` takes `start`, `end`, `equal` or `any`.\n")?;
    } else {
        match nearest_of(alloc, name, &["duration", "overlap"])? {
            Some(near) => write!(text, "A name near `{name}` is `{near}`.\n")?,
            None => text.push_str(foreign_argument(name))?,
        }
    }
    put_taken(&mut text, of)?;
    Ok(Some(Help::of(text)))
}

fn put_taken(text: &mut String, of: &str) -> Result<(), AllocError> {
    if of == "parallel" {
        text.push_str("A `parallel` takes `duration:` and `overlap:`.\n")
    } else {
        write!(text, "A `{of}` takes `duration:` alone.\n")
    }
}

/// The name with which an argument begins. Empty if it has none.
fn argument_name(text: &str) -> &str {
    let name = first_word(text);
    let behind = text.get(name.len()..).unwrap_or("");
    if is_name(name) && behind.trim_start().starts_with(':') {
        name
    } else {
        ""
    }
}

/// The arguments in the first brackets of a text. There are none if the brackets aren't closed.
pub fn arguments_in<'a>(alloc: Global, text: &'a str) -> Result<Vec<Argument<'a>>, AllocError> {
    let mut arguments = Vec::new(alloc);
    let mut depth: usize = 0;
    let mut start: usize = 0;
    for (at, c) in text.char_indices() {
        match c {
            '(' | '[' => {
                depth = depth.saturating_add(1);
                if depth == 1 {
                    start = at.saturating_add(1);
                }
            }
            ',' if depth == 1 => {
                put_argument(&mut arguments, text, start, at)?;
                start = at.saturating_add(1);
            }
            ')' if depth <= 1 => {
                put_argument(&mut arguments, text, start, at)?;
                return Ok(arguments);
            }
            ')' | ']' => depth = depth.saturating_sub(1),
            _ => {}
        }
    }
    arguments.clear();
    Ok(arguments)
}

fn put_argument<'a>(
    arguments: &mut Vec<Argument<'a>>,
    text: &'a str,
    start: usize,
    end: usize,
) -> Result<(), AllocError> {
    let written = text.get(start..end).unwrap_or("");
    let inner = written.trim_start();
    if inner.is_empty() {
        return Ok(());
    }
    let shift = start.saturating_add(written.len().saturating_sub(inner.len()));
    let name = argument_name(inner);
    let value = match inner.split_once(':') {
        Some((_, value)) if !name.is_empty() => value.trim_start(),
        _ => inner,
    };
    arguments.push(Argument {
        shift,
        name,
        value: value.trim_end(),
        value_shift: end.saturating_sub(value.len()),
    })?;
    Ok(())
}
