//! Cases of the codes from 301 on.

use crate::form::{Case, Test, cases};
use osc_base::FaultCode;

/// What the library declares.
const LIBRARY: &[&str] = &["length", "time", "speed", "acceleration", "vehicle"];

pub const MEANING: &[Case] = cases![
    (
        MissingImport,
        [Test::Begins("\"osc.standard")],
        "The library is imported without quotes: `import osc.standard`.",
    ),
    (
        MissingImport,
        [Test::Begins("'osc.standard")],
        "The library is imported without quotes: `import osc.standard`.",
    ),
    (
        MissingImport,
        [Test::Name],
        "Without quotes only the library is imported: `import osc.standard`. The name of a file stands in",
        "quotes: `import \"parts.osc\"`.",
    ),
    (
        Unknown,
        [Test::Word(&["True", "TRUE", "False", "FALSE"])],
        "It is written `{lower}` here.",
    ),
    (
        Unknown,
        [Test::Word(&["None", "null", "NULL", "nil"])],
        "Each field has a value, so there is none such as `{word}`.",
    ),
    (
        Unknown,
        [Test::Word(&["s"]), Test::After("m/")],
        "Metres a second are `mps`, as in `20mps`."
    ),
    (
        Unknown,
        [Test::Word(&["h"]), Test::After("km/")],
        "Kilometres an hour are `kph`, as in `72kph`."
    ),
    (
        Unknown,
        [
            Test::Word(&["speed", "lane", "position"]),
            Test::Behind("("),
            Test::After(".")
        ],
        "`{word}` is a modifier, and stands in the `with:` of a `drive`: write `{owner}.drive() with:`, and",
        "`{rest}` in the line below it, indented more.",
    ),
    (
        Unknown,
        [
            Test::Word(&["speed", "lane", "position"]),
            Test::Behind("(")
        ],
        "`{word}` is a modifier, and stands in the `with:` of a `drive`.",
    ),
    (
        Unknown,
        [
            Test::Word(&["speed", "lane", "position", "acceleration"]),
            Test::After(".")
        ],
        "The {word} of a vehicle changes in a run, so no constraint reads it. The modifiers `speed(..)`,",
        "`lane(..)` and `position(..)` in the `with:` of a `drive` say what holds, and when.",
    ),
    (
        Unknown,
        [Test::Word(LIBRARY), Test::After(":")],
        "The library declares `{word}`: write `import osc.standard` at the top of the file.",
    ),
    (
        Unknown,
        [
            Test::Word(LIBRARY),
            Test::AfterWord(&["of", "extend", "inherits"])
        ],
        "The library declares `{word}`: write `import osc.standard` at the top of the file.",
    ),
    (
        WrongKind,
        [Test::Word(&["do"])],
        "A `do` stands in a `scenario` alone, and not in a conditional subtype. Declare `scenario vehicle.go:` in",
        "place of an action: it is invoked in the same way.",
    ),
    (
        WrongKind,
        [Test::Has("list of ")],
        "A list holds numbers, truth values, texts or members of an enum. For several vehicles declare a field",
        "for each: `a, b, c: vehicle`.",
    ),
    (
        Clash,
        [Test::Begins("+"), Test::After("\"")],
        "Texts aren't joined in this profile: write the whole text as one string.",
    ),
    (
        TwoDo,
        [],
        "A scenario has one `do`. Join the two under `do serial:` or `do parallel:`, with a line for each.",
    ),
];
