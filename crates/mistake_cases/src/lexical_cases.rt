//! Cases of the codes below 200.

use crate::form::{Case, Test, cases};
use osc_base::FaultCode;

pub const LEXICAL: &[Case] = cases![
    (
        Character,
        [Test::Begins("\u{feff}")],
        "The file begins with a byte order mark, as some editors of Windows write it.",
        "Save it as UTF-8 without a byte order mark.",
    ),
    (
        Character,
        [Test::Begins("&")],
        "`&&` is written `and` here: `keep(x > 3 and x < 5)`."
    ),
    (
        Character,
        [Test::Begins("||")],
        "`||` is written `or` here: `keep(x < 3 or x > 5)`."
    ),
    (
        Character,
        [Test::Begins("|")],
        "There are no names between bars in this profile: a name has letters, digits and `_`.",
    ),
    (
        Character,
        [Test::Begins(";")],
        "The end of a line ends a statement: remove the `;`.",
    ),
    (
        Character,
        [Test::Begins("@")],
        "`@` begins the name of an event, and this profile has no events. A `serial` says which phase",
        "follows which, `at: start` and `at: end` say when a modifier holds, and `wait elapsed(2s)` waits.",
    ),
    (
        Character,
        [Test::Begins("%")],
        "This profile has no `%`. For `x % 2 == 0` declare a field `half: int`, and write",
        "`keep(x == 2 * half)`.",
    ),
    (
        Character,
        [Test::Begins("?")],
        "This profile has no `a ? b : c`. Write a constraint for each case, as `keep(a => x == b)` and",
        "`keep(not a => x == c)`.",
    ),
    (
        Character,
        [Test::Begins("\u{201c}")],
        "A string stands in straight quotes: `\"abc\"`."
    ),
    (
        Character,
        [Test::Begins("\u{201d}")],
        "A string stands in straight quotes: `\"abc\"`."
    ),
    (
        Character,
        [Test::Begins("\u{201e}")],
        "A string stands in straight quotes: `\"abc\"`."
    ),
    (
        Character,
        [Test::Begins("\u{2018}")],
        "A string stands in straight quotes: `'abc'`."
    ),
    (
        Character,
        [Test::Begins("\u{2019}")],
        "A string stands in straight quotes: `'abc'`."
    ),
    (
        Character,
        [Test::Begins("`")],
        "A string stands in the quotes `\"` or `'`: `\"abc\"`."
    ),
    (
        Character,
        [Test::Begins("{")],
        "Blocks are made by indentation: end the line above with `:`, and indent the lines of the block.",
    ),
    (
        Character,
        [Test::Begins("}")],
        "Blocks are made by indentation, and no mark ends one: remove the `}`.",
    ),
    (
        Character,
        [Test::Begins("^")],
        "There are no powers: write `x * x`."
    ),
    (
        Character,
        [Test::Begins("\\")],
        "A backslash joins two lines: nothing may stand behind it in its line."
    ),
    (
        Character,
        [Test::Begins("\u{a0}")],
        "This is a no-break space, which looks like a space: type a space in its place."
    ),
    (
        Character,
        [Test::Begins("\u{200b}")],
        "This is a space without a width, which no editor shows: remove it."
    ),
    (
        Character,
        [Test::Begins("\u{2026}")],
        "A range has two points: `[1..5]`."
    ),
    (
        Character,
        [Test::Begins("\u{2013}")],
        "This is a dash. Type the minus sign `-`."
    ),
    (
        Character,
        [Test::Begins("\u{2212}")],
        "This is another minus sign than `-`: type `-`."
    ),
    (Character, [Test::Begins("\u{2264}")], "Write `<=`."),
    (Character, [Test::Begins("\u{2265}")], "Write `>=`."),
    (Character, [Test::Begins("\u{2260}")], "Write `!=`."),
    (Character, [Test::Begins("\u{d7}")], "Write `*`."),
    (
        Character,
        [Test::Begins("\u{b0}")],
        "Units are names, as `deg`. One that the library hasn't is declared by `unit`."
    ),
    (
        Character,
        [Test::NotAscii],
        "Names have the letters a to z and A to Z, digits and `_`. Other characters stand in strings and",
        "comments.",
    ),
    (
        Indent,
        [Test::Word(&["with"])],
        "A `serial`, `parallel` or `one_of` has no `with:` in this profile. Give it a label, and write the rule",
        "as a member of the scenario, as `keep(LABEL.duration == 3s)`.",
    ),
    (
        Text,
        [Test::After("\"\"")],
        "This profile has no doc strings. Write a comment: it goes from `#` to the end of the line.",
    ),
];
