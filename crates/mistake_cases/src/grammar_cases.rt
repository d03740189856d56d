//! Cases of tokens with which no file goes on.

use crate::form::{Case, Test, cases};
use osc_base::FaultCode;

/// The words with which phases begin.
const PHASES: &[&str] = &["serial", "parallel", "one_of"];
/// The modifiers that take a value.
const MODIFIERS: &[&str] = &["speed", "lane", "position"];
/// The words that begin a declaration with a block.
const HEADS: &[&str] = &["scenario", "struct", "actor", "action"];
/// Words of the language that are taken for names.
const TAKEN: &[&str] = &[
    "list", "is", "of", "in", "it", "range", "type", "unit", "enum", "struct", "action",
    "scenario", "import", "wait", "elapsed", "hard", "default", "inherits", "extend", "and", "or",
    "not", "true", "false",
];

pub const GRAMMAR: &[Case] = cases![
    (Syntax, [Test::Begins("//")], "A comment begins with `#`."),
    (
        Syntax,
        [Test::Begins("/"), Test::After("/")],
        "A comment begins with `#`."
    ),
    (
        Syntax,
        [Test::Begins("/*")],
        "A comment begins with `#`, and ends with its line."
    ),
    (
        Syntax,
        [Test::Begins("*"), Test::After("/")],
        "A comment begins with `#`, and ends with its line."
    ),
    (
        Syntax,
        [Test::Begins(">"), Test::After("<")],
        "`<>` is written `!=` here."
    ),
    (
        Syntax,
        [Test::Begins("m/s"), Test::AfterNumber],
        "Write `{last}mps`: `mps` is metres a second."
    ),
    (
        Syntax,
        [Test::Begins("km/h"), Test::AfterNumber],
        "Write `{last}kph`: `kph` is kilometres an hour."
    ),
    (
        Syntax,
        [Test::Name, Test::AfterNumber],
        "No space stands between a number and its unit: `{last}{word}`.",
    ),
    (
        Syntax,
        [Test::Name, Test::After("]")],
        "A unit stands at each end of a range, as in `[1{word}..5{word}]`.",
    ),
    (
        Syntax,
        [Test::Begins("."), Test::After("..")],
        "A range has two points: `[1..5]`."
    ),
    (
        Syntax,
        [Test::Begins("..")],
        "A range stands in square brackets: `[5m..20m]`."
    ),
    (
        Syntax,
        [Test::Begins("=="), Test::First],
        "A comparison stands in a `keep`: `keep(a == b)`.",
    ),
    (
        Syntax,
        [Test::Begins("==")],
        "An initial value stands after one `=`, as in `v: speed = 3mps`. A comparison stands in a",
        "`keep`: `keep(v == 3mps)`.",
    ),
    (
        Syntax,
        [Test::Begins("="), Test::Has("keep(")],
        "A comparison is written `==`."
    ),
    (
        Syntax,
        [Test::Begins("="), Test::AfterFirstName],
        "A label ends with a colon, as in `{last}: parallel:`. A field has a type, as in `{last}: int = 3`.",
    ),
    (
        Syntax,
        [Test::Begins("="), Test::After(":")],
        "A type stands after the colon: `x: int = 3`.",
    ),
    (
        Syntax,
        [Test::Relation, Test::AfterRelation],
        "Relations aren't chained: join two of them with `and`, as in `3 < x and x < 5`.",
    ),
    (
        Syntax,
        [Test::Begins("!")],
        "`!` is written `not` here: `keep(not b)`."
    ),
    (
        Syntax,
        [Test::LineWord(&["if", "elif", "else", "while", "for"])],
        "This profile has no `if` and no loops. `keep(x > 3 => y == 5)` asks for `y == 5` where `x > 3` holds.",
    ),
    (
        Syntax,
        [Test::AfterWord(&["foreach"])],
        "This profile has no `foreach`. Write a `keep` for each element: `keep(v[0] > 0)`.",
    ),
    (
        Syntax,
        [Test::AfterWord(&["wait"]), Test::Operand],
        "A time stands in the brackets of `elapsed`: `wait elapsed({number})`.",
    ),
    (
        Syntax,
        [Test::AfterWord(&["wait"])],
        "Only a time can be waited for in this profile: `wait elapsed(2s)`.",
    ),
    (
        Syntax,
        [Test::AfterWord(&["keep"])],
        "A `keep` has brackets: `keep({rest})`."
    ),
    (
        Syntax,
        [Test::Begins(","), Test::Has("keep(")],
        "A `keep` holds one rule. Join two by `and`, or write a `keep` for each.",
    ),
    (
        Syntax,
        [Test::Begins("("), Test::Has("keep(")],
        "Nothing is called in an expression: this profile has no methods. Fields are read as `a.x`, and the",
        "elements of a list as `v[0]`.",
    ),
    (
        Syntax,
        [Test::Word(&["is", "as"]), Test::After(".")],
        "This profile has no `.is` and no `.as`. A conditional subtype has the members of one kind:",
        "`actor truck inherits car(category == truck)`.",
    ),
    (
        Syntax,
        [Test::Begins("::")],
        "This profile has no namespaces: write the name alone."
    ),
    (
        Syntax,
        [Test::Begins(":"), Test::After(":")],
        "This profile has no namespaces: write the name alone."
    ),
    (
        Syntax,
        [Test::Has("repeat(")],
        "This profile has no `repeat`: write the phases one below the other, in a `serial`.",
    ),
    (
        Syntax,
        [Test::Has("match:")],
        "This profile has no `match`. Phases are put together by `serial`, `parallel` and `one_of`.",
    ),
    (
        Syntax,
        [Test::Has("try:")],
        "This profile has no `try`. Phases are put together by `serial`, `parallel` and `one_of`.",
    ),
    (
        Syntax,
        [Test::Begins("\""), Test::After("\"\"")],
        "This profile has no doc strings. Write a comment: it goes from `#` to the end of the line.",
    ),
    (
        Syntax,
        [Test::Begins("\"\"\"")],
        "This profile has no doc strings. Write a comment: it goes from `#` to the end of the line.",
    ),
    (
        Syntax,
        [Test::End, Test::AfterWord(&["with"])],
        "A colon is missing at the end of the line: `with:`.",
    ),
    (
        Syntax,
        [Test::End, Test::AfterWord(PHASES)],
        "A colon is missing at the end of the line: `{last}:`.",
    ),
    (
        Syntax,
        [Test::After("with:")],
        "What belongs to `with:` stands in the lines below it, indented more.",
    ),
    (
        Syntax,
        [Test::After(":"), Test::LineWord(HEADS)],
        "The members stand in the lines below the colon, indented more.",
    ),
    (
        Syntax,
        [Test::Word(&["with"]), Test::First],
        "A `serial`, `parallel` or `one_of` has no `with:` in this profile. Give it a label, and write the rule",
        "as a member of the scenario, as `keep(LABEL.duration == 3s)`.",
    ),
    (
        Syntax,
        [Test::First, Test::Above(":"), Test::NotDeeper],
        "The line above ends with a colon, which opens a block. Write the lines of the block below it, indented",
        "more. If there are none, remove the colon.",
    ),
    (
        Syntax,
        [Test::First, Test::NotAbove(":"), Test::Deeper],
        "The line above opens no block, so this line isn't indented more. If a block is meant, end the line",
        "above with a colon.",
    ),
    (
        Syntax,
        [Test::Word(TAKEN), Test::Behind(":")],
        "`{word}` is a word of the language, so it is no name: choose another name.",
    ),
    (
        Syntax,
        [Test::Word(TAKEN), Test::Behind(",")],
        "`{word}` is a word of the language, so it is no name: choose another name.",
    ),
    (
        Syntax,
        [Test::Operand, Test::AfterWord(MODIFIERS)],
        "What a modifier asks for stands in brackets: `{last}({rest})`.",
    ),
    (
        Syntax,
        [Test::LineWord(&["import"])],
        "The name of a file stands in quotes: `import \"parts/units.osc\"`. The library is imported by",
        "`import osc.standard`.",
    ),
];
