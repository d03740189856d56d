//! The texts of the codes from 301 on, the faults of imports and of what is meant.

use crate::form::{Texts, texts};

pub(crate) const MISSING_IMPORT: Texts = texts! {
    title: "the imported file isn't there",
    meaning: [
        "There is no file with exactly the name of this import. Or the import is dotted",
        "and doesn't begin with `osc`: only the library is imported so. The fault",
        "stands at the token after `import`. If several imports name the file, it is",
        "the first of them.",
    ],
    example: [
        "import \"parts.osc\"",
        "scenario top",
    ],
    answer: "fault 301 main.osc:1:8",
    mending: [
        "Correct the name. It is looked up from the folder in which `osc` runs. The",
        "library is `import osc.standard`.",
    ],
};

pub(crate) const TOO_MANY_FILES: Texts = texts! {
    title: "the program has more than 64 files",
    meaning: [
        "A program has at most 64 files. The main file counts, and so does the library",
        "if it is imported. The fault stands at the token after `import` of the import",
        "that would bring one more. The example has 64 imports.",
    ],
    example: [
        "import \"part1.osc\"",
        "import \"part2.osc\"",
        "...",
        "import \"part64.osc\"",
    ],
    answer: "fault 302 main.osc:64:8",
    mending: [
        "Put the declarations of several files into one.",
    ],
};

pub(crate) const TWICE: Texts = texts! {
    title: "the name is declared before",
    meaning: [
        "Types and the behaviours without an owner share one space of names. In it",
        "`int`, `uint`, `float`, `bool` and `string` count as declared. Units have a",
        "space of their own. So have the behaviours of one actor, and the members and",
        "labels of one type. So have the members of one enum, and the bases in one pair",
        "of brackets. The numbers of one enum differ too. In an action or a scenario",
        "`duration` is taken. The fault stands at the later name.",
    ],
    example: [
        "scenario top:",
        "    x: int",
        "    keep(x in [3..3])",
        "scenario top",
    ],
    answer: "fault 311 main.osc:4:10",
    mending: [
        "Give one of the two another name. To add members to a type that is there,",
        "write `extend`.",
    ],
};

pub(crate) const UNKNOWN: Texts = texts! {
    title: "the name isn't declared",
    meaning: [
        "Nothing of this name is found in any place that is searched for it. In an",
        "expression these are the fields of the type, the labels of its `do`,",
        "`duration`, and the members of enums. Elsewhere they are the types, units and",
        "behaviours of all files, the parameters of what is invoked, or the modifiers.",
        "`it` is known only in a `with:`, and `actor` only in a behaviour that an actor",
        "owns. The fault stands at the name.",
    ],
    example: [
        "scenario top:",
        "    speed: int",
        "    keep(sped > 3)",
    ],
    answer: "fault 312 main.osc:3:10",
    mending: [
        "Correct the spelling, declare the name, or import the file that declares it.",
        "For the units and the vehicle of the library write `import osc.standard`.",
    ],
};

pub(crate) const CYCLE: Texts = texts! {
    title: "the declaration depends on itself",
    meaning: [
        "No type inherits from itself or holds itself, also not through others. No",
        "scenario invokes itself, also not through others. No conditional subtype",
        "depends on itself. The fault stands at the declared name, but for a",
        "conditional subtype at the field of its condition.",
    ],
    example: [
        "struct a inherits b",
        "struct b inherits a",
        "scenario top",
    ],
    answer: "fault 313 main.osc:1:8",
    mending: [
        "Take one declaration out of the circle. What several of them need can go into",
        "a type of its own.",
    ],
};

pub(crate) const WRONG_KIND: Texts = texts! {
    title: "a name or part of the wrong kind",
    meaning: [
        "What stands here is declared, but this place takes another kind. For example,",
        "the type of a field is no action and no scenario. An owner is an actor, and an",
        "heir inherits from its own kind. A unit is of a physical type. A `do` stands",
        "in a scenario, and not under a conditional subtype. An invocation is on an",
        "actor, and a modifier stands in the `with:` of a `drive`. A default begins",
        "with the field that it sets. The fault stands at the name, or at the first",
        "token of the part.",
    ],
    example: [
        "action go",
        "scenario top:",
        "    x: go",
    ],
    answer: "fault 314 main.osc:3:8",
    mending: [
        "Name something of the kind that the place takes. An action or a scenario is",
        "invoked in a `do`, as `do go()`.",
    ],
};

pub(crate) const CLASH: Texts = texts! {
    title: "the kinds of the parts don't fit",
    meaning: [
        "An operator has operands whose kinds don't go together, for example a number",
        "and a truth value. Or a constraint is no truth value. Or a value has another",
        "kind than its field or parameter, or is a whole struct, phase, list or range.",
        "The fault stands at the operator that asks for the kind. If none does, it",
        "stands at the first token of the part.",
    ],
    example: [
        "scenario top:",
        "    x: int",
        "    keep(x + 1)",
    ],
    answer: "fault 315 main.osc:3:10",
    mending: [
        "Compare parts of one kind. A `keep` takes a truth value, as in",
        "`keep(x + 1 == 3)`.",
    ],
};

pub(crate) const UNIT_CLASH: Texts = texts! {
    title: "the units don't fit",
    meaning: [
        "What is added, compared or assigned has units of the same physical kind. For",
        "example, a speed isn't added to a length. A unit also has the exponents of its",
        "type, and no exponent passes -100 or 100. The fault stands at the operator. If",
        "there is none, it stands at the first token of the part, or at the name of the",
        "unit.",
    ],
    example: [
        "import osc.standard",
        "scenario top:",
        "    s: speed",
        "    d: length",
        "    keep(s + d > 1m)",
    ],
    answer: "fault 316 main.osc:5:12",
    mending: [
        "Bring both sides to one kind, for example by a product: `s * 2s + d > 1m`.",
    ],
};

pub(crate) const NOT_CONSTANT: Texts = texts! {
    title: "a divisor or index that isn't constant",
    meaning: [
        "A divisor reads no field, and an index is a whole number that is written out.",
        "The fault stands at the `/` or at the `[`.",
    ],
    example: [
        "scenario top:",
        "    x: int",
        "    y: int",
        "    keep(x / y == 2)",
    ],
    answer: "fault 317 main.osc:4:12",
    mending: [
        "Write the rule as a product, as `x == 2 * y`. In place of an index that",
        "varies, write one constraint for each element.",
    ],
};

pub(crate) const ZERO_DIVISOR: Texts = texts! {
    title: "a division by zero",
    meaning: [
        "The divisor is a constant and has the value 0, so there is no quotient. The",
        "fault stands at the `/`.",
    ],
    example: [
        "scenario top:",
        "    x: int",
        "    keep(x / 0 == 1)",
    ],
    answer: "fault 318 main.osc:3:12",
    mending: [
        "Divide by a number other than 0.",
    ],
};

pub(crate) const BAD_ARGUMENT: Texts = texts! {
    title: "the argument isn't taken here",
    meaning: [
        "An invocation takes one argument at most for each field, and none for a list.",
        "A composition takes `duration:`. A `parallel` also takes `overlap:` with",
        "start, end, equal or any. A modifier takes `at:` and what its own forms have,",
        "as `speed(e, faster_than: c)`. The fault stands at the first token of the",
        "argument, and for a modifier at its name. It also stands at the type of a list",
        "field whose initial value isn't 1 to 64 elements in square brackets.",
    ],
    example: [
        "action go:",
        "    w: int",
        "scenario top:",
        "    do go(1, w: 2)",
    ],
    answer: "fault 319 main.osc:4:14",
    mending: [
        "Remove the argument, or name a field that has none yet. Arguments without a",
        "name come first and fill the fields in order.",
    ],
};

pub(crate) const TWO_DO: Texts = texts! {
    title: "a second `do`",
    meaning: [
        "A scenario has one `do` at most. Those of its bases and its extensions count.",
        "The fault stands at the later `do`.",
    ],
    example: [
        "import osc.standard",
        "scenario top:",
        "    do wait elapsed(1s)",
        "    do wait elapsed(1s)",
    ],
    answer: "fault 320 main.osc:4:5",
    mending: [
        "Join both under one `do serial:` or `do parallel:`, with a line for each.",
    ],
};

pub(crate) const CHOICE_LABEL: Texts = texts! {
    title: "the label may not be there",
    meaning: [
        "Only one member of a `one_of` is there in a run. So a label inside of a member",
        "is read only within that member. The fault stands at the label.",
    ],
    example: [
        "import osc.standard",
        "scenario top:",
        "    ego: vehicle",
        "    do one_of:",
        "        go: ego.drive()",
        "        wait elapsed(1s)",
        "    keep(go.duration > 1s)",
    ],
    answer: "fault 321 main.osc:7:10",
    mending: [
        "Move the constraint into the `with:` of that member, as",
        "`keep(it.duration > 1s)`.",
    ],
};

pub(crate) const WIDE: Texts = texts! {
    title: "the calculation is too wide",
    meaning: [
        "Numbers are exact, with numerators and denominators up to 2 to the power 120.",
        "By the ranges of its fields this calculation could pass that. The fault stands",
        "at the operator. If there is none, it stands at the first token of the part.",
    ],
    example: [
        "scenario top:",
        "    x: int",
        "    keep(x * x * x * x * x == 1)",
    ],
    answer: "fault 322 main.osc:3:24",
    mending: [
        "Use fewer factors, or smaller divisors. A field of its own can hold a part of",
        "the calculation.",
    ],
};

pub(crate) const TOO_MANY: Texts = texts! {
    title: "the scenario is too large",
    meaning: [
        "Some limit is passed by the named scenario with all its parts: 65,536 objects,",
        "65,536 slots, 262,144 rules, or 4,194,304 copied tokens of constraints. Each",
        "value, choice, start and end is a slot, and each vehicle has three for each",
        "tick. The fault stands at the declared name of the scenario.",
    ],
    example: [
        "struct s0:",
        "    a, b, c, d, e, f, g, h, i, j, k, l, m, n, o, p, q: int",
        "struct s1:",
        "    a, b, c, d, e, f, g, h, i, j, k, l, m, n, o, p, q: s0",
        "struct s2:",
        "    a, b, c, d, e, f, g, h, i, j, k, l, m, n, o, p, q: s1",
        "scenario top:",
        "    a, b, c, d, e, f, g, h, i, j, k, l, m, n, o, p, q: s2",
    ],
    answer: "fault 323 main.osc:7:10",
    mending: [
        "Use fewer objects and shorter lists. If there are vehicles, lower `--ticks`.",
    ],
};

pub(crate) const NO_SCENARIO: Texts = texts! {
    title: "there is no such scenario",
    meaning: [
        "No file declares a scenario with the name that the command gives. `NAME` is a",
        "scenario without an owner. `ACTOR.NAME` is one that an actor owns. The fault",
        "stands at the end of the main file.",
    ],
    example: [
        "scenario other",
    ],
    answer: "fault 324 main.osc:2:1",
    mending: [
        "Correct the name in the command, or declare the scenario.",
    ],
};

pub(crate) const TOO_LARGE: Texts = texts! {
    title: "the number passes its limit",
    meaning: [
        "The number of an enum member is at most 1,000,000,000. A number with a unit is",
        "worth at most 1,000,000 of the base unit, below zero too. The fault stands at",
        "the number. If a member has none, it stands at the name of the member.",
    ],
    example: [
        "import osc.standard",
        "scenario top:",
        "    d: length",
        "    keep(d == 1000001m)",
    ],
    answer: "fault 325 main.osc:4:15",
    mending: [
        "Write a smaller number. No field holds a greater one.",
    ],
};

pub(crate) const AMBIGUOUS: Texts = texts! {
    title: "several enums have a member of this name",
    meaning: [
        "The name of an enum member stands alone only if no other enum has a member of",
        "that name. The fault stands at the name.",
    ],
    example: [
        "enum e: [a, b]",
        "enum f: [b]",
        "scenario top:",
        "    k: e",
        "    keep(k == b)",
    ],
    answer: "fault 326 main.osc:5:15",
    mending: [
        "Write the name of the enum before it, as `e!b`.",
    ],
};

pub(crate) const INDEX: Texts = texts! {
    title: "the index is outside of the list",
    meaning: [
        "Elements are counted from 0, so the last index is the length minus 1. Nothing",
        "but a list field has elements. The fault stands at the `[`.",
    ],
    example: [
        "scenario top:",
        "    v: list of int = [4, 5]",
        "    keep(v[2] == 4)",
    ],
    answer: "fault 327 main.osc:3:11",
    mending: [
        "Write an index from 0 to the length minus 1.",
    ],
};
