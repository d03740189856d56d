//! The texts of the codes from 201 on, the faults of a file's tokens.

use crate::form::{Texts, texts};

pub(crate) const SYNTAX: Texts = texts! {
    title: "no file goes on with this token",
    meaning: [
        "The tokens before this one begin some file of the grammar. With this one they",
        "begin none, whatever follows. The fault stands at the first such token. So the",
        "mistake is here or a little earlier, for example a bracket that isn't closed",
        "or a missing colon.",
    ],
    example: [
        "scenario top:",
        "    x: int",
        "    keep(x in [1..2)",
    ],
    answer: "fault 201 main.osc:3:20",
    mending: [
        "See that each bracket before this place is closed, and that a line that opens",
        "a block ends with a colon. The grammar is in docs/LANGUAGE.md.",
    ],
};

pub(crate) const LEFT_OUT: Texts = texts! {
    title: "this profile leaves the word out",
    meaning: [
        "The word belongs to the full language, but no rule of this profile takes it.",
        "It can't be a name either. The fault stands at the word if it is the first",
        "token with which no file goes on. Left out are `namespace`, `export`, `event`,",
        "`on`, `until`, `emit`, `rise`, `fall`, `every`, `var`, `sample`, `global`,",
        "`def`, `external`, `call`, `cover`, `record` and `modifier`.",
    ],
    example: [
        "scenario top:",
        "    x: int",
        "    cover(x)",
    ],
    answer: "fault 202 main.osc:3:5",
    mending: [
        "Remove that part of the source. If the word is meant as a name, choose another",
        "name.",
    ],
};
