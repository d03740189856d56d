//! The texts of the codes from 101 on, the faults of a file's bytes.

use crate::form::{Texts, texts};

pub(crate) const UTF8: Texts = texts! {
    title: "the file isn't UTF-8",
    meaning: [
        "A source is text in UTF-8. The fault stands at the first byte that begins no",
        "whole character. Files in another encoding have such bytes. In the example",
        "`\\xff` stands for the byte ff.",
    ],
    example: [
        "#\\xff",
    ],
    answer: "fault 101 main.osc:1:2",
    mending: [
        "Save the file as UTF-8. Most editors ask for the encoding when a file is saved",
        "under a new name.",
    ],
};

pub(crate) const TAB: Texts = texts! {
    title: "a tab in the indentation",
    meaning: [
        "Blocks are indented with spaces alone, since a tab has no width here. The",
        "fault stands at the first tab before the first token of the line.",
    ],
    example: [
        "scenario top:",
        "\tx: int",
    ],
    answer: "fault 102 main.osc:2:1",
    mending: [
        "Indent the line with spaces. Editors can be set to write spaces for the tab",
        "key.",
    ],
};

pub(crate) const INDENT: Texts = texts! {
    title: "the indentation fits no open block",
    meaning: [
        "A line opens a block if it is indented more than all lines whose blocks are",
        "open. Else it must be indented exactly as one of them. This line does neither.",
        "The fault stands at the first character of the line that is no space, tab or",
        "comment.",
    ],
    example: [
        "scenario top:",
        "    x: int",
        "  y: int",
    ],
    answer: "fault 103 main.osc:3:3",
    mending: [
        "Indent the line exactly as the other lines of its block.",
    ],
};

pub(crate) const CHARACTER: Texts = texts! {
    title: "no token begins with this character",
    meaning: [
        "The language has no token that begins with this character. Or it is a control",
        "character in a string. The fault stands at the character. A backslash that",
        "isn't directly before the end of its line is one of these. So is a carriage",
        "return without a line feed.",
    ],
    example: [
        "scenario top:",
        "    x: int",
        "    keep(x $ 3)",
    ],
    answer: "fault 104 main.osc:3:12",
    mending: [
        "Remove the character, or write an operator of this profile in its place. The",
        "full language's `%`, `?` and `|` aren't read here.",
    ],
};

pub(crate) const TEXT: Texts = texts! {
    title: "no string begins with this quote",
    meaning: [
        "A string ends with the quote that began it, in the same line. In it a",
        "backslash stands only before a quote or a backslash. The fault stands at the",
        "opening quote.",
    ],
    example: [
        "import \"a\\n\"",
    ],
    answer: "fault 105 main.osc:1:8",
    mending: [
        "Close the string before the end of its line. Write `\\\\` for a backslash. Of",
        "other escapes there are only `\\\"` and `\\'`.",
    ],
};

pub(crate) const NUMBER: Texts = texts! {
    title: "the number isn't well formed",
    meaning: [
        "A number has at most 18 digits; those on both sides of its point count",
        "together. After `0x` stand 1 to 14 hexadecimal digits. No word of the language",
        "directly follows a number, and no other name character directly follows",
        "hexadecimal digits. The fault stands at the number's first character.",
    ],
    example: [
        "scenario top:",
        "    x: int",
        "    keep(x == 0x)",
    ],
    answer: "fault 106 main.osc:3:15",
    mending: [
        "Write fewer digits, or put a space between the number and the word after it.",
    ],
};

pub(crate) const DEEP: Texts = texts! {
    title: "more than 64 open brackets and blocks",
    meaning: [
        "At most 64 brackets and indented blocks are open at once, both counted",
        "together. The fault stands at the bracket that would be the 65th, or at the",
        "first token of the line that would open the 65th block.",
    ],
    example: [
        "scenario top:",
        "    x: int",
        "    keep((((((((((((((((((((((((((((((((((((((((((((((((((((((((((((((((",
    ],
    answer: "fault 107 main.osc:3:72",
    mending: [
        "Close a bracket that is open by mistake. Else split the expression, or use",
        "fewer blocks inside each other.",
    ],
};
