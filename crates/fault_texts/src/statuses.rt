//! The texts of the statuses with which `osc` refuses, but for that of a fault.

use crate::form::{Texts, texts};

pub(crate) const WORDS: Texts = texts! {
    title: "the words are refused",
    meaning: [
        "The words ask for nothing that `osc` knows. There is no command, or the",
        "command doesn't take these words.",
    ],
    example: [
        "osc generate main.osc",
    ],
    answer: "words",
    mending: [
        "`osc help` lists the commands. `osc generate --help` lists the words of",
        "`generate`, and so on.",
    ],
};

pub(crate) const TEXT: Texts = texts! {
    title: "the run or the record is refused",
    meaning: [
        "`check` and `export` read the text of a run, and `verify` reads a record. The",
        "answer is `text json` if a run is no JSON. It is `text` and a JSON pointer if a",
        "part of a run has a wrong shape. It is `text` and a number if that line of a",
        "record is wrong.",
    ],
    example: [
        "echo '{' > run.json",
        "osc check main.osc top run.json",
    ],
    answer: "text json",
    mending: [
        "Give `check` and `export` what `generate` wrote on status 0, and `verify` what",
        "it wrote on status 1 or 2, unchanged.",
    ],
};

pub(crate) const SHELF: Texts = texts! {
    title: "a file isn't there, is too long or can't be read",
    meaning: [
        "The answer is `missing` and the name if the file isn't there. It is `long` and",
        "the name if a source has more than 1,048,576 bytes, a run more than 16,777,216,",
        "or a record more than 268,435,456. It is `shelf` and the name if the file can't",
        "be read, for example a directory.",
    ],
    example: [
        "osc generate none.osc top",
    ],
    answer: "missing none.osc",
    mending: [
        "Correct the name, which is looked up from the folder in which `osc` runs. A",
        "source that is too long can be split into files that import each other.",
    ],
};

pub(crate) const SINK: Texts = texts! {
    title: "standard output failed",
    meaning: [
        "The answer couldn't be written to its end, for example since a disk is full or",
        "a pipe is closed. A prefix of it may be written.",
    ],
    example: [
        "osc generate main.osc top > /dev/full",
    ],
    answer: "nothing, or a prefix of the run",
    mending: [
        "See where standard output goes, and run the command again.",
    ],
};

pub(crate) const MEMORY: Texts = texts! {
    title: "out of memory",
    meaning: [
        "The system gave no more memory. Nothing is written.",
    ],
    example: [
        "osc generate main.osc top",
    ],
    answer: "nothing",
    mending: [
        "Free memory and run the command again. Fewer `--ticks` need less.",
    ],
};

pub(crate) const ARGUMENTS: Texts = texts! {
    title: "the arguments can't be read",
    meaning: [
        "The words of the command can't be collected, for example if one isn't UTF-8.",
        "Nothing is written.",
    ],
    example: [
        "osc generate $'\\xff' top",
    ],
    answer: "nothing",
    mending: [
        "Rename the file so that its name is UTF-8.",
    ],
};
