//! Cases of words that this profile leaves out.

use crate::form::{Case, Test, cases};
use osc_base::FaultCode;

pub const WORDS: &[Case] = cases![
    (
        LeftOut,
        [Test::Behind(":")],
        "`{word}` is a word of the full language, so it is no name: choose another name.",
    ),
    (
        LeftOut,
        [Test::Word(&["until"])],
        "No condition ends a phase in this profile. A phase has a duration, as",
        "`ego.drive(duration: [1s..5s])`, and a modifier with `at: end` says what holds at its end.",
    ),
    (
        LeftOut,
        [Test::Word(&["event", "on", "emit", "rise", "fall", "every"])],
        "This profile has no events. A `serial` says which phase follows which, `at: start` and `at: end`",
        "say when a modifier holds, and `wait elapsed(2s)` waits.",
    ),
    (
        LeftOut,
        [Test::Word(&["cover", "record"])],
        "Remove it: the run has the value of each field, whether it is recorded or not.",
    ),
    (
        LeftOut,
        [Test::Word(&["var"])],
        "Remove `var`: a field has one value in a run. What changes in it are the lane, the position and the",
        "speed of each vehicle.",
    ),
    (
        LeftOut,
        [Test::Word(&["sample"])],
        "This profile has no samples. A field can hold what a modifier asks for: with `v: speed` and",
        "`speed(v, at: start)` the field `v` is the speed at the start.",
    ),
    (
        LeftOut,
        [Test::Word(&["global"])],
        "Declare the field in the scenario, or in an actor that the scenario has as a field.",
    ),
    (
        LeftOut,
        [Test::Word(&["def", "external", "call"])],
        "This profile has no methods. What a method would return can be a field, and a `keep` says what it is.",
    ),
    (
        LeftOut,
        [Test::Word(&["modifier"])],
        "Modifiers can't be declared in this profile. A scenario of the actor serves: `scenario vehicle.slow:`",
        "with `do actor.drive() with:` and the modifiers. Invoke it by `ego.slow()`.",
    ),
    (
        LeftOut,
        [Test::Word(&["namespace", "export"])],
        "Remove the line: each declaration is visible in all files of the program.",
    ),
];
