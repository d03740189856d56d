use crate::told;
use std::process::Abort;
use std::test::Fail;

/// The first faults of these sources.
fn faults_are(rt: &(impl Abort + AllocGlobal), rows: &[(&str, &str)]) -> Result<(), Fail> {
    for (source, want) in rows {
        let got = told(rt.alloc(), source)?;
        assert_eq!(rt; got.as_str(), *want, "{source}");
    }
    Ok(())
}

#[test]
fn faults_of_headings(rt: HostRuntime) -> Result<(), Fail> {
    let rows: [(&str, &str); 12] = [
        ("struct a:\n    x: int\nstruct b:\n    y: a\n", "none"),
        ("struct a:\n    x: int\nstruct a:\n    y: int\n", "311 3:8"),
        ("struct a:\n    x: b\n", "312 2:8"),
        ("struct a:\n    x: a\n", "313 1:8"),
        (
            "struct a:\n    x: int\nstruct b inherits c\nstruct c inherits b\n",
            "313 3:8",
        ),
        (
            "struct a:\n    x: int\nextend a:\n    y: b\nstruct b:\n    z: a\n",
            "313 1:8",
        ),
        (
            "struct a:\n    f: bool\nstruct b inherits a(f == true):\n    x: c\nstruct c:\n    y: a\n",
            "313 1:8",
        ),
        (
            "struct d:\n    x: a\nstruct a:\n    x: b\nstruct b:\n    x: a\n",
            "313 3:8",
        ),
        ("struct a:\n    x: b\nstruct b inherits a\n", "313 3:8"),
        (
            "actor a:\n    y: int\nactor b:\n    x: list of a\n",
            "314 4:16",
        ),
        (
            "type length is SI(m: 1)\nunit s of length is SI(s: 1)\n",
            "316 2:6",
        ),
        ("enum e: [a, b = 1000000001]\n", "325 1:17"),
    ];
    faults_are(&rt, &rows)
}

#[test]
fn types_without_members_hold_nothing(rt: HostRuntime) -> Result<(), Fail> {
    let rows: [(&str, &str); 4] = [
        (
            "enum e: [a]\nstruct s:\n    x: e\nstruct r inherits e(x == a):\n    y: s\nscenario top\n",
            "314 4:19",
        ),
        (
            "type t is SI(m: 1)\nstruct s:\n    x: t\nstruct r inherits t(x == true):\n    y: s\n",
            "314 4:19",
        ),
        (
            "struct s:\n    x: int\nstruct r inherits int(x == true):\n    y: s\n",
            "314 3:19",
        ),
        (
            "struct e:\n    a: bool\nstruct s:\n    x: e\nstruct r inherits e(a == true):\n    y: s\nscenario top\n",
            "313 1:8",
        ),
    ];
    faults_are(&rt, &rows)
}

#[test]
fn faults_of_members(rt: HostRuntime) -> Result<(), Fail> {
    let rows: [(&str, &str); 12] = [
        ("struct a:\n    x: int\n    y, x: int\n", "311 3:8"),
        (
            "struct a:\n    x: int\nstruct b inherits a:\n    x: bool\n",
            "311 4:5",
        ),
        ("scenario a:\n    duration: int\n", "311 2:5"),
        (
            "struct a:\n    x: bool\nstruct b inherits a(y == true)\n",
            "312 3:21",
        ),
        (
            "enum e: [a]\nstruct s:\n    x: e\nstruct b inherits s(x == c)\n",
            "312 4:26",
        ),
        (
            "struct a:\n    x: bool\nstruct b inherits a(y == true):\n    y: bool\n",
            "313 3:21",
        ),
        (
            "struct a:\n    x: int\nstruct b inherits a(x == true)\n",
            "314 3:21",
        ),
        (
            "struct a:\n    x: bool\nstruct b inherits a(x == c)\n",
            "314 3:26",
        ),
        (
            "struct a:\n    x: int\nstruct b:\n    y: a = 1\n",
            "314 4:5",
        ),
        ("struct a:\n    do wait elapsed(1s)\n", "314 2:5"),
        ("struct a:\n    x: list of int = 1\n", "319 2:16"),
        (
            "scenario a:\n    do wait elapsed(1s)\n    do wait elapsed(1s)\n",
            "320 3:5",
        ),
    ];
    faults_are(&rt, &rows)
}
