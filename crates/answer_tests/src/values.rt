//! Fields of each type, expressions, and defaults.

use crate::cases::{Case, Wanted, cases_hold};
use std::test::Fail;

const FIELDS: [Case; 3] = [
    Case {
        source: "enum kind: [car, truck = 4]
scenario top:
    a, b: int
    c: uint
    d: float
    e: bool
    f: kind
    g: string
    keep(a == -1000000000)
    keep(b == 0x1F)
    keep(c <= 0)
    keep(d == -1.5)
    keep(e)
    keep(f == truck)
    keep(g == \"it's\")
",
        setting: "",
        wanted: Wanted::Values(
            r#"[["a",-1000000000],["b",31],["c",0],["d",-1500],["e",1],["f",4],["g","it's"]]"#,
        ),
    },
    Case {
        source: "scenario top:
    x: int
    keep(x >= 1000000000)
",
        setting: "",
        wanted: Wanted::Values(r#"[["x",1000000000]]"#),
    },
    Case {
        source: "scenario top:
    x: int
    keep(x > 1000000000)
",
        setting: "",
        wanted: Wanted::Whole("1 osc-refutation 1\nslots 1\nrules 1\nroom 0\nclose 0\nend\n"),
    },
];

#[test]
fn fields_of_each_type(rt: HostRuntime) -> Result<(), Fail> {
    cases_hold(&rt, &FIELDS)
}

const LISTS: [Case; 3] = [
    Case {
        source: "scenario top:
    v: list of int = [4, 5]
    keep(v[1] == 6)
",
        setting: "",
        wanted: Wanted::Values(r#"[["v[0]",4],["v[1]",6]]"#),
    },
    Case {
        source: "enum kind: [car, truck]
scenario top:
    a: list of bool = [true, false]
    b: list of kind = [truck]
    c: list of float = [1.5, 2]
    d: list of string = [\"x\", 'y']
    e: uint
    keep(e in [8, 9])
    keep(e != 8)
",
        setting: "",
        wanted: Wanted::Values(
            r#"[["a[0]",1],["a[1]",0],["b[0]",1],["c[0]",1500],["c[1]",2000],["d[0]","x"],["d[1]","y"],["e",9]]"#,
        ),
    },
    Case {
        source: "struct box:
    sides: list of int = [4, 5] with:
        keep(it[0] != 5)
scenario top:
    b: box
    x: int
    keep(x in b.sides)
    keep(x > b.sides[0])
",
        setting: "",
        wanted: Wanted::Values(r#"[["b.sides[0]",4],["b.sides[1]",5],["x",5]]"#),
    },
];

#[test]
fn lists_and_their_elements(rt: HostRuntime) -> Result<(), Fail> {
    cases_hold(&rt, &LISTS)
}

const TEXTS: [Case; 1] = [Case {
    source: "scenario top:
    s: string = \"a\"
    t: string
    u: string with:
        keep(it != \"\")
        keep(it != 'a')
        keep(it != \"b\\\"\")
    keep(s != t)
    keep(t in [\"b\\\"\", \"c\"])
    keep(t != \"c\")
",
    setting: "",
    wanted: Wanted::Values(r#"[["s","a"],["t","b\""],["u","c"]]"#),
}];

#[test]
fn texts(rt: HostRuntime) -> Result<(), Fail> {
    cases_hold(&rt, &TEXTS)
}

const OPERATORS: [Case; 3] = [
    Case {
        source: "scenario top:
    x, y: int
    z: float
    keep(x * 2 + 1 == 7)
    keep(y - x == -(2 - 7))
    keep(z == y / 4 - 0.25)
",
        setting: "",
        wanted: Wanted::Values(r#"[["x",3],["y",8],["z",1750]]"#),
    },
    Case {
        source: "scenario top:
    a, b, c, d: bool
    x: int
    keep(a and not b)
    keep(b or c)
    keep(c => (x in range(1, 4) and x >= 4))
    keep(d == (x < 4))
    keep(x <= 4)
    keep(a != false)
",
        setting: "",
        wanted: Wanted::Values(r#"[["a",1],["b",0],["c",1],["d",0],["x",4]]"#),
    },
    Case {
        source: "enum kind: [car, truck = 4]
extend kind: [bus]
enum size: [small, truck]
scenario top:
    k, l: kind
    s: size
    keep(k == kind!truck)
    keep(l in [car, bus])
    keep(l != car)
    keep(s == size!truck)
",
        setting: "",
        wanted: Wanted::Values(r#"[["k",4],["l",5],["s",1]]"#),
    },
];

#[test]
fn operators(rt: HostRuntime) -> Result<(), Fail> {
    cases_hold(&rt, &OPERATORS)
}

const QUANTITIES: [Case; 4] = [
    Case {
        source: "import osc.standard
scenario top:
    s: speed
    keep(s == 30kph)
",
        setting: "",
        wanted: Wanted::Values(r#"[["s",8333]]"#),
    },
    Case {
        source: "import osc.standard
scenario top:
    d: length
    keep(d == 1000000m)
",
        setting: "",
        wanted: Wanted::Values(r#"[["d",1000000000]]"#),
    },
    Case {
        source: "type temperature is SI(K: 1)
unit celsius of temperature is SI(K: 1, factor: 1, offset: 273.15)
unit half of temperature is SI(K: 1, factor: 0.5)
unit low of temperature is SI(K: 1, offset: -0.5)
scenario top:
    a, b, c: temperature
    keep(a == 20celsius)
    keep(b - a == 1half)
    keep(c == 1low)
",
        setting: "",
        wanted: Wanted::Values(r#"[["a",293150],["b",293650],["c",500]]"#),
    },
    Case {
        source: "import osc.standard
scenario top:
    v: speed
    t: time
    d: length
    keep(v == 20mps)
    keep(d == 1km)
    keep(v * t == d / 10)
",
        setting: "",
        wanted: Wanted::Values(r#"[["v",20000],["t",5000],["d",1000000]]"#),
    },
];

#[test]
fn quantities_and_units(rt: HostRuntime) -> Result<(), Fail> {
    cases_hold(&rt, &QUANTITIES)
}

const DEFAULTS: [Case; 4] = [
    Case {
        source: "scenario top:
    x: int = 5 with:
        keep(it in [0..9])
    y: int = 5
    keep(y in [3..3])
",
        setting: "",
        wanted: Wanted::Values(r#"[["x",5],["y",3]]"#),
    },
    Case {
        source: "scenario top:
    x: int = 5
    y: int
    b: bool
    keep(default x == 7)
    keep(default b)
    keep(hard y == x)
",
        setting: "",
        wanted: Wanted::Values(r#"[["x",7],["y",7],["b",1]]"#),
    },
    Case {
        source: "actor robot:
    load: int = 5
scenario use:
    r: robot
    keep(r.load == 3)
scenario top:
    mine: robot
    do use(r: mine)
",
        setting: "--ticks 1",
        wanted: Wanted::Whole(
            "0 {\"choices\":[],\"end\":1,\"form\":2,\"phases\":[[\"do\",0,1]],\"tick\":100,\"traces\":[],\"values\":[[\"mine.load\",3]]}\n",
        ),
    },
    Case {
        source: "actor robot:
    load: int = 5
scenario use:
    r: robot
scenario top:
    mine: robot
    do use(r: mine)
",
        setting: "--ticks 1",
        wanted: Wanted::Whole(
            "0 {\"choices\":[],\"end\":1,\"form\":2,\"phases\":[[\"do\",0,1]],\"tick\":100,\"traces\":[],\"values\":[[\"mine.load\",5]]}\n",
        ),
    },
];

#[test]
fn defaults_and_what_overrides_them(rt: HostRuntime) -> Result<(), Fail> {
    cases_hold(&rt, &DEFAULTS)
}

const REMOVALS: [Case; 6] = [
    Case {
        source: "struct item:
    n: int with:
        keep(it in [4..9])
    keep(default n == 9)
    remove_default(n)
scenario top:
    i: item
    keep(i.n + 0 == 5)
",
        setting: "",
        wanted: Wanted::Values(r#"[["i.n",5]]"#),
    },
    Case {
        source: "struct item:
    n: int with:
        keep(it in [4..9])
    remove_default(n)
    keep(default n == 9)
scenario top:
    i: item
    keep(i.n + 0 == 5)
",
        setting: "",
        wanted: Wanted::Whole(
            "1 osc-refutation 1\nslots 1\nrules 3\nroom 3\nlow 0 3\nclose 0\nhigh 0 9\nclose 0\nlow 0 8\nclose 1\nclose 2\nend\n",
        ),
    },
    Case {
        source: "scenario top:
    v: list of int = [4, 5]
    remove_default(v[1])
    keep(v[1] + 0 == 6)
",
        setting: "",
        wanted: Wanted::Values(r#"[["v[0]",4],["v[1]",6]]"#),
    },
    Case {
        source: "scenario top:
    n: int with:
        keep(default it == 9)
        remove_default(it)
    keep(n + 0 == 5)
",
        setting: "",
        wanted: Wanted::Values(r#"[["n",5]]"#),
    },
    Case {
        source: "struct item:
    n: int = 9
scenario top:
    i: item
    remove_default(i.n)
    keep(i.n + 0 == 5)
",
        setting: "",
        wanted: Wanted::Values(r#"[["i.n",5]]"#),
    },
    Case {
        source: "actor robot:
    load: int = 5
action robot.go:
    remove_default(actor.load)
    keep(actor.load + 0 == 3)
scenario top:
    r: robot
    do r.go()
",
        setting: "--ticks 1",
        wanted: Wanted::Whole(
            "0 {\"choices\":[],\"end\":1,\"form\":2,\"phases\":[[\"do\",0,1]],\"tick\":100,\"traces\":[],\"values\":[[\"r.load\",3]]}\n",
        ),
    },
];

#[test]
fn defaults_that_are_removed(rt: HostRuntime) -> Result<(), Fail> {
    cases_hold(&rt, &REMOVALS)
}
