//! The static faults of the whole language, as `command` tells them.
use crate::answers::answers_are;
use std::test::Fail;

#[test]
fn faults_of_names(rt: HostRuntime) -> Result<(), Fail> {
    let rows: [(&str, &str); 7] = [
        (
            "scenario top:\n    x: int\n    x: int\n    keep(x in [3..3])\n",
            "3 fault 311 main.osc:3:5\n",
        ),
        (
            "scenario top:\n    x: int\n    keep(x in [3..3])\nenum e: [a, b = 0]\n",
            "3 fault 311 main.osc:4:13\n",
        ),
        (
            "type t is SI(m: 1)\ntype t is SI(m: 1)\nscenario top\n",
            "3 fault 311 main.osc:2:6\n",
        ),
        ("struct int\n", "3 fault 311 main.osc:1:8\n"),
        (
            "scenario top:\n    x: int\n    keep(x in [3..3])\nstruct s:\n    n: speed\n",
            "3 fault 312 main.osc:5:8\n",
        ),
        ("type t is SI(M: 1)\n", "3 fault 312 main.osc:1:14\n"),
        ("unit u of t is SI(m: 1)\n", "3 fault 312 main.osc:1:11\n"),
    ];
    answers_are(&rt, &rows)
}

#[test]
fn faults_of_cycles_and_kinds(rt: HostRuntime) -> Result<(), Fail> {
    let rows: [(&str, &str); 5] = [
        (
            "struct a inherits b\nstruct b inherits a\nscenario top\n",
            "3 fault 313 main.osc:1:8\n",
        ),
        ("struct a inherits a\n", "3 fault 313 main.osc:1:8\n"),
        (
            "struct a inherits b\nstruct b inherits c\nstruct c inherits a\n",
            "3 fault 313 main.osc:1:8\n",
        ),
        ("struct a inherits int\n", "3 fault 314 main.osc:1:19\n"),
        (
            "action go\nscenario top:\n    x: go\n",
            "3 fault 314 main.osc:3:8\n",
        ),
    ];
    answers_are(&rt, &rows)
}

#[test]
fn faults_of_values(rt: HostRuntime) -> Result<(), Fail> {
    let rows: [(&str, &str); 8] = [
        (
            "scenario top:\n    x: int\n    y: int\n    b: bool\n    f: float\n    keep(not x)\n",
            "3 fault 315 main.osc:6:10\n",
        ),
        (
            "scenario top:\n    x: int\n    y: int\n    b: bool\n    f: float\n    keep(x + b == 1)\n",
            "3 fault 315 main.osc:6:12\n",
        ),
        (
            "import osc.standard\nscenario top:\n    s: speed\n    d: length\n    keep(s + d > 1m)\n",
            "3 fault 316 main.osc:5:12\n",
        ),
        (
            "type t is SI(m: 1)\nunit u of t is SI(m: 1, kg: 1)\n",
            "3 fault 316 main.osc:2:6\n",
        ),
        (
            "import osc.standard\nscenario top:\n    s: speed\n    d: length\n    x: int\n    keep(s == d)\n",
            "3 fault 316 main.osc:6:12\n",
        ),
        (
            "scenario top:\n    x: int\n    y: int\n    b: bool\n    f: float\n    keep(x / (y - y + 1) == 1)\n",
            "3 fault 317 main.osc:6:12\n",
        ),
        (
            "scenario top:\n    v: list of int = [4, 5]\n    x: int\n    keep(v[0 + 0] == 1)\n",
            "3 fault 317 main.osc:4:11\n",
        ),
        (
            "scenario top:\n    x: int\n    keep(x / 0 == 1)\n",
            "3 fault 318 main.osc:3:12\n",
        ),
    ];
    answers_are(&rt, &rows)
}

#[test]
fn faults_of_arguments_and_members(rt: HostRuntime) -> Result<(), Fail> {
    let rows: [(&str, &str); 8] = [
        (
            "scenario top:\n    v: list of int\n",
            "3 fault 319 main.osc:2:16\n",
        ),
        (
            "scenario top:\n    v: list of int = [1..2]\n",
            "3 fault 319 main.osc:2:16\n",
        ),
        (
            "scenario top:\n    do wait elapsed(1)\n    do wait elapsed(1)\n",
            "3 fault 320 main.osc:3:5\n",
        ),
        (
            "import osc.standard\nscenario top:\n    ego: vehicle\n    do one_of:\n        go: ego.drive()\n        wait elapsed(1s)\n    keep(go.duration > 1s)\n",
            "3 fault 321 main.osc:7:10\n",
        ),
        (
            "import osc.standard\nactor robot\naction robot.go\nscenario top:\n    r: robot\n    do one_of:\n        step: r.go()\n        wait elapsed(1s)\n    keep(step.duration > 1s)\n",
            "3 fault 321 main.osc:9:10\n",
        ),
        (
            "import osc.standard\nscenario top:\n    do one_of:\n        a: wait elapsed(0.1s)\n        b: serial:\n            c: wait elapsed(0.1s)\n    keep(c.duration == 0.1s)\n",
            "3 fault 321 main.osc:7:10\n",
        ),
        (
            "import osc.standard\naction go:\n    t: time\nscenario top:\n    do serial:\n        one_of:\n            a: wait elapsed(1s)\n            wait elapsed(2s)\n        go() with:\n            keep(it.t == a.duration)\n",
            "3 fault 321 main.osc:10:26\n",
        ),
        (
            "scenario top:\n    x: int\n    y: int\n    b: bool\n    f: float\n    keep(x * x * x * x * x == 1)\n",
            "3 fault 322 main.osc:6:24\n",
        ),
    ];
    answers_are(&rt, &rows)
}

#[test]
fn faults_of_limits_and_conditions(rt: HostRuntime) -> Result<(), Fail> {
    let rows: [(&str, &str); 8] = [
        (
            "import osc.standard\nscenario top:\n    d: length\n    keep(d == 1000001m)\n",
            "3 fault 325 main.osc:4:15\n",
        ),
        ("enum e: [a = 1000000001]\n", "3 fault 325 main.osc:1:14\n"),
        (
            "enum e: [a = 1000000000, b]\n",
            "3 fault 325 main.osc:1:26\n",
        ),
        (
            "enum e: [a, b]\nenum f: [b]\nscenario top:\n    k: e\n    keep(k == b)\n",
            "3 fault 326 main.osc:5:15\n",
        ),
        (
            "enum e: [a]\nenum f: [a]\nscenario top:\n    k: e = a\n",
            "3 fault 326 main.osc:4:12\n",
        ),
        (
            "scenario top:\n    v: list of int = [4, 5]\n    keep(v[2] == 6)\n",
            "3 fault 327 main.osc:3:11\n",
        ),
        (
            "scenario top:\n    v: list of int = [4, 5]\n    x: int\n    keep(v[0] == x[0])\n",
            "3 fault 327 main.osc:4:19\n",
        ),
        (
            "scenario top:\n    v: list of int = [4, 5]\n    x: int\n    keep(v[0][0] == 1)\n",
            "3 fault 327 main.osc:4:14\n",
        ),
    ];
    answers_are(&rt, &rows)
}

/// Fields and constraints of which only one run is an instance.
#[test]
fn scenarios_with_one_run(rt: HostRuntime) -> Result<(), Fail> {
    let rows: [(&str, &str); 7] = [
        (
            "scenario top:\n    y: float\n    keep(y == 1.5)\n",
            "0 {\"choices\":[],\"end\":0,\"form\":2,\"phases\":[],\"tick\":100,\"traces\":[],\"values\":[[\"y\",1500]]}\n",
        ),
        (
            "scenario top:\n    x: int = 3\n    keep(x in [3..3])\n",
            "0 {\"choices\":[],\"end\":0,\"form\":2,\"phases\":[],\"tick\":100,\"traces\":[],\"values\":[[\"x\",3]]}\n",
        ),
        (
            "scenario top:\n    x: int\n    keep(x in [3.0..3])\n",
            "0 {\"choices\":[],\"end\":0,\"form\":2,\"phases\":[],\"tick\":100,\"traces\":[],\"values\":[[\"x\",3]]}\n",
        ),
        (
            "scenario base\nscenario top inherits base\n",
            "0 {\"choices\":[],\"end\":0,\"form\":2,\"phases\":[],\"tick\":100,\"traces\":[],\"values\":[]}\n",
        ),
        (
            "scenario top\nextend top:\n    x: int\n    keep(x in [3..3])\n",
            "0 {\"choices\":[],\"end\":0,\"form\":2,\"phases\":[],\"tick\":100,\"traces\":[],\"values\":[[\"x\",3]]}\n",
        ),
        (
            "struct s:\n    y: float\nscenario top\n",
            "0 {\"choices\":[],\"end\":0,\"form\":2,\"phases\":[],\"tick\":100,\"traces\":[],\"values\":[]}\n",
        ),
        (
            "scenario other:\n    y: float\nscenario top\n",
            "0 {\"choices\":[],\"end\":0,\"form\":2,\"phases\":[],\"tick\":100,\"traces\":[],\"values\":[]}\n",
        ),
    ];
    answers_are(&rt, &rows)
}
