//! Objects: members under a condition, inheritance, extensions, other names, and behaviours.

use crate::cases::{Case, Wanted, answer_to, answers_are, cases_hold};
use std::test::Fail;

/// A struct that has a load exactly if it is a truck.
const EITHER: &str = "enum kind: [car, truck]
struct body:
    k: kind
struct cargo inherits body(k == truck):
    load: int with:
        keep(it in [2..2])
scenario top:
    b: body
";

const CONDITIONS: [Case; 5] = [
    Case {
        source: "enum kind: [car, truck]
struct body:
    k: kind
struct cargo inherits body(k == truck):
    load: int with:
        keep(it in [2..2])
scenario top:
    b: body
    keep(b.k == truck)
",
        setting: "",
        wanted: Wanted::Values(r#"[["b.k",1],["b.load",2]]"#),
    },
    Case {
        source: "enum kind: [car, truck]
struct body:
    k: kind
struct cargo inherits body(k == truck):
    load: int with:
        keep(it in [2..2])
scenario top:
    b: body
    keep(b.k == car)
",
        setting: "",
        wanted: Wanted::Values(r#"[["b.k",0]]"#),
    },
    Case {
        source: "enum kind: [car, truck]
struct body:
    k: kind
struct cargo inherits body(k == truck):
    load: int with:
        keep(it in [2..2])
scenario top:
    b: cargo
",
        setting: "",
        wanted: Wanted::Values(r#"[["b.k",1],["b.load",2]]"#),
    },
    Case {
        source: "enum kind: [car, truck]
struct body:
    k: kind
    wide: bool
struct cargo inherits body(k == kind!truck):
    load: int = 2
struct low inherits cargo(wide == true):
    deck: int = 3
scenario top:
    a, b: body with:
        keep(it.k == truck)
    keep(a.wide)
    keep(not b.wide)
",
        setting: "",
        wanted: Wanted::Values(
            r#"[["a.k",1],["a.wide",1],["a.load",2],["a.deck",3],["b.k",1],["b.wide",0],["b.load",2]]"#,
        ),
    },
    Case {
        source: "import osc.standard
struct place:
    taken: bool
struct taken_place inherits place(taken == true):
    who: vehicle
scenario top:
    p, q: place
    keep(p.taken)
    keep(q.taken == false)
",
        setting: "--ticks 1 --lanes 1",
        wanted: Wanted::Ends(
            r#"0 {"choices":[],"end":0,"form":2,"phases":[],"tick":100,"traces":[["p.who",[[1,"#,
            "]]]],\"values\":[[\"p.taken\",1],[\"p.who.max_speed\",50000],[\"p.who.max_acceleration\",10000],[\"q.taken\",0]]}\n",
            11,
        ),
    },
];

#[test]
fn members_under_a_condition(rt: HostRuntime) -> Result<(), Fail> {
    cases_hold(&rt, &CONDITIONS)
}

/// A constraint that reads what isn't there isn't there either.
const BEHAVIOURS: [Case; 2] = [
    Case {
        source: "actor robot:
    tall: bool
actor crane inherits robot(tall == true):
    arm: int = 4
action go:
    fast: bool
action run inherits go(fast == true):
    n: int = 3
scenario top:
    r: robot
    keep(r.tall)
    do serial:
        go(fast: true)
        go(fast: false) with:
            keep(it.n == 5)
",
        setting: "--ticks 2",
        wanted: Wanted::Whole(
            "0 {\"choices\":[],\"end\":2,\"form\":2,\"phases\":[[\"do\",0,2],[\"do[0]\",0,1],[\"do[1]\",1,2]],\"tick\":100,\"traces\":[],\"values\":[[\"r.tall\",1],[\"r.arm\",4],[\"do[0].fast\",1],[\"do[0].n\",3],[\"do[1].fast\",0]]}\n",
        ),
    },
    Case {
        source: "scenario s:
    f: bool
actor b:
    x: int = 2
scenario b.u inherits s(f == true):
    keep(actor.x == 1)
scenario top:
    c: b
    do serial:
        s(f: true)
        c.u(f: true)
",
        setting: "--ticks 2",
        wanted: Wanted::Whole(
            "0 {\"choices\":[],\"end\":2,\"form\":2,\"phases\":[[\"do\",0,2],[\"do[0]\",0,1],[\"do[1]\",1,2]],\"tick\":100,\"traces\":[],\"values\":[[\"c.x\",1],[\"do[0].f\",1],[\"do[1].f\",1]]}\n",
        ),
    },
];

#[test]
fn behaviours_under_a_condition(rt: HostRuntime) -> Result<(), Fail> {
    cases_hold(&rt, &BEHAVIOURS)
}

/// Of 64 seeds, some give the one and some the other.
#[test]
fn seeds_that_choose_a_condition(rt: HostRuntime) -> Result<(), Fail> {
    let alloc = rt.alloc();
    let mut saw_car = false;
    let mut saw_truck = false;
    for seed in 0..64 {
        let line = format!(in alloc; "generate main.osc top --seed {seed}")?;
        let got = answer_to(alloc, line.as_str(), EITHER, "")?;
        let got = got.as_str();
        let is_car = got.ends_with("\"values\":[[\"b.k\",0]]}\n");
        let is_truck = got.ends_with("\"values\":[[\"b.k\",1],[\"b.load\",2]]}\n");
        assert!(rt; is_car || is_truck, "seed {seed}: {got}");
        saw_car = saw_car || is_car;
        saw_truck = saw_truck || is_truck;
    }
    assert!(rt; saw_car && saw_truck);
    Ok(())
}

const HEIRS: [Case; 3] = [
    Case {
        source: "struct base:
    a: int = 1
struct heir inherits base:
    b: int = 2
extend base:
    c: int = 3
scenario root:
    h: heir
scenario top inherits root:
    n: int = 4
extend top:
    m: int
    keep(m == h.a + h.b + h.c + n)
",
        setting: "",
        wanted: Wanted::Values(r#"[["h.a",1],["h.c",3],["h.b",2],["n",4],["m",10]]"#),
    },
    Case {
        source: "actor robot:
    load: int = 5
actor lifter inherits robot:
    arm: int = 1
action robot.go:
    n: int
    keep(n == actor.load)
action lifter.lift inherits robot.go:
    m: int = 7
action lifter.go:
    n: int = 8
extend robot.go:
    k: int = 6
extend robot:
    age: int = 9
scenario top:
    a: robot
    b: lifter
    do serial:
        a.go()
        b.go()
        b.lift()
",
        setting: "--ticks 3",
        wanted: Wanted::Whole(
            "0 {\"choices\":[],\"end\":3,\"form\":2,\"phases\":[[\"do\",0,3],[\"do[0]\",0,1],[\"do[1]\",1,2],[\"do[2]\",2,3]],\"tick\":100,\"traces\":[],\"values\":[[\"a.load\",5],[\"a.age\",9],[\"b.load\",5],[\"b.age\",9],[\"b.arm\",1],[\"do[0].n\",5],[\"do[0].k\",6],[\"do[1].n\",8],[\"do[2].n\",5],[\"do[2].k\",6],[\"do[2].m\",7]]}\n",
        ),
    },
    Case {
        source: "import osc.standard
actor robot:
    load: int
action robot.go:
    weight: int
    keep(actor.load >= weight)
scenario top:
    r: robot
    keep(r.load == 5)
    do serial:
        r.go(weight: 4, duration: 0.2s)
        wait elapsed(0.1s)
",
        setting: "--ticks 10",
        wanted: Wanted::Whole(
            "0 {\"choices\":[],\"end\":3,\"form\":2,\"phases\":[[\"do\",0,3],[\"do[0]\",0,2],[\"do[1]\",2,3]],\"tick\":100,\"traces\":[],\"values\":[[\"r.load\",5],[\"do[0].weight\",4]]}\n",
        ),
    },
];

#[test]
fn heirs_and_extensions(rt: HostRuntime) -> Result<(), Fail> {
    cases_hold(&rt, &HEIRS)
}

const ARGUMENTS: [Case; 4] = [
    Case {
        source: "actor robot:
    load: int
    keep(load in [0..1])
scenario pair:
    a, b: robot
    keep(a.load < b.load)
scenario top:
    x, y: robot
    do pair(a: y, b: x)
",
        setting: "--ticks 1",
        wanted: Wanted::Whole(
            "0 {\"choices\":[],\"end\":1,\"form\":2,\"phases\":[[\"do\",0,1]],\"tick\":100,\"traces\":[],\"values\":[[\"x.load\",1],[\"y.load\",0]]}\n",
        ),
    },
    Case {
        source: "struct item:
    n: int
struct tool inherits item:
    m: int = 1
actor robot:
    load: int = 2
action robot.take:
    what: item
    keep(what.n == actor.load)
scenario robot.twice:
    one: item
    two: tool
    do serial:
        actor.take(one)
        actor.take(what: two)
scenario top:
    r: robot
    i: item
    do r.twice(one: i)
",
        setting: "--ticks 2",
        wanted: Wanted::Whole(
            "0 {\"choices\":[],\"end\":2,\"form\":2,\"phases\":[[\"do\",0,2],[\"do.do\",0,2],[\"do.do[0]\",0,1],[\"do.do[1]\",1,2]],\"tick\":100,\"traces\":[],\"values\":[[\"r.load\",2],[\"i.n\",2],[\"do.two.n\",2],[\"do.two.m\",1]]}\n",
        ),
    },
    Case {
        source: "action go:
    n, m: int
    k: float
    s: string
    b: bool
scenario top:
    c: int = 4
    do go(c, [7..7], b: c > 3, k: c / 8, s: 'x') with:
        keep(it.n == c)
        keep(default it.m == 7)
",
        setting: "--ticks 1",
        wanted: Wanted::Whole(
            "0 {\"choices\":[],\"end\":1,\"form\":2,\"phases\":[[\"do\",0,1]],\"tick\":100,\"traces\":[],\"values\":[[\"c\",4],[\"do.n\",4],[\"do.m\",7],[\"do.k\",500],[\"do.s\",\"x\"],[\"do.b\",1]]}\n",
        ),
    },
    Case {
        source: "import osc.standard
scenario pass:
    car: vehicle
    keep(car.max_speed == 30mps)
    do car.drive()
scenario top:
    ego: vehicle
    do pass(car: ego)
",
        setting: "--ticks 1",
        wanted: Wanted::Ends(
            r#"0 {"choices":[],"end":1,"form":2,"phases":[["do",0,1],["do.do",0,1]],"tick":100,"traces":[["ego",[["#,
            "]]]],\"values\":[[\"ego.max_speed\",30000],[\"ego.max_acceleration\",10000]]}\n",
            12,
        ),
    },
];

#[test]
fn objects_under_other_names(rt: HostRuntime) -> Result<(), Fail> {
    cases_hold(&rt, &ARGUMENTS)
}

/// The actor that nothing invokes is an object of its own.
#[test]
fn scenarios_of_an_actor(rt: HostRuntime) -> Result<(), Fail> {
    let source = "actor robot:
    load: int = 5
action robot.go:
    weight: int
    keep(actor.load >= weight)
scenario robot.tour:
    keep(actor.load == 3)
    do actor.go(weight: [3..9])
";
    answers_are(
        &rt,
        &[
            (
                "generate main.osc robot.tour --ticks 1",
                source,
                "0 {\"choices\":[],\"end\":1,\"form\":2,\"phases\":[[\"do\",0,1]],\"tick\":100,\"traces\":[],\"values\":[[\"actor.load\",3],[\"do.weight\",3]]}\n",
            ),
            (
                "flat main.osc robot.tour --ticks 1",
                source,
                "0 slots 4\nstart do 0 1\nend do 0 1\nvalue actor.load -1000000000 1000000000\nvalue do.weight -1000000000 1000000000\nrules 5\ndefault main.osc:2:17\nhard main.osc:5:5\nhard main.osc:8:25\nhard main.osc:7:5\narranged do\n",
            ),
        ],
    )
}
