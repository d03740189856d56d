//! Phases: how each kind is arranged, durations, labels and choices.

use crate::cases::{Case, Wanted, cases_hold};
use std::test::Fail;

const OVERLAPS: [Case; 5] = [
    Case {
        source: "import osc.standard
scenario top:
    do parallel:
        wait elapsed(0.2s)
        wait elapsed(0.3s)
",
        setting: "--ticks 9",
        wanted: Wanted::Whole(
            "0 {\"choices\":[],\"end\":3,\"form\":2,\"phases\":[[\"do\",0,3],[\"do[0]\",0,2],[\"do[1]\",0,3]],\"tick\":100,\"traces\":[],\"values\":[]}\n",
        ),
    },
    Case {
        source: "import osc.standard
scenario top:
    do parallel(overlap: start):
        wait elapsed(0.2s)
        wait elapsed(0.3s)
",
        setting: "--ticks 9",
        wanted: Wanted::Whole(
            "0 {\"choices\":[],\"end\":3,\"form\":2,\"phases\":[[\"do\",0,3],[\"do[0]\",0,2],[\"do[1]\",0,3]],\"tick\":100,\"traces\":[],\"values\":[]}\n",
        ),
    },
    Case {
        source: "import osc.standard
scenario top:
    do parallel(overlap: end):
        wait elapsed(0.2s)
        wait elapsed(0.3s)
",
        setting: "--ticks 9",
        wanted: Wanted::Whole(
            "0 {\"choices\":[],\"end\":3,\"form\":2,\"phases\":[[\"do\",0,3],[\"do[0]\",1,3],[\"do[1]\",0,3]],\"tick\":100,\"traces\":[],\"values\":[]}\n",
        ),
    },
    Case {
        source: "import osc.standard
scenario top:
    do parallel(overlap: equal):
        wait elapsed([0.1s..0.5s])
        wait elapsed(0.3s)
",
        setting: "--ticks 9",
        wanted: Wanted::Whole(
            "0 {\"choices\":[],\"end\":3,\"form\":2,\"phases\":[[\"do\",0,3],[\"do[0]\",0,3],[\"do[1]\",0,3]],\"tick\":100,\"traces\":[],\"values\":[]}\n",
        ),
    },
    Case {
        source: "import osc.standard
scenario top:
    do parallel(duration: 0.5s, overlap: any):
        wait elapsed(0.2s)
        wait elapsed(0.3s)
",
        setting: "--ticks 9",
        wanted: Wanted::Ends(
            r#"0 {"choices":[],"end":5,"form":2,"phases":[["do",0,5],["do[0]","#,
            "]],\"tick\":100,\"traces\":[],\"values\":[]}\n",
            9,
        ),
    },
];

#[test]
fn phases_that_overlap(rt: HostRuntime) -> Result<(), Fail> {
    cases_hold(&rt, &OVERLAPS)
}

/// Two phases of 0.3 s don't fit one after the other, and they need a shared tick.
const APART: [Case; 2] = [
    Case {
        source: "import osc.standard
scenario top:
    do parallel(overlap: any):
        wait elapsed(0.3s)
        wait elapsed(0.3s)
    keep(duration >= 0.7s)
",
        setting: "--ticks 9",
        wanted: Wanted::Ends("1 osc-refutation 1\nslots 6\nrules 6\nroom ", "end\n", 0),
    },
    Case {
        source: "import osc.standard
scenario top:
    do parallel(overlap: equal):
        wait elapsed(0.2s)
        wait elapsed(0.3s)
",
        setting: "--ticks 9",
        wanted: Wanted::Ends("1 osc-refutation 1\nslots 6\nrules 5\nroom ", "end\n", 0),
    },
];

#[test]
fn phases_that_cannot_overlap(rt: HostRuntime) -> Result<(), Fail> {
    cases_hold(&rt, &APART)
}

const DURATIONS: [Case; 4] = [
    Case {
        source: "import osc.standard
scenario top:
    do serial(duration: 0.5s):
        wait elapsed([0.1s..0.2s])
        one_of(duration: 0.3s):
            wait elapsed(0.2s)
            wait elapsed(range(0.1s, 9s))
",
        setting: "--ticks 9",
        wanted: Wanted::Whole(
            "0 {\"choices\":[[\"do[1]\",1]],\"end\":5,\"form\":2,\"phases\":[[\"do\",0,5],[\"do[0]\",0,2],[\"do[1]\",2,5],[\"do[1][1]\",2,5]],\"tick\":100,\"traces\":[],\"values\":[]}\n",
        ),
    },
    Case {
        source: "import osc.standard
scenario top:
    do serial(duration: [0.5s..0.5s]):
        a: wait elapsed([0.1s..0.4s])
        b: wait elapsed([0.1s..0.4s])
    keep(a.duration == b.duration + 0.1s)
    keep(duration > 0.4s)
",
        setting: "--ticks 9",
        wanted: Wanted::Whole(
            "0 {\"choices\":[],\"end\":5,\"form\":2,\"phases\":[[\"do\",0,5],[\"do[0]\",0,3],[\"do[1]\",3,5]],\"tick\":100,\"traces\":[],\"values\":[]}\n",
        ),
    },
    Case {
        source: "import osc.standard
action go:
    keep(default duration == 0.2s)
scenario top:
    do serial:
        go()
        go() with:
            keep(it.duration == 0.3s)
        go(duration: [0.4s..0.4s])
        go(duration: 0.1s)
        go() with:
            remove_default(it.duration)
            keep(it.duration + 0s == 0.5s)
",
        setting: "--ticks 20",
        wanted: Wanted::Whole(
            "0 {\"choices\":[],\"end\":15,\"form\":2,\"phases\":[[\"do\",0,15],[\"do[0]\",0,2],[\"do[1]\",2,5],[\"do[2]\",5,9],[\"do[3]\",9,10],[\"do[4]\",10,15]],\"tick\":100,\"traces\":[],\"values\":[]}\n",
        ),
    },
    Case {
        source: "import osc.standard
scenario part:
    n: int = 1
    do serial:
        wait elapsed(0.1s)
        first: parallel:
            wait elapsed(0.1s)
            inner: wait elapsed(0.2s)
    keep(inner.duration == first.duration)
scenario rest:
    t: time
    keep(t == duration)
scenario top:
    do serial:
        part()
        rest(t: 0.1s)
        part(n: 2)
",
        setting: "--ticks 7",
        wanted: Wanted::Whole(
            "0 {\"choices\":[],\"end\":7,\"form\":2,\"phases\":[[\"do\",0,7],[\"do[0]\",0,3],[\"do[0].do\",0,3],[\"do[0].do[0]\",0,1],[\"do[0].do[1]\",1,3],[\"do[0].do[1][0]\",1,2],[\"do[0].do[1][1]\",1,3],[\"do[1]\",3,4],[\"do[2]\",4,7],[\"do[2].do\",4,7],[\"do[2].do[0]\",4,5],[\"do[2].do[1]\",5,7],[\"do[2].do[1][0]\",5,6],[\"do[2].do[1][1]\",5,7]],\"tick\":100,\"traces\":[],\"values\":[[\"do[0].n\",1],[\"do[1].t\",100],[\"do[2].n\",2]]}\n",
        ),
    },
];

#[test]
fn durations_and_labels(rt: HostRuntime) -> Result<(), Fail> {
    cases_hold(&rt, &DURATIONS)
}

const CHOICES: [Case; 4] = [
    Case {
        source: "import osc.standard
scenario top:
    ego: vehicle
    do one_of:
        ego.drive(duration: 5s) with:
            keep(ego.max_speed == 30mps)
        wait elapsed(0.1s)
",
        setting: "--ticks 10",
        wanted: Wanted::Ends(
            r#"0 {"choices":[["do",1]],"end":1,"form":2,"phases":[["do",0,1],["do[1]",0,1]],"tick":100,"traces":[["ego",[["#,
            "]]]],\"values\":[[\"ego.max_speed\",50000],[\"ego.max_acceleration\",10000]]}\n",
            14,
        ),
    },
    Case {
        source: "action go:
    n: int = 1
action stay:
    m: int = 2
scenario top:
    x: int
    do one_of:
        go() with:
            keep(x == it.n)
        one_of:
            stay() with:
                keep(x == it.m)
            go(n: 3) with:
                keep(x == it.n)
    keep(x > 2)
",
        setting: "--ticks 1",
        wanted: Wanted::Whole(
            "0 {\"choices\":[[\"do\",1],[\"do[1]\",1]],\"end\":1,\"form\":2,\"phases\":[[\"do\",0,1],[\"do[1]\",0,1],[\"do[1][1]\",0,1]],\"tick\":100,\"traces\":[],\"values\":[[\"x\",3],[\"do[1][1].n\",3]]}\n",
        ),
    },
    Case {
        source: "import osc.standard
action go:
    t: time
scenario top:
    do one_of:
        serial:
            a: wait elapsed(0.2s)
            go(t: a.duration, duration: 0.1s)
        wait elapsed(9s)
",
        setting: "--ticks 3",
        wanted: Wanted::Whole(
            "0 {\"choices\":[[\"do\",0]],\"end\":3,\"form\":2,\"phases\":[[\"do\",0,3],[\"do[0]\",0,3],[\"do[0][0]\",0,2],[\"do[0][1]\",2,3]],\"tick\":100,\"traces\":[],\"values\":[[\"do[0][1].t\",200]]}\n",
        ),
    },
    Case {
        source: "import osc.standard
scenario top:
    do one_of:
        wait elapsed(0.2s)
        wait elapsed(0.3s)
    keep(duration < 0.2s)
",
        setting: "--ticks 9",
        wanted: Wanted::Ends("1 osc-refutation 1\nslots 7\nrules 6\nroom ", "end\n", 0),
    },
];

#[test]
fn choices(rt: HostRuntime) -> Result<(), Fail> {
    cases_hold(&rt, &CHOICES)
}
