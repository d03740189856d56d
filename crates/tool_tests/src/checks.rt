//! What `command` says of runs.
use crate::answers::{RUN, SOURCE};
use crate::calls::{line_is, shelves_are, texts_are};
use std::alloc::{AllocError, Global};
use std::test::Fail;

const CHECK: &str = "check main.osc top run.json";

/// A vehicle that drives at 10 metres a second at each tick but the last.
const DRIVE: &str =
    "import osc.standard\nscenario top:\n    ego: vehicle\n    do ego.drive() with:\n        speed(10mps)\n";

/// A struct that has a load exactly if it is a truck, and is one.
const CARGO: &str =
    "enum kind: [car, truck]\nstruct body:\n    k: kind\nstruct cargo inherits body(k == truck):\n    load: int with:\n        keep(it in [2..2])\nscenario top:\n    b: body\n    keep(b.k == truck)\n";

/// A wait, and then one of two.
const WAITS: &str =
    "import osc.standard\nscenario top:\n    do serial:\n        wait elapsed(0.1s)\n        one_of:\n            wait elapsed(0.1s)\n            wait elapsed(0.2s)\n";

/// A member of a `one_of` overrides a default of the library.
const OVERRIDES: &str =
    "import osc.standard\nscenario top:\n    ego: vehicle\n    do one_of:\n        ego.drive(duration: 5s) with:\n            keep(ego.max_speed == 30mps)\n        wait elapsed(0.1s)\n";

#[test]
fn runs_of_a_field(rt: HostRuntime) -> Result<(), Fail> {
    let rows: [(&str, &str); 6] = [
        (RUN, "0 yes\n"),
        (
            "{\"choices\":[],\"end\":0,\"form\":1,\"phases\":[],\"traces\":[],\"values\":[[\"x\",4]]}\n",
            "1 no hard . main.osc:3:5\n",
        ),
        (
            "{\"choices\":[],\"end\":0,\"form\":1,\"phases\":[],\"traces\":[],\"values\":[[\"x\",1000000001]]}\n",
            "1 no bounds x\n",
        ),
        (
            "{\"choices\":[],\"end\":0,\"form\":1,\"phases\":[],\"traces\":[],\"values\":[]}\n",
            "1 no listed x\n",
        ),
        (
            "{\"choices\":[],\"end\":1,\"form\":1,\"phases\":[],\"traces\":[],\"values\":[[\"x\",3]]}\n",
            "1 no end .\n",
        ),
        (
            "{\"values\": [[\"x\", 3]], \"choices\": [], \"end\": 0, \"form\": 1, \"phases\": [], \"traces\": []}",
            "0 yes\n",
        ),
    ];
    let line = "check main.osc top run.json --ticks 1";
    texts_are(&rt, line, SOURCE, "run.json", &rows)
}

#[test]
fn runs_of_a_conditional_member(rt: HostRuntime) -> Result<(), Fail> {
    let rows: [(&str, &str); 3] = [
        (
            "{\"choices\":[],\"end\":0,\"form\":1,\"phases\":[],\"traces\":[],\"values\":[[\"b.k\",1],[\"b.load\",2]]}\n",
            "0 yes\n",
        ),
        (
            "{\"choices\":[],\"end\":0,\"form\":1,\"phases\":[],\"traces\":[],\"values\":[[\"b.k\",1]]}\n",
            "1 no listed b.load\n",
        ),
        (
            "{\"choices\":[],\"end\":0,\"form\":1,\"phases\":[],\"traces\":[],\"values\":[[\"b.k\",0]]}\n",
            "1 no hard . main.osc:9:5\n",
        ),
    ];
    let line = "check main.osc top run.json --ticks 1";
    texts_are(&rt, line, CARGO, "run.json", &rows)
}

/// The rows of `docs/FORMATS.md` are among them.
#[test]
fn runs_of_a_vehicle(rt: HostRuntime) -> Result<(), Fail> {
    let rows: [(&str, &str); 10] = [
        (
            "{\"choices\":[],\"end\":1,\"form\":2,\"phases\":[[\"do\",0,1]],\"tick\":100,\"traces\":[[\"ego\",[[1,0,10000],[1,1000000,10000]]]],\"values\":[[\"ego.max_speed\",50000],[\"ego.max_acceleration\",10000]]}\n",
            "0 yes\n",
        ),
        (
            "{\"choices\":[],\"end\":1,\"form\":2,\"phases\":[[\"do\",0,1]],\"tick\":100,\"traces\":[[\"ego\",[[1,0,10000],[1,1000000,11000]]]],\"values\":[[\"ego.max_speed\",50000],[\"ego.max_acceleration\",10000]]}\n",
            "0 yes\n",
        ),
        (
            "{\"choices\":[],\"end\":1,\"form\":2,\"phases\":[[\"do\",0,1]],\"tick\":100,\"traces\":[[\"ego\",[[1,0,10000],[1,1000000,11001]]]],\"values\":[[\"ego.max_speed\",50000],[\"ego.max_acceleration\",10000]]}\n",
            "1 no motion ego\n",
        ),
        (
            "{\"choices\":[],\"end\":1,\"form\":2,\"phases\":[[\"do\",0,1]],\"tick\":100,\"traces\":[[\"ego\",[[1,0,9999],[1,999900,10000]]]],\"values\":[[\"ego.max_speed\",50000],[\"ego.max_acceleration\",10000]]}\n",
            "1 no modifier do main.osc:5:9\n",
        ),
        (
            "{\"choices\":[],\"end\":1,\"form\":2,\"phases\":[[\"do\",0,1]],\"tick\":50,\"traces\":[[\"ego\",[[1,0,10000],[1,1000000,10000]]]],\"values\":[[\"ego.max_speed\",50000],[\"ego.max_acceleration\",10000]]}\n",
            "1 no end do\n",
        ),
        ("{\"choices\":[", "5 text json\n"),
        (
            "{\"choices\":[],\"end\":\"1\",\"form\":2,\"phases\":[[\"do\",0,1]],\"tick\":100,\"traces\":[[\"ego\",[[1,0,10000],[1,1000000,10000]]]],\"values\":[[\"ego.max_speed\",50000],[\"ego.max_acceleration\",10000]]}\n",
            "5 text /end\n",
        ),
        (
            "{\"choices\":[],\"end\":1,\"form\":2,\"phases\":[[\"do\",0,1]],\"tick\":9,\"traces\":[[\"ego\",[[1,0,10000],[1,1000000,10000]]]],\"values\":[[\"ego.max_speed\",50000],[\"ego.max_acceleration\",10000]]}\n",
            "5 text /tick\n",
        ),
        (
            "{\"choices\":[],\"end\":1,\"form\":1,\"phases\":[[\"do\",0,1]],\"traces\":[[\"ego\",[[1,0,10000],[1,1000000,10000]]]],\"values\":[[\"ego.max_speed\",50000],[\"ego.max_acceleration\",10000]]}\n",
            "0 yes\n",
        ),
        (
            "{\"choices\":[],\"end\":1,\"form\":1,\"phases\":[[\"do\",0,1]],\"tick\":100,\"traces\":[[\"ego\",[[1,0,10000],[1,1000000,10000]]]],\"values\":[[\"ego.max_speed\",50000],[\"ego.max_acceleration\",10000]]}\n",
            "5 text /tick\n",
        ),
    ];
    let line = "check main.osc top run.json --ticks 1";
    texts_are(&rt, line, DRIVE, "run.json", &rows)
}

#[test]
fn runs_of_phases(rt: HostRuntime) -> Result<(), Fail> {
    let rows: [(&str, &str); 6] = [
        (
            "{\"choices\":[[\"do[1]\",1]],\"end\":3,\"form\":1,\"phases\":[[\"do\",0,3],[\"do[0]\",0,1],[\"do[1]\",1,3],[\"do[1][1]\",1,3]],\"traces\":[],\"values\":[]}\n",
            "0 yes\n",
        ),
        (
            "{\"choices\":[[\"do[1]\",0]],\"end\":2,\"form\":1,\"phases\":[[\"do\",0,2],[\"do[0]\",0,1],[\"do[1]\",1,2],[\"do[1][0]\",1,2]],\"traces\":[],\"values\":[]}\n",
            "0 yes\n",
        ),
        (
            "{\"choices\":[[\"do[1]\",0]],\"end\":3,\"form\":1,\"phases\":[[\"do\",0,3],[\"do[0]\",0,1],[\"do[1]\",2,3],[\"do[1][0]\",2,3]],\"traces\":[],\"values\":[]}\n",
            "1 no arranged do\n",
        ),
        (
            "{\"choices\":[[\"do[1]\",0]],\"end\":3,\"form\":1,\"phases\":[[\"do\",0,3],[\"do[0]\",0,2],[\"do[1]\",2,3],[\"do[1][0]\",2,3]],\"traces\":[],\"values\":[]}\n",
            "1 no hard do[0] main.osc:4:22\n",
        ),
        (
            "{\"choices\":[[\"do[1]\",0]],\"end\":3,\"form\":1,\"phases\":[[\"do\",0,3],[\"do[0]\",0,1],[\"do[1]\",1,3],[\"do[1][1]\",1,3]],\"traces\":[],\"values\":[]}\n",
            "1 no listed do[1][0]\n",
        ),
        (
            "{\"choices\":[[\"do[1]\",2]],\"end\":3,\"form\":1,\"phases\":[[\"do\",0,3],[\"do[0]\",0,1],[\"do[1]\",1,3]],\"traces\":[],\"values\":[]}\n",
            "1 no bounds do[1]\n",
        ),
    ];
    let line = "check main.osc top run.json --ticks 3";
    texts_are(&rt, line, WAITS, "run.json", &rows)
}

#[test]
fn defaults_that_one_member_overrides(rt: HostRuntime) -> Result<(), Fail> {
    let rows: [(&str, &str); 3] = [
        (
            "{\"choices\":[[\"do\",1]],\"end\":1,\"form\":1,\"phases\":[[\"do\",0,1],[\"do[1]\",0,1]],\"traces\":[[\"ego\",[[1,0,0],[1,0,0]]]],\"values\":[[\"ego.max_speed\",50000],[\"ego.max_acceleration\",10000]]}\n",
            "0 yes\n",
        ),
        (
            "{\"choices\":[[\"do\",1]],\"end\":1,\"form\":1,\"phases\":[[\"do\",0,1],[\"do[1]\",0,1]],\"traces\":[[\"ego\",[[1,0,0],[1,0,0]]]],\"values\":[[\"ego.max_speed\",30000],[\"ego.max_acceleration\",10000]]}\n",
            "1 no default ego osc:14:24\n",
        ),
        (
            "{\"choices\":[[\"do\",0]],\"end\":1,\"form\":1,\"phases\":[[\"do\",0,1],[\"do[0]\",0,1]],\"traces\":[[\"ego\",[[1,0,0],[1,0,0]]]],\"values\":[[\"ego.max_speed\",30000],[\"ego.max_acceleration\",10000]]}\n",
            "1 no hard do[0] main.osc:5:29\n",
        ),
    ];
    let line = "check main.osc top run.json --ticks 10";
    texts_are(&rt, line, OVERRIDES, "run.json", &rows)
}

#[test]
fn texts_that_are_no_run(rt: HostRuntime) -> Result<(), Fail> {
    let rows: [(&str, &str); 8] = [
        ("", "5 text json\n"),
        ("{}", "5 text /choices\n"),
        ("{\"choices\":[[\"do\"]]}", "5 text /choices/0\n"),
        (
            "{\"choices\":[],\"end\":0,\"form\":1,\"phases\":[[\"do\",0,-1]]}",
            "5 text /phases/0/2\n",
        ),
        (
            "{\"choices\":[],\"end\":0,\"form\":1,\"phases\":[],\"traces\":[[\"a\",[[1,0,0.5]]]]}",
            "5 text /traces/0/1/0/2\n",
        ),
        (
            "{\"choices\":[],\"end\":0,\"form\":1,\"phases\":[],\"traces\":[],\"values\":[[\"x\",3],[\".\",3]]}",
            "5 text /values/1/0\n",
        ),
        (
            "{\"a\":0,\"choices\":[],\"end\":0,\"form\":1,\"phases\":[],\"traces\":[],\"values\":[[\"x\",3]]}\n",
            "5 text /a\n",
        ),
        (
            "{\"choices\":[],\"end\":0,\"form\":3,\"phases\":[],\"traces\":[],\"values\":[[\"x\",3]]}\n",
            "5 text /form\n",
        ),
    ];
    let line = "check main.osc top run.json --ticks 1";
    texts_are(&rt, line, SOURCE, "run.json", &rows)
}

/// A scenario of this many vehicles, one of which there is always.
fn vehicles(alloc: Global, count: u32) -> Result<String, AllocError> {
    let mut source = String::from_str(alloc, "import osc.standard\nscenario top:\n    a")?;
    for number in 1..count {
        write!(source, ", a{number}")?;
    }
    write!(source, ": vehicle\n")?;
    Ok(source)
}

/// A vehicle has 1,805 slots in 600 ticks, and a scene 65,536 at most. Too many are told before the file of the run is
/// looked for.
#[test]
fn scenarios_that_are_too_large(rt: HostRuntime) -> Result<(), Fail> {
    let line = "check main.osc top run.json --ticks 600";
    for (count, want) in [
        (36, "6 missing run.json\n"),
        (37, "3 fault 323 main.osc:2:10\n"),
    ] {
        let source = vehicles(rt.alloc(), count)?;
        let files = [("main.osc", source.as_str().as_bytes())];
        line_is(&rt, line, &files, want, want)?;
    }
    Ok(())
}

/// The source is refused before the file of the run is looked for.
#[test]
fn refusals_before_the_run(rt: HostRuntime) -> Result<(), Fail> {
    let rows: [(&str, &str, &str); 5] = [
        (CHECK, SOURCE, "6 missing run.json\n"),
        (CHECK, "scenario other\n", "3 fault 324 main.osc:2:1\n"),
        (
            CHECK,
            "scenario top:\n    x int\n",
            "3 fault 201 main.osc:2:7\n",
        ),
        ("check main.osc top", SOURCE, "4 words\n"),
        (
            "check none.osc top run.json",
            SOURCE,
            "6 missing none.osc\n",
        ),
    ];
    for (line, source, want) in rows {
        line_is(&rt, line, &[("main.osc", source.as_bytes())], want, source)?;
    }
    Ok(())
}

#[test]
fn files_of_runs(rt: HostRuntime) -> Result<(), Fail> {
    let long = vec![in rt.alloc(); b' '; 16_777_217]?;
    let rows: [(&[u8], &str); 3] = [
        (long.as_slice(), "6 long run.json\n"),
        (&long[1..], "5 text json\n"),
        (b"\xff".as_slice(), "5 text json\n"),
    ];
    for (bytes, want) in rows {
        let files = [("main.osc", SOURCE.as_bytes()), ("run.json", bytes)];
        line_is(&rt, CHECK, &files, want, want)?;
    }
    Ok(())
}

#[test]
fn shelf_that_fails_at_the_run(rt: HostRuntime) -> Result<(), Fail> {
    let words = ["check", "main.osc", "top", "run.json"];
    let files = [
        ("main.osc", SOURCE.as_bytes()),
        ("run.json", RUN.as_bytes()),
    ];
    let wants = [
        "6 shelf main.osc\n",
        "6 shelf main.osc\n",
        "6 shelf main.osc\n",
        "6 shelf run.json\n",
        "6 shelf run.json\n",
        "6 shelf run.json\n",
    ];
    shelves_are(&rt, &words, &files, &wants)
}
