//! Ticks of a length of their own, and runs of both forms.
use crate::answers::{RUN, SOURCE};
use crate::calls::{call_has, call_is, lines_are, shelves_are};
use answer_tests::SOUND;
use std::test::Fail;

/// The run of `SOURCE` as text of form 1.
const FIRST: &str =
    "{\"choices\":[],\"end\":0,\"form\":1,\"phases\":[],\"traces\":[],\"values\":[[\"x\",3]]}\n";

/// A wait of a tenth of a second.
const WAIT: &str = "import osc.standard\nscenario top:\n    do wait elapsed(0.1s)\n";

/// The run of `WAIT` with ticks of 50 milliseconds.
const TWO_TICKS: &str =
    "{\"choices\":[],\"end\":2,\"form\":2,\"phases\":[[\"do\",0,2]],\"tick\":50,\"traces\":[],\"values\":[]}\n";

/// Its run with ticks of 100 milliseconds, as text of form 1.
const ONE_TICK: &str =
    "{\"choices\":[],\"end\":1,\"form\":1,\"phases\":[[\"do\",0,1]],\"traces\":[],\"values\":[]}\n";

/// A vehicle that drives at 10 metres a second at each tick but the last.
const DRIVE: &str =
    "import osc.standard\nscenario top:\n    ego: vehicle\n    do ego.drive() with:\n        speed(10mps)\n";

#[test]
fn durations(rt: HostRuntime) -> Result<(), Fail> {
    let alloc = rt.alloc();
    let want = format!(in alloc; "0 {TWO_TICKS}")?;
    let rows: [(&str, &str, &str); 6] = [
        (
            "generate main.osc top --ticks 10 --tick 50",
            "",
            want.as_str(),
        ),
        (
            "check main.osc top run.json --ticks 10 --tick 50",
            TWO_TICKS,
            "0 yes\n",
        ),
        (
            "check main.osc top run.json --ticks 10",
            TWO_TICKS,
            "1 no end do\n",
        ),
        (
            "check main.osc top run.json --ticks 10",
            ONE_TICK,
            "0 yes\n",
        ),
        (
            "check main.osc top run.json --ticks 10 --tick 50",
            ONE_TICK,
            "1 no end do\n",
        ),
        (
            "generate main.osc top --tick 50 --ticks 1",
            "",
            "1 osc-refutation 1\nslots 2\nrules 2\nroom 0\nclose 0\nend\n",
        ),
    ];
    lines_are(&rt, WAIT, &rows)?;
    let words = ["generate", "main.osc", "top", "--tick", "30"];
    let main = [("main.osc", WAIT.as_bytes())];
    call_has(&rt, &words, &main, "1 osc-refutation 1\n", "", "")
}

/// In a tick of 50 milliseconds a vehicle goes half as far, and its speed changes half as much.
#[test]
fn motion(rt: HostRuntime) -> Result<(), Fail> {
    let line = "check main.osc top run.json --ticks 1 --tick 50";
    let rows: [(&str, &str, &str); 3] = [
        (
            line,
            "{\"choices\":[],\"end\":1,\"form\":2,\"phases\":[[\"do\",0,1]],\"tick\":50,\"traces\":[[\"ego\",[[1,0,10000],[1,500000,10500]]]],\"values\":[[\"ego.max_speed\",50000],[\"ego.max_acceleration\",10000]]}\n",
            "0 yes\n",
        ),
        (
            line,
            "{\"choices\":[],\"end\":1,\"form\":2,\"phases\":[[\"do\",0,1]],\"tick\":50,\"traces\":[[\"ego\",[[1,0,10000],[1,500000,10501]]]],\"values\":[[\"ego.max_speed\",50000],[\"ego.max_acceleration\",10000]]}\n",
            "1 no motion ego\n",
        ),
        (
            line,
            "{\"choices\":[],\"end\":1,\"form\":2,\"phases\":[[\"do\",0,1]],\"tick\":50,\"traces\":[[\"ego\",[[1,0,10000],[1,1000000,10000]]]],\"values\":[[\"ego.max_speed\",50000],[\"ego.max_acceleration\",10000]]}\n",
            "1 no motion ego\n",
        ),
    ];
    lines_are(&rt, DRIVE, &rows)
}

#[test]
fn texts_of_both_forms(rt: HostRuntime) -> Result<(), Fail> {
    let line = "check main.osc top run.json --ticks 1";
    let rows: [(&str, &str, &str); 10] = [
        (line, FIRST, "0 yes\n"),
        (line, RUN, "0 yes\n"),
        (
            line,
            "{\"choices\":[],\"end\":0,\"form\":2,\"phases\":[],\"traces\":[],\"values\":[[\"x\",3]]}\n",
            "5 text /tick\n",
        ),
        (
            line,
            "{\"choices\":[],\"end\":0,\"form\":2,\"phases\":[],\"tick\":9,\"traces\":[],\"values\":[[\"x\",3]]}\n",
            "5 text /tick\n",
        ),
        (
            line,
            "{\"choices\":[],\"end\":0,\"form\":2,\"phases\":[],\"tick\":1001,\"traces\":[],\"values\":[[\"x\",3]]}\n",
            "5 text /tick\n",
        ),
        (
            line,
            "{\"choices\":[],\"end\":0,\"form\":2,\"phases\":[],\"tick\":1000,\"traces\":[],\"values\":[[\"x\",3]]}\n",
            "1 no end .\n",
        ),
        (
            "check main.osc top run.json --tick 1000",
            "{\"choices\":[],\"end\":0,\"form\":2,\"phases\":[],\"tick\":1000,\"traces\":[],\"values\":[[\"x\",3]]}\n",
            "0 yes\n",
        ),
        (
            line,
            "{\"choices\":[],\"end\":0,\"form\":1,\"phases\":[],\"tick\":100,\"traces\":[],\"values\":[[\"x\",3]]}\n",
            "5 text /tick\n",
        ),
        (
            line,
            "{\"choices\":[],\"end\":0,\"form\":3,\"phases\":0,\"tick\":100,\"traces\":[],\"values\":[[\"x\",3]]}\n",
            "5 text /form\n",
        ),
        (
            line,
            "{\"choices\":[],\"end\":0,\"form\":\"2\",\"phases\":[],\"tick\":100,\"traces\":[],\"values\":[[\"x\",3]]}\n",
            "5 text /form\n",
        ),
    ];
    lines_are(&rt, SOURCE, &rows)
}

#[test]
fn migrations(rt: HostRuntime) -> Result<(), Fail> {
    let alloc = rt.alloc();
    let (first, two) = (
        format!(in alloc; "0 {RUN}")?,
        format!(in alloc; "0 {TWO_TICKS}")?,
    );
    let line = "migrate run.json";
    let rows: [(&str, &str, &str); 10] = [
        (line, FIRST, first.as_str()),
        (line, RUN, first.as_str()),
        (line, TWO_TICKS, two.as_str()),
        (
            line,
            " {\"values\": [[\"x\", 3]], \"choices\": [], \"end\": 0, \"form\": 1, \"phases\": [], \"traces\": []}",
            first.as_str(),
        ),
        (
            line,
            "{\"choices\":[],\"end\":0,\"form\":1,\"phases\":[],\"tick\":100,\"traces\":[],\"values\":[[\"x\",3]]}\n",
            "5 text /tick\n",
        ),
        (line, "{\"choices\":[", "5 text json\n"),
        (line, "{}", "5 text /choices\n"),
        ("migrate none.json", RUN, "6 missing none.json\n"),
        ("migrate", RUN, "4 words\n"),
        ("migrate run.json --tick 50", RUN, "4 words\n"),
    ];
    lines_are(&rt, "no source", &rows)
}

/// Only the file of the run is read: it takes three calls of the shelf.
#[test]
fn files_of_migrations(rt: HostRuntime) -> Result<(), Fail> {
    let alloc = rt.alloc();
    let words = ["migrate", "run.json"];
    let long = vec![in alloc; b' '; 16_777_217]?;
    let rows: [(&[u8], &str); 2] = [
        (long.as_slice(), "6 long run.json\n"),
        (&long[1..], "5 text json\n"),
    ];
    for (bytes, want) in rows {
        call_is(&rt, &words, &[("run.json", bytes)], SOUND, want, want)?;
    }
    let whole = format!(in alloc; "0 {RUN}")?;
    let wants = [
        "6 shelf run.json\n",
        "6 shelf run.json\n",
        "6 shelf run.json\n",
        whole.as_str(),
    ];
    shelves_are(&rt, &words, &[("run.json", FIRST.as_bytes())], &wants)
}
