use osc_base::Text;
use run_check::write_run;
use run_texts::{RunStop, read_run};
use std::alloc::{AllocError, Global};
use std::test::Fail;

/// The text of the run that a text holds. If it holds none, `json` or the pointer of the first place that differs.
fn answer(alloc: Global, text: &str) -> Result<Text, AllocError> {
    match read_run(alloc, text.as_bytes()) {
        Ok(run) => write_run(alloc, &run),
        Err(RunStop::BadJson) => Text::copy(alloc, "json"),
        Err(RunStop::BadShape(pointer)) => Ok(pointer),
        Err(RunStop::Memory) => Err(AllocError),
    }
}

/// A run with something in each of its lists.
const FULL: &str =
    "{\"choices\":[[\"do\",1]],\"end\":5,\"form\":2,\"phases\":[[\"do[1]\",0,4294967295]],\"tick\":50,\"traces\":[[\"ego\",[[1,-9223372036854775808,9223372036854775807]]]],\"values\":[[\"a.b[0]\",\"q\\\"\\\\\u{e9}\"],[\"x\",3]]}\n";

#[test]
fn runs_are_read_back(rt: HostRuntime) -> Result<(), Fail> {
    let alloc = rt.alloc();
    assert_eq!(rt; answer(alloc, FULL)?.as_str(), FULL);
    Ok(())
}

/// Texts of form 1, and the texts of form 2 of the same runs.
const FIRST_FORM: [(&str, &str); 2] = [
    (
        "{\"choices\":[],\"end\":0,\"form\":1,\"phases\":[],\"traces\":[],\"values\":[[\"x\",3]]}\n",
        "{\"choices\":[],\"end\":0,\"form\":2,\"phases\":[],\"tick\":100,\"traces\":[],\"values\":[[\"x\",3]]}\n",
    ),
    (
        "{\"choices\":[],\"end\":1,\"form\":2,\"form\":1,\"phases\":[],\"traces\":[[\"ego\",[[1,0,10000],[1,1000000,10000]]]],\"values\":[]}",
        "{\"choices\":[],\"end\":1,\"form\":2,\"phases\":[],\"tick\":100,\"traces\":[[\"ego\",[[1,0,10000],[1,1000000,10000]]]],\"values\":[]}\n",
    ),
];

#[test]
fn the_first_form_has_ticks_of_100_milliseconds(rt: HostRuntime) -> Result<(), Fail> {
    let alloc = rt.alloc();
    for (text, written) in FIRST_FORM.as_slice() {
        assert_eq!(rt; answer(alloc, text)?.as_str(), *written);
    }
    Ok(())
}

/// Texts of the shortest and of the longest tick.
const TICKS: [&str; 2] = [
    "{\"choices\":[],\"end\":2,\"form\":2,\"phases\":[[\"do\",0,2]],\"tick\":10,\"traces\":[],\"values\":[]}\n",
    "{\"choices\":[],\"end\":2,\"form\":2,\"phases\":[[\"do\",0,2]],\"tick\":1000,\"traces\":[],\"values\":[]}\n",
];

#[test]
fn ticks_are_read_back(rt: HostRuntime) -> Result<(), Fail> {
    let alloc = rt.alloc();
    for text in TICKS.as_slice() {
        assert_eq!(rt; answer(alloc, text)?.as_str(), *text);
    }
    Ok(())
}

#[test]
fn white_space_and_the_order_of_keys_are_free(rt: HostRuntime) -> Result<(), Fail> {
    let alloc = rt.alloc();
    assert_eq!(rt;
        answer(
            alloc,
            " { \"values\" : [ [\"x\", 3] ],\n\"end\":7,\"end\":0,\"tick\":20,\"form\":2,\"traces\":[],\"phases\":[],\"choices\":[]}"
        )?
        .as_str(),
        "{\"choices\":[],\"end\":0,\"form\":2,\"phases\":[],\"tick\":20,\"traces\":[],\"values\":[[\"x\",3]]}\n"
    );
    Ok(())
}

/// Texts that hold no JSON value.
const NO_JSON: [&str; 6] = [
    "",
    "{\"choices\":[",
    "{'choices':[]}",
    "// a\n{\"choices\":[],\"end\":0,\"form\":1,\"phases\":[],\"traces\":[],\"values\":[]}\n",
    "{\"choices\":[],\"end\":0,\"form\":1,\"phases\":[],\"traces\":[],\"values\":[[\"x\t\",3]]}\n",
    "{\"choices\":[],\"end\":0,\"form\":1,\"phases\":[],\"traces\":[],\"values\":[]}\nx",
];

#[test]
fn texts_without_a_value(rt: HostRuntime) -> Result<(), Fail> {
    let alloc = rt.alloc();
    for text in NO_JSON.as_slice() {
        assert_eq!(rt; answer(alloc, text)?.as_str(), "json");
    }
    Ok(())
}

/// Texts of no run, and the first place that differs.
const NO_RUN: [(&str, &str); 35] = [
    ("{}", "/choices"),
    ("[]", "/choices"),
    ("null", "/choices"),
    (
        "{\"end\":0,\"form\":1,\"phases\":[],\"traces\":[],\"values\":[]}",
        "/choices",
    ),
    (
        "{\"choices\":3,\"end\":0,\"form\":1,\"phases\":[],\"traces\":[],\"values\":3}",
        "/choices",
    ),
    (
        "{\"choices\":[],\"end\":\"1\",\"form\":1,\"phases\":[],\"traces\":[],\"values\":[]}",
        "/end",
    ),
    (
        "{\"choices\":[],\"end\":null,\"form\":1,\"phases\":[],\"traces\":[],\"values\":[]}",
        "/end",
    ),
    (
        "{\"choices\":[],\"end\":1.0,\"form\":1,\"phases\":[],\"traces\":[],\"values\":[]}",
        "/end",
    ),
    (
        "{\"choices\":[],\"end\":0,\"form\":3,\"phases\":null,\"traces\":[],\"values\":[]}",
        "/form",
    ),
    (
        "{\"choices\":[],\"end\":0,\"form\":2.0,\"phases\":null,\"traces\":[],\"values\":[]}",
        "/form",
    ),
    (
        "{\"choices\":[],\"end\":0,\"form\":\"2\",\"phases\":[],\"tick\":100,\"traces\":[],\"values\":[]}",
        "/form",
    ),
    (
        "{\"choices\":[],\"end\":0,\"form\":1,\"phases\":[],\"tick\":100,\"traces\":[],\"values\":[]}",
        "/tick",
    ),
    (
        "{\"choices\":[],\"end\":0,\"form\":1,\"phases\":[],\"tick\":9,\"traces\":null,\"values\":[]}",
        "/traces",
    ),
    (
        "{\"choices\":[],\"end\":0,\"form\":2,\"phases\":[],\"traces\":[],\"values\":[]}",
        "/tick",
    ),
    (
        "{\"choices\":[],\"end\":0,\"form\":2,\"phases\":[],\"tick\":9,\"traces\":[],\"values\":[]}",
        "/tick",
    ),
    (
        "{\"choices\":[],\"end\":0,\"form\":2,\"phases\":[],\"tick\":1001,\"traces\":null,\"values\":[]}",
        "/tick",
    ),
    (
        "{\"choices\":[],\"end\":0,\"form\":2,\"phases\":[],\"tick\":\"100\",\"traces\":[],\"values\":[]}",
        "/tick",
    ),
    (
        "{\"choices\":[],\"end\":0,\"form\":2,\"phases\":[3],\"tick\":9,\"traces\":[],\"values\":[]}",
        "/phases/0",
    ),
    (
        "{\"choices\":[],\"end\":0,\"form\":2,\"phases\":[],\"tick\":100,\"ticks\":10,\"traces\":[],\"values\":[]}",
        "/ticks",
    ),
    (
        "{\"choices\":[],\"end\":0,\"form\":1,\"phases\":null,\"traces\":[],\"values\":[]}",
        "/phases",
    ),
    (
        "{\"choices\":[],\"end\":0,\"form\":1,\"phases\":[],\"traces\":[],\"values\":[],\"b\":1,\"a\":1}",
        "/a",
    ),
    (
        "{\"choices\":[],\"end\":0,\"form\":1,\"phases\":[],\"traces\":[],\"values\":[],\"a\":1,\"Z\":1}",
        "/Z",
    ),
    (
        "{\"choices\":[3],\"end\":0,\"form\":1,\"phases\":[],\"traces\":[],\"values\":[]}",
        "/choices/0",
    ),
    (
        "{\"choices\":[[\"do\"]],\"end\":0,\"form\":1,\"phases\":[],\"traces\":[],\"values\":[]}",
        "/choices/0",
    ),
    (
        "{\"choices\":[[\"do\",0,1]],\"end\":0,\"form\":1,\"phases\":[],\"traces\":[],\"values\":[]}",
        "/choices/0",
    ),
    (
        "{\"choices\":[[\"do\",0],[\"do\",null]],\"end\":0,\"form\":1,\"phases\":[],\"traces\":[],\"values\":[]}",
        "/choices/1/1",
    ),
    (
        "{\"choices\":[[\"do\",4294967296]],\"end\":0,\"form\":1,\"phases\":[],\"traces\":[],\"values\":[]}",
        "/choices/0/1",
    ),
    (
        "{\"choices\":[],\"end\":0,\"form\":1,\"phases\":[[\"do\",0]],\"traces\":[],\"values\":[]}",
        "/phases/0",
    ),
    (
        "{\"choices\":[],\"end\":0,\"form\":1,\"phases\":[],\"traces\":[[\"ego\",{}]],\"values\":[]}",
        "/traces/0/1",
    ),
    (
        "{\"choices\":[],\"end\":0,\"form\":1,\"phases\":[],\"traces\":[[\"ego\",[[1,0]]]],\"values\":[]}",
        "/traces/0/1/0",
    ),
    (
        "{\"choices\":[],\"end\":0,\"form\":1,\"phases\":[],\"traces\":[[\"ego\",[[1,0,0],[1,\"0\",0]]]],\"values\":[]}",
        "/traces/0/1/1/1",
    ),
    (
        "{\"choices\":[],\"end\":0,\"form\":1,\"phases\":[],\"traces\":[],\"values\":[[\"x\",1.5]]}",
        "/values/0/1",
    ),
    (
        "{\"choices\":[],\"end\":0,\"form\":1,\"phases\":[],\"traces\":[],\"values\":[[\".\",3]]}",
        "/values/0/0",
    ),
    (
        "{\"choices\":[],\"end\":0,\"form\":1,\"phases\":[],\"traces\":[],\"values\":[[\"v[01]\",3]]}",
        "/values/0/0",
    ),
    (
        "{\"choices\":[],\"end\":0,\"form\":1,\"phases\":[],\"traces\":[],\"values\":[[\"x\\n\",3]]}",
        "/values/0/0",
    ),
];

#[test]
fn texts_of_no_run(rt: HostRuntime) -> Result<(), Fail> {
    let alloc = rt.alloc();
    for (text, pointer) in NO_RUN.as_slice() {
        assert_eq!(rt; answer(alloc, text)?.as_str(), *pointer);
    }
    Ok(())
}
