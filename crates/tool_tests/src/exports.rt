//! What `command` exports of runs.
use crate::calls::{call_has, call_is};
use answer_tests::{SOUND, answer};
use std::alloc::AllocGlobal;
use std::process::Abort;
use std::test::Fail;

/// A vehicle that drives at 10 metres a second at each tick but the last.
const DRIVE: &str =
    "import osc.standard\nscenario top:\n    ego: vehicle\n    do ego.drive() with:\n        speed(10mps)\n";

/// An instance of it, whose last speed isn't that of the others.
const RUN: &str =
    "{\"choices\":[],\"end\":1,\"form\":2,\"phases\":[[\"do\",0,1]],\"tick\":100,\"traces\":[[\"ego\",[[2,70500,10000],[2,1070500,10001]]]],\"values\":[[\"ego.max_speed\",50000],[\"ego.max_acceleration\",10000]]}\n";

/// The words `export main.osc top run.json --ticks 1 --as FORM --ego EGO`.
fn words_for<'a>(form: &'a str, ego: &'a str) -> [&'a str; 10] {
    [
        "export", "main.osc", "top", "run.json", "--ticks", "1", "--as", form, "--ego", ego,
    ]
}

/// Sees that the export of this run of the vehicle has this answer.
fn export_is(
    rt: &(impl Abort + AllocGlobal),
    form: &str,
    ego: &str,
    run: &str,
    want: &str,
) -> Result<(), Fail> {
    let files = [("main.osc", DRIVE.as_bytes()), ("run.json", run.as_bytes())];
    call_is(rt, &words_for(form, ego), &files, SOUND, want, form)
}

/// A form, the vehicle that is left, how the answer begins, and what stands in it.
type Row = (&'static str, &'static str, &'static str, &'static str);

fn exports_are(rt: &(impl Abort + AllocGlobal), rows: &[Row]) -> Result<(), Fail> {
    let files = [("main.osc", DRIVE.as_bytes()), ("run.json", RUN.as_bytes())];
    for (form, ego, front, part) in rows {
        call_has(rt, &words_for(*form, *ego), &files, *front, *part, "")?;
    }
    Ok(())
}

#[test]
fn a_table_of_a_run(rt: HostRuntime) -> Result<(), Fail> {
    let want =
        "0 time_s,vehicle,lane,position_m,speed_mps\n0.000,ego,2,0.070500,10.000\n0.100,ego,2,1.070500,10.001\n";
    export_is(&rt, "csv", "ego", RUN, want)
}

#[test]
fn files_for_a_simulator(rt: HostRuntime) -> Result<(), Fail> {
    let xml = "0 <?xml version=\"1.0\" encoding=\"UTF-8\"?>\n";
    let rows: [Row; 5] = [
        (
            "xosc",
            "",
            xml,
            "<Vertex time=\"0.100\"><Position><WorldPosition x=\"1.070500\" y=\"-5.250000\" z=\"0\"",
        ),
        (
            "xosc",
            "",
            xml,
            "<Trajectory name=\"ego\" closed=\"false\">",
        ),
        (
            "xosc",
            "ego",
            xml,
            "<AbsoluteTargetSpeed value=\"10.000\"/>",
        ),
        ("xodr", "", xml, "length=\"1100\""),
        ("html", "", "0 <!doctype html>\n", "\"end\":1,\"form\":2,"),
    ];
    exports_are(&rt, &rows)?;
    let files = [("main.osc", DRIVE.as_bytes()), ("run.json", RUN.as_bytes())];
    let got = answer(rt.alloc(), &words_for("xosc", "ego"), &files, SOUND)?;
    assert!(rt; !got.as_str().contains("<Trajectory"));
    Ok(())
}

#[test]
fn runs_that_are_not_exported(rt: HostRuntime) -> Result<(), Fail> {
    let moved = RUN.replace(rt.alloc(), "1070500", "1070501")?;
    let rows: [(&str, &str, &str); 9] = [
        ("csv", "{}", "5 text /choices\n"),
        ("html", "[", "5 text json\n"),
        ("svg", RUN, "4 words\n"),
        ("CSV", RUN, "4 words\n"),
        ("", RUN, "4 words\n"),
        ("csv", moved.as_str(), "1 no motion ego\n"),
        ("xosc", moved.as_str(), "1 no motion ego\n"),
        ("xodr", moved.as_str(), "1 no motion ego\n"),
        ("html", moved.as_str(), "1 no motion ego\n"),
    ];
    for (form, run, want) in rows {
        export_is(&rt, form, "", run, want)?;
    }
    Ok(())
}
