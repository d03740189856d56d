//! What `command` says of records, of listings and of programs that are made.
use crate::answers::answers_are;
use crate::calls::{call_has, shelves_are, sources_are, texts_are};
use std::alloc::AllocGlobal;
use std::process::Abort;
use std::test::Fail;

/// A number that is to be greater and less than 3.
const APART: &str =
    "scenario top:\n    x: int\n    keep(x in [0..5])\n    keep(x > 3)\n    keep(x < 3)\n";

/// The record that shows it has no instance.
const REFUTATION: &str =
    "osc-refutation 1\nslots 1\nrules 3\nroom 3\nlow 0 -1\nclose 0\nhigh 0 5\nclose 0\nlow 0 3\nclose 1\nclose 2\nend\n";

/// Each cut is one that the order of the search makes by itself, so the seed has no part in these records.
#[test]
fn sources_without_a_run(rt: HostRuntime) -> Result<(), Fail> {
    let rows: [(&str, &str); 2] = [
        (
            APART,
            "1 osc-refutation 1\nslots 1\nrules 3\nroom 3\nlow 0 -1\nclose 0\nhigh 0 5\nclose 0\nlow 0 3\nclose 1\nclose 2\nend\n",
        ),
        (
            "scenario top:\n    x: int\n    keep(x in [4..3])\n",
            "1 osc-refutation 1\nslots 1\nrules 1\nroom 2\nlow 0 3\nclose 0\nhigh 0 4\nclose 0\nclose 0\nend\n",
        ),
    ];
    answers_are(&rt, &rows)
}

#[test]
fn records_that_are_read(rt: HostRuntime) -> Result<(), Fail> {
    let rows: [(&str, &str); 6] = [
        (REFUTATION, "0 yes\n"),
        (
            "osc-refutation 1\nslots 1\nrules 4\nroom 3\nclose 0\nend\n",
            "1 no 3\n",
        ),
        (
            "osc-refutation 1\nslots 1\nrules 3\nroom 0\nclose 0\nend\n",
            "1 no 5\n",
        ),
        (
            "osc-undecided 1\nslots 1\nrules 3\nroom 1\nlow 0 -1\nclose 0\nopen\nend\n",
            "2 open 1\n",
        ),
        (
            "osc-refutation 1\nslots 1\nrules 3\nroom 3\nlow 0 -0\nclose 0\nclose 0\nend\n",
            "5 text 5\n",
        ),
        ("", "5 text 1\n"),
    ];
    texts_are(&rt, "verify main.osc top record", APART, "record", &rows)
}

#[test]
fn records_that_are_not_there(rt: HostRuntime) -> Result<(), Fail> {
    let rows: [(&str, &str); 1] = [(APART, "6 missing record\n")];
    sources_are(&rt, "verify main.osc top record", &rows)
}

#[test]
fn shelf_that_fails_at_the_record(rt: HostRuntime) -> Result<(), Fail> {
    let words = ["verify", "main.osc", "top", "record"];
    let files = [
        ("main.osc", APART.as_bytes()),
        ("record", REFUTATION.as_bytes()),
    ];
    let wants = [
        "6 shelf main.osc\n",
        "6 shelf main.osc\n",
        "6 shelf main.osc\n",
        "6 shelf record\n",
        "6 shelf record\n",
        "6 shelf record\n",
    ];
    shelves_are(&rt, &words, &files, &wants)
}

/// Numbers that no member of the enum has lie between its ends, so its field has a rule of its own.
#[test]
fn listings(rt: HostRuntime) -> Result<(), Fail> {
    let rows: [(&str, &str); 3] = [
        (
            APART,
            "0 slots 1\nvalue x -1000000000 1000000000\nrules 3\nhard main.osc:3:5\nhard main.osc:4:5\nhard main.osc:5:5\n",
        ),
        (
            "enum e: [a, b = 4]\nscenario top:\n    k: e\n",
            "0 slots 1\nvalue k 0 4\nrules 1\ntyped k\n",
        ),
        (
            "import osc.standard\nscenario top:\n    do one_of:\n        wait elapsed(0.1s)\n        serial:\n            wait elapsed(0.1s)\n",
            "0 slots 9\nchoice do 0 1\nstart do 0 1\nend do 0 1\nstart do[0] 0 1\nend do[0] 0 1\nstart do[1] 0 1\nend do[1] 0 1\nstart do[1][0] 0 1\nend do[1][0] 0 1\nrules 6\nhard main.osc:4:22\nhard main.osc:6:26\narranged do\narranged do[0]\narranged do[1]\narranged do[1][0]\n",
        ),
    ];
    sources_are(&rt, "flat main.osc top --ticks 1", &rows)
}

/// The answers to `make` of these counts: a run, and behind it this line.
fn made_runs_are(rt: &(impl Abort + AllocGlobal), rows: &[(&str, &str)]) -> Result<(), Fail> {
    for (count, last) in rows {
        call_has(rt, &["make", *count], &[], "0 {\"choices\":[]", "", *last)?;
    }
    Ok(())
}

/// The source for N vehicles has no fault, and its run has 1 + N + N * N phases and ends at tick 5 * N.
#[test]
fn made_programs(rt: HostRuntime) -> Result<(), Fail> {
    let rows: [(&str, &str); 12] = [
        ("1", "make 1 phases 3 end 5 check yes\n"),
        ("2", "make 2 phases 7 end 10 check yes\n"),
        ("3", "make 3 phases 13 end 15 check yes\n"),
        ("4", "make 4 phases 21 end 20 check yes\n"),
        ("5", "make 5 phases 31 end 25 check yes\n"),
        ("6", "make 6 phases 43 end 30 check yes\n"),
        ("7", "make 7 phases 57 end 35 check yes\n"),
        ("8", "make 8 phases 73 end 40 check yes\n"),
        ("9", "make 9 phases 91 end 45 check yes\n"),
        ("10", "make 10 phases 111 end 50 check yes\n"),
        ("11", "make 11 phases 133 end 55 check yes\n"),
        ("12", "make 12 phases 157 end 60 check yes\n"),
    ];
    made_runs_are(&rt, &rows)
}

/// The same of the largest, which take most of the time.
#[test]
fn large_made_programs(rt: HostRuntime) -> Result<(), Fail> {
    let rows: [(&str, &str); 4] = [
        ("13", "make 13 phases 183 end 65 check yes\n"),
        ("14", "make 14 phases 211 end 70 check yes\n"),
        ("15", "make 15 phases 241 end 75 check yes\n"),
        ("16", "make 16 phases 273 end 80 check yes\n"),
    ];
    made_runs_are(&rt, &rows)
}
