use crate::call::{call, call_failing, call_says, says};
use std::test::Fail;

const SOURCE: &str = "scenario top:\n    x: int\n    keep(x in [3..3])\n";

#[test]
fn words_after_a_command(rt: HostRuntime) -> Result<(), Fail> {
    let rows: [(&[&str], &str); 11] = [
        (&[], "error: FILE and SCENARIO are missing\n"),
        (&["a.osc"], "error: SCENARIO is missing after FILE\n"),
        (
            &["a.osc", "--ticks", "5"],
            "error: SCENARIO is missing after FILE\n",
        ),
        (
            &["a.osc", "top", "third"],
            "error: `osc generate` doesn't take the word `third` here\n",
        ),
        (
            &["a.osc", "--tics", "5", "top"],
            "error: `osc generate` has no option `--tics`\n  = help: an option near it is `--ticks`\n",
        ),
        (
            &["a.osc", "--tick", "5", "top"],
            "error: `--tick` doesn't take the value `5`\n  = help: --tick N ",
        ),
        (
            &["a.osc", "top", "--tick", "50", "--tick=50"],
            "error: `--tick` stands twice\n",
        ),
        (
            &["a.osc", "--ticks", "0", "top"],
            "error: `--ticks` doesn't take the value `0`\n",
        ),
        (
            &["a.osc", "top", "--road"],
            "error: `--road` has no value\n",
        ),
        (
            &["a.osc", "top", "--road=ten"],
            "error: `--road` doesn't take the value `ten`\n  = help: --road N ",
        ),
        (
            &["a.osc", "top", "--lanes", "2", "--lanes", "2"],
            "error: `--lanes` stands twice\n",
        ),
    ];
    for (rest, want) in rows {
        let mut words = Vec::from_slice(rt.alloc(), &["generate"])?;
        words.extend_from_slice(rest)?;
        call_says(&rt, words.as_slice(), &[], 4, want, "")?;
    }
    Ok(())
}

#[test]
fn first_words(rt: HostRuntime) -> Result<(), Fail> {
    let rows: [(&[&str], &str); 18] = [
        (&[], "error: there is no command\n  = help: "),
        (
            &["genrate", "a.osc", "top"],
            "error: `genrate` is no command\n  = help: a command near it is `osc generate`\n",
        ),
        (
            &["simulate", "a.osc"],
            "error: `simulate` is no command\n  = help: `osc help` lists the commands\n",
        ),
        (
            &["check", "a.osc"],
            "error: SCENARIO and RUN are missing after FILE\n",
        ),
        (
            &["verify", "a.osc", "top"],
            "error: RECORD is missing after SCENARIO\n",
        ),
        (&["flat"], "error: FILE and SCENARIO are missing\n"),
        (&["make"], "error: N is missing\n"),
        (&["migrate"], "error: RUN is missing\n"),
        (&["export"], "error: FILE, SCENARIO and RUN are missing\n"),
        (
            &["export", "a.osc", "top", "--as", "csv"],
            "error: RUN is missing after SCENARIO\n",
        ),
        (
            &["export", "a.osc", "top", "run.json"],
            "error: `--as` is missing\n  = help: --as FORM  the form",
        ),
        (
            &["export", "a.osc", "top", "run.json", "--as", "cvs"],
            "error: `--as` doesn't take the value `cvs`\n  = help: --as FORM  the form",
        ),
        (
            &["export", "a.osc", "top", "run.json", "--lane-width", "3"],
            "error: `--lane-width` doesn't take the value `3`\n",
        ),
        (
            &["migrate", "run.json", "--tick", "50"],
            "error: `osc migrate` has no option `--tick`\n",
        ),
        (
            &["make", "17"],
            "error: `osc make` doesn't take the word `17` here\n",
        ),
        (
            &["explain", "200"],
            "error: `200` is the number of no code and of no status that refuses\n  = help: `osc explain` lists all of them\n",
        ),
        (
            &["explain", "201", "202"],
            "error: `osc explain` takes one word at most\n",
        ),
        (&["-v"], "error: `-v` is no command\n"),
    ];
    let back = "  = help: `osc explain 4` tells more\n";
    for (words, want) in rows {
        call_says(&rt, words, &[], 4, want, back)?;
    }
    Ok(())
}

#[test]
fn files_and_standard_output(rt: HostRuntime) -> Result<(), Fail> {
    let alloc = rt.alloc();
    let words = ["generate", "main.osc", "top"];
    let main = [("main.osc", SOURCE.as_bytes())];
    let missing = "error: there is no file `main.osc`\n  = help: ";
    call_says(&rt, &words, &[], 6, missing, "")?;
    let failed = call_failing(alloc, &words, &main, &[0], 8192)?;
    let unread = "error: the system can't read `main.osc`\n  = help: ";
    says(&rt, &failed, 6, unread, "");
    let full = call_failing(alloc, &words, &main, &[], 0)?;
    says(
        &rt,
        &full,
        7,
        "error: standard output failed\n  = help: ",
        "",
    );
    let bytes = vec![in alloc; b'#'; 1_048_577]?;
    let long =
        "error: a source has at most 1048576 bytes, a run 16777216 and a record 268435456, unlike `main.osc`\n";
    call_says(&rt, &words, &[("main.osc", bytes.as_slice())], 6, long, "")
}

/// Files of runs that hold none.
#[test]
fn texts_that_are_no_run(rt: HostRuntime) -> Result<(), Fail> {
    let words = ["check", "main.osc", "top", "run.json"];
    let rows: [(&str, &str); 2] = [
        (
            "{",
            "error: the file of the run is no JSON text\n  = help: ",
        ),
        (
            "{}",
            "error: the file of the run holds none: `/choices` isn't as in a run\n  = help: ",
        ),
    ];
    for (run, want) in rows {
        let files = [
            ("main.osc", SOURCE.as_bytes()),
            ("run.json", run.as_bytes()),
        ];
        call_says(&rt, &words, &files, 5, want, "")?;
    }
    Ok(())
}

/// Answers have no message.
#[test]
fn answers(rt: HostRuntime) -> Result<(), Fail> {
    let main = [("main.osc", SOURCE.as_bytes())];
    let rows: [&[&str]; 4] = [
        &["generate", "main.osc", "top"],
        &["help"],
        &["--version"],
        &["explain"],
    ];
    for words in rows {
        let called = call(rt.alloc(), words, &main)?;
        assert_eq!(rt; called.status, 0);
        assert!(rt; called.message.as_str().is_empty());
    }
    Ok(())
}
