use command_words::{Request, Setting, Source, read_words};
use std::io;

/// The words of a line, which has one space between any two.
fn words_of(rt: &HostRuntime, line: &str) -> io::Result<Vec<String>> {
    let alloc = rt.alloc();
    let mut words = Vec::new(alloc);
    for word in line.split(' ') {
        words.push(String::from_str(alloc, word)?)?;
    }
    Ok(words)
}

/// What the words ask for; of a text of help its last line.
fn shown(rt: &HostRuntime, line: &str) -> io::Result<String> {
    let alloc = rt.alloc();
    let words = words_of(rt, line)?;
    let shown = match read_words(alloc, words.as_slice())? {
        Request::Help(text) => {
            let last = text.lines().last().unwrap_or("");
            format!(in alloc; "help: {last}")?
        }
        Request::Topics => String::from_str(alloc, "all topics")?,
        Request::Explain(topic) => format!(in alloc; "{topic:?}")?,
        Request::Generate(asked) => {
            let (seed, cuts, tries) = (asked.seed, asked.cuts, asked.tries);
            let scene = scene_shown(rt, asked.source, asked.setting)?;
            format!(in alloc; "{scene} {seed} {cuts} {tries}")?
        }
        Request::Check(asked) => {
            let scene = scene_shown(rt, asked.source, asked.setting)?;
            format!(in alloc; "check {scene} {}", asked.run)?
        }
        Request::Export(asked) => {
            let scene = scene_shown(rt, asked.source, asked.setting)?;
            let (run, form, ego, width) = (asked.run, asked.form, asked.ego, asked.lane_width);
            format!(in alloc; "export {scene} {run} {form:?} {ego} {width}")?
        }
        Request::Verify(asked) => {
            let scene = scene_shown(rt, asked.source, asked.setting)?;
            format!(in alloc; "verify {scene} {}", asked.record)?
        }
        Request::Flat(asked) => {
            let scene = scene_shown(rt, asked.source, asked.setting)?;
            format!(in alloc; "flat {scene}")?
        }
        Request::Make(asked) => format!(in alloc; "make {}", asked.count)?,
        Request::Migrate(asked) => format!(in alloc; "migrate {}", asked.run)?,
        Request::Refused => String::from_str(alloc, "refused")?,
    };
    Ok(shown)
}

fn scene_shown(rt: &HostRuntime, source: Source<'_>, setting: Setting) -> io::Result<String> {
    let shown = format!(in rt.alloc();
        "{} {} {} {} {} {}",
        source.file, source.scenario, setting.ticks, setting.lanes, setting.road, setting.tick
    )?;
    Ok(shown)
}

#[test]
fn reads_words(rt: HostRuntime) -> io::Result<()> {
    let rows = [
        ("generate f s", "f s 100 3 1000 100 0 200000 1"),
        (
            "generate --ticks 005 f --lanes=+8 s",
            "f s 5 8 1000 100 0 200000 1",
        ),
        (
            "generate f s --road 1 --cuts 1 --seed 18446744073709551615",
            "f s 100 3 1 100 18446744073709551615 1 1",
        ),
        (
            "generate -- --ticks s",
            "--ticks s 100 3 1000 100 0 200000 1",
        ),
        (
            "generate f s --tries=100 --seed 7",
            "f s 100 3 1000 100 7 200000 100",
        ),
        ("generate f s --tries 0", "refused"),
        ("generate f s --tries 101", "refused"),
        ("generate f s --tries 2 --tries 2", "refused"),
        ("generate f s --seed -0", "refused"),
        ("generate f s --ticks 0", "refused"),
        ("generate f s --road 10001", "refused"),
        ("generate f s --lanes 2 --lanes 2", "refused"),
        (
            "generate f s --tick=10 --ticks 5",
            "f s 5 3 1000 10 0 200000 1",
        ),
        ("generate f s --tick 9", "refused"),
        ("generate f s --tick 1001", "refused"),
        ("generate f s --tick 50 --tick 50", "refused"),
        ("generate f s -V", "refused"),
        ("generate f", "refused"),
        ("check f s r", "check f s 100 3 1000 100 r"),
        (
            "check --ticks=9 f s --lanes 8 r --road 10 --tick 1000",
            "check f s 9 8 10 1000 r",
        ),
        ("check f s", "refused"),
        ("check f s r --seed 1", "refused"),
        ("check f s r --tries 2", "refused"),
        ("check f s r --as csv", "refused"),
        ("verify f s r --lanes 8", "verify f s 100 8 1000 100 r"),
        ("flat --ticks 7 f s", "flat f s 7 3 1000 100"),
        ("make 16", "make 16"),
        ("make 16 --tick 100", "refused"),
        ("migrate r", "migrate r"),
        ("migrate -- --tick", "migrate --tick"),
        ("migrate", "refused"),
        ("migrate r s", "refused"),
        ("migrate r --tick 100", "refused"),
        ("migrate r -h", "help: For the statuses: osc help"),
        ("explain", "all topics"),
        ("explain --help", "all topics"),
        ("explain 201", "Fault(Syntax)"),
        ("explain E201", "Fault(Syntax)"),
        ("explain error[201]", "Fault(Syntax)"),
        ("explain e201", "refused"),
        ("explain 7", "Status(Sink)"),
        ("explain 3", "refused"),
        ("explain 200", "refused"),
        ("explain 0201", "refused"),
        ("explain 201 202", "refused"),
        ("", "refused"),
        ("take 1", "refused"),
        ("help make", "help: For the statuses: osc help"),
        ("--version", "help: osc 0.1.0"),
    ];
    for (line, want) in rows {
        assert_eq!(rt; shown(&rt, line)?.as_str(), want, "at {line}");
    }
    Ok(())
}

#[test]
fn reads_words_of_export(rt: HostRuntime) -> io::Result<()> {
    let rows = [
        (
            "export f s r --as csv",
            "export f s 100 3 1000 100 r Csv  3500",
        ),
        (
            "export --as=xosc --ego sut.car f s --lane-width 3000 r --lanes 2",
            "export f s 100 2 1000 100 r Xosc sut.car 3000",
        ),
        (
            "export f s r --as xodr --lane-width 10000",
            "export f s 100 3 1000 100 r Xodr  10000",
        ),
        (
            "export f s r --tick 50 --as html",
            "export f s 100 3 1000 50 r Html  3500",
        ),
        ("export f s r", "refused"),
        ("export f s --as csv", "refused"),
        ("export f s r --as CSV", "refused"),
        ("export f s r --as csv --as csv", "refused"),
        ("export f s r --as csv --lane-width 999", "refused"),
        ("export f s r --as csv --lane-width 10001", "refused"),
        ("export f s r --as csv --ego", "refused"),
        ("export f s r --as csv --seed 1", "refused"),
        ("export f s -h", "help: For the statuses: osc help"),
    ];
    for (line, want) in rows {
        assert_eq!(rt; shown(&rt, line)?.as_str(), want, "at {line}");
    }
    Ok(())
}
