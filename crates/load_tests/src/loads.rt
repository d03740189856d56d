use name_scope::Program;
use osc_base::Row;
use outside_io::{MemoryShelf, NamedBytes};
use program_load::{LoadStop, Refusal, load};
use std::alloc::{AllocError, Global};
use std::process::Abort;
use std::test::Fail;

const LIMIT: usize = 1_048_576;

/// A shelf of these files, whose calls of these numbers fail.
fn shelf(
    alloc: Global,
    files: &[(&str, &[u8])],
    failing: &[u64],
) -> Result<MemoryShelf, AllocError> {
    MemoryShelf::of(alloc, files, 4096, failing)
}

/// The names of the files of a program.
fn names(alloc: Global, program: &Program) -> Result<String, AllocError> {
    let mut text = String::from_str(alloc, "loads")?;
    for number in 0..program.files() {
        text.push_str(" ")?;
        text.push_str(program.name(number).unwrap_or("?"))?;
    }
    Ok(text)
}

/// What the load of `main.osc` answers, as a text.
fn answer(alloc: Global, mut shelf: MemoryShelf) -> Result<String, AllocError> {
    match load(alloc, &mut shelf, "main.osc") {
        Ok(program) => names(alloc, &program),
        Err(LoadStop::At(Refusal::Missing)) => String::from_str(alloc, "missing"),
        Err(LoadStop::At(Refusal::Long(name))) => format!(in alloc; "long {}", name.as_str()),
        Err(LoadStop::At(Refusal::Faulty { file, fault })) => format!(in alloc;
            "fault {} {}:{}:{}",
            fault.code.number(),
            file.as_str(),
            fault.place.line,
            fault.place.column
        ),
        Err(LoadStop::Shelf(name)) => format!(in alloc; "shelf {}", name.as_str()),
        Err(LoadStop::Memory) => String::from_str(alloc, "memory"),
    }
}

/// Files, and what the load of them answers.
type Answer<'a> = (&'a [(&'a str, &'a [u8])], &'a str);

fn answers_are(rt: &(impl Abort + AllocGlobal), rows: &[Answer<'_>]) -> Result<(), Fail> {
    let alloc = rt.alloc();
    for (files, want) in rows {
        assert_eq!(rt; answer(alloc, shelf(alloc, files, &[])?)?.as_str(), *want);
    }
    Ok(())
}

#[test]
fn programs_of_a_few_files(rt: HostRuntime) -> Result<(), Fail> {
    let rows: [Answer<'_>; 6] = [
        (&[], "missing"),
        (&[("main.osc", b"import \"main.osc\"\n")], "loads main.osc"),
        (
            &[("b", b""), ("main.osc", b"import \"b\"\n")],
            "loads main.osc b",
        ),
        (
            &[("a'b", b""), ("main.osc", b"import \"a\\'b\"\n")],
            "loads main.osc a'b",
        ),
        (
            &[
                ("main.osc", b"import \"./main.osc\"\n"),
                ("./main.osc", b"import \"./main.osc\"\n"),
            ],
            "loads main.osc ./main.osc",
        ),
        (
            &[
                ("main.osc", b"import \"a\"\nimport \"b\"\n"),
                ("a", b"import \"c\"\nimport \"b\"\n"),
                ("b", b"import \"main.osc\"\n"),
                ("c", b"import osc.standard\n"),
            ],
            "loads main.osc a b c osc",
        ),
    ];
    answers_are(&rt, &rows)
}

#[test]
fn imports_that_are_refused(rt: HostRuntime) -> Result<(), Fail> {
    let rows: [Answer<'_>; 5] = [
        (
            &[("main.osc", b"import \"osc\"\n")],
            "fault 301 main.osc:1:8",
        ),
        (
            &[("main.osc", b"import  lib.osc\n")],
            "fault 301 main.osc:1:9",
        ),
        (
            &[
                ("main.osc", b"import \"a\"\nimport \"c\"\n"),
                ("a", b"import \"c\"\n"),
            ],
            "fault 301 main.osc:2:8",
        ),
        (
            &[
                ("main.osc", b"import \"a\"\n"),
                ("a", b"# a\nimport \"c\"\n"),
            ],
            "fault 301 a:2:8",
        ),
        (
            &[("main.osc", b"import \"b\"\nimport \"c\"\n"), ("c", b"$")],
            "fault 301 main.osc:1:8",
        ),
    ];
    answers_are(&rt, &rows)
}

#[test]
fn faults_of_the_file_whose_turn_it_is(rt: HostRuntime) -> Result<(), Fail> {
    let rows: [Answer<'_>; 3] = [
        (
            &[("main.osc", b"import \"b\"\nimport \"c\"\n"), ("b", b"$")],
            "fault 104 b:1:1",
        ),
        (
            &[("main.osc", b"import \"b\"\nscenario top\n$")],
            "fault 104 main.osc:3:1",
        ),
        (
            &[("main.osc", b"import \"b\"\nimport\n")],
            "fault 201 main.osc:2:7",
        ),
    ];
    answers_are(&rt, &rows)
}

#[test]
fn a_shelf_that_fails(rt: HostRuntime) -> Result<(), Fail> {
    let alloc = rt.alloc();
    let files: [(&str, &[u8]); 2] = [
        ("main.osc", b"import osc.standard\nimport \"b.osc\"\n"),
        ("b.osc", b"import \"main.osc\"\n"),
    ];
    let rows: [(u64, &str); 7] = [
        (0, "shelf main.osc"),
        (1, "shelf main.osc"),
        (2, "shelf main.osc"),
        (3, "shelf b.osc"),
        (4, "shelf b.osc"),
        (5, "shelf b.osc"),
        (6, "loads main.osc osc b.osc"),
    ];
    for (failing, want) in rows {
        assert_eq!(rt;
            answer(alloc, shelf(alloc, &files, &[failing])?)?.as_str(),
            want
        );
    }
    Ok(())
}

/// What is answered when `main.osc` imports `a`, and the comment `b` of so many bytes.
fn with_long(alloc: Global, a: &str, len: usize) -> Result<String, AllocError> {
    let long = vec![in alloc; b'#'; len]?;
    let main = b"import \"a\"\nimport \"b\"\n";
    let mut row = Row::new(alloc);
    row.push(NamedBytes::copy(alloc, "main.osc", main)?)?;
    row.push(NamedBytes::copy(alloc, "a", a.as_bytes())?)?;
    row.push(NamedBytes::copy(alloc, "b", long.as_slice())?)?;
    answer(alloc, MemoryShelf::new(row, 4096, Row::new(alloc)))
}

/// What is answered when `main.osc` imports the files f1, f2 and so on, and has one more line.
fn with_many(alloc: Global, count: u32, last: &str) -> Result<String, AllocError> {
    let mut row = Row::new(alloc);
    let mut main = String::new(alloc);
    for number in 1..=count {
        let name = format!(in alloc; "f{number}")?;
        row.push(NamedBytes::copy(alloc, name.as_str(), b"")?)?;
        let line = format!(in alloc; "import \"f{number}\"\n")?;
        main.push_str(line.as_str())?;
    }
    main.push_str(last)?;
    row.push(NamedBytes::copy(alloc, "main.osc", main.as_bytes())?)?;
    answer(alloc, MemoryShelf::new(row, 4096, Row::new(alloc)))
}

#[test]
fn the_longest_and_the_most_files(rt: HostRuntime) -> Result<(), Fail> {
    let alloc = rt.alloc();
    assert_eq!(rt; with_long(alloc, "", LIMIT)?.as_str(), "loads main.osc a b");
    assert_eq!(rt; with_long(alloc, "", LIMIT + 1)?.as_str(), "long b");
    assert_eq!(rt;
        with_long(alloc, "$", LIMIT + 1)?.as_str(),
        "fault 104 a:1:1"
    );
    let most = with_many(alloc, 62, "import osc.standard\n")?;
    assert!(rt; most.as_str().ends_with(" f61 f62 osc"));
    let library = with_many(alloc, 63, "import osc.standard\n")?;
    assert_eq!(rt; library.as_str(), "fault 302 main.osc:64:8");
    let dotted = with_many(alloc, 64, "import lib\n")?;
    assert_eq!(rt; dotted.as_str(), "fault 302 main.osc:64:8");
    Ok(())
}
