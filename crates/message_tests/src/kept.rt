use crate::call::{call, call_over};
use crate::once_shelf::OnceShelf;
use outside_io::MemoryShelf;
use std::alloc::AllocGlobal;
use std::process::Abort;
use std::test::Fail;

const GENERATE: [&str; 3] = ["generate", "main.osc", "top"];

/// Sees what is told of this source, which imports a file, if each file is given once: the same as else, and this in it.
fn given_once(rt: &(impl Abort + AllocGlobal), source: &str, want: &str) -> Result<(), Fail> {
    let alloc = rt.alloc();
    let files: [(&str, &[u8]); 2] = [
        ("main.osc", source.as_bytes()),
        ("part.osc", b"import \"main.osc\"\nscenario other\n"),
    ];
    let shelf = OnceShelf::new(alloc, MemoryShelf::of(alloc, &files, 4096, &[])?);
    let called = call_over(alloc, &GENERATE, shelf, 8192)?;
    assert_eq!(rt; called.status, 3, "{source}");
    assert!(rt; called.message.as_str().contains(want), "{source}");
    let same = call(alloc, &GENERATE, &files)?;
    assert_eq!(rt; called.written.as_str(), same.written.as_str());
    assert_eq!(rt; called.message.as_str(), same.message.as_str());
    Ok(())
}

/// Messages tell of what was read, since no file is fetched twice.
#[test]
fn files_that_are_given_once(rt: HostRuntime) -> Result<(), Fail> {
    let rows = [
        ("scenario top:\n    x int\n", " 2 |     x int\n"),
        (
            "import \"part.osc\"\nscenario other\n",
            "^^^^^ the earlier declaration\n",
        ),
        (
            "import \"part.osc\"\nscenario tops\n",
            "A name near `top` is `tops`.\n",
        ),
        (
            "import \"part.osc\"\nscenario top:\n    x: inr\n",
            "A name near `inr` is `int`.\n",
        ),
    ];
    for (source, want) in rows {
        given_once(&rt, source, want)?;
    }
    Ok(())
}

/// A file is kept whole, however few bytes come at a time.
#[test]
fn files_of_small_pieces(rt: HostRuntime) -> Result<(), Fail> {
    let alloc = rt.alloc();
    let files: [(&str, &[u8]); 1] = [("main.osc", b"scenario tops\n")];
    for most in [1, 3, 4096] {
        let shelf = MemoryShelf::of(alloc, &files, most, &[])?;
        let called = call_over(alloc, &GENERATE, shelf, 8192)?;
        assert!(rt; called.message.as_str().contains(" --> main.osc:2:1\n"));
        assert!(rt;
            called
                .message
                .as_str()
                .contains("A name near `top` is `tops`.\n")
        );
    }
    Ok(())
}
