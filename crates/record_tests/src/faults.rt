//! Shelves that fail.
use crate::answers::answer;
use crate::rows::{REFUTATION, flat};
use std::test::Fail;

#[test]
fn each_call_of_a_shelf_may_fail(rt: HostRuntime) -> Result<(), Fail> {
    let alloc = rt.alloc();
    let flat = flat(alloc)?;
    // call 0 fetches the file, and one call each reads a byte; the last of them finds the end
    let reads = REFUTATION.len() as u64 + 1;
    for call in 1..reads + 1 {
        assert_eq!(rt;
            answer(alloc, &flat, REFUTATION, 1, &[call])?.as_str(),
            "Err(Shelf)"
        );
    }
    assert_eq!(rt;
        answer(alloc, &flat, REFUTATION, 1, &[reads + 1])?.as_str(),
        "Ok(Refuted)"
    );
    Ok(())
}

#[test]
fn each_call_that_reads_a_piece_may_fail(rt: HostRuntime) -> Result<(), Fail> {
    let alloc = rt.alloc();
    let flat = flat(alloc)?;
    // the calls after the fetch read the text and then its end
    for (call, want) in [(1, "Err(Shelf)"), (2, "Err(Shelf)"), (3, "Ok(Refuted)")] {
        assert_eq!(rt;
            answer(alloc, &flat, REFUTATION, 4096, &[call])?.as_str(),
            want
        );
    }
    Ok(())
}

#[test]
fn a_shelf_that_fails_comes_before_a_bad_line(rt: HostRuntime) -> Result<(), Fail> {
    let alloc = rt.alloc();
    let flat = flat(alloc)?;
    assert_eq!(rt;
        answer(alloc, &flat, b"x\n", 1, &[3])?.as_str(),
        "Err(Shelf)"
    );
    Ok(())
}
