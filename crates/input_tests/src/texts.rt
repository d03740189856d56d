use outside_io::{MemoryShelf, Shelf};
use std::test::Fail;
use text_load::{TextStop, load_text};

#[test]
fn texts_of_files(rt: HostRuntime) -> Result<(), Fail> {
    let alloc = rt.alloc();
    let files = [("run.json", b"12345".as_slice()), ("empty", b"".as_slice())];
    let rows: [(&str, usize, Result<&[u8], TextStop>); 4] = [
        ("run.json", 5, Ok(b"12345".as_slice())),
        ("run.json", 4, Err(TextStop::Long)),
        ("empty", 0, Ok(b"".as_slice())),
        ("none", 5, Err(TextStop::Missing)),
    ];
    for (name, limit, want) in rows {
        let mut shelf = MemoryShelf::of(alloc, &files, 2, &[])?;
        match (load_text(alloc, &mut shelf, name, limit), want) {
            (Ok(bytes), Ok(wanted)) => assert_eq!(rt; bytes.as_slice(), wanted),
            (Err(stop), Err(wanted)) => assert_eq!(rt; stop, wanted),
            _ => assert!(rt; false, "{name}"),
        }
    }
    let mut shelf = MemoryShelf::of(alloc, &files, 2, &[1])?;
    match load_text(alloc, &mut shelf, "run.json", 5) {
        Ok(_) => assert!(rt; false, "the shelf failed"),
        Err(stop) => assert_eq!(rt; stop, TextStop::Shelf),
    }
    Ok(())
}
