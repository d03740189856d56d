ghost use Rattle.std.specs.Prelude.{◌≤◌};

use osc_base::Row;
use outside_io::{
    FileShelf, MemoryShelf, MemorySink, OutSink, ReadStop, Shelf, ShelfFault, Sink, SinkFault,
    SinkStop, read_all, write_all,
};
use std::alloc::{AllocError, Global};
use std::fmt::Display;
use std::io;
use std::process::Abort;
use std::test::Fail;

fn shelf(alloc: Global, most: usize, failing: &[u64]) -> Result<MemoryShelf, AllocError>
    requires { 1 ≤ most }
{
    let long = [7; 5000];
    let files: [(&str, &[u8]); 4] = [
        ("a", b"first"),
        ("empty", b""),
        ("a", b"second"),
        ("long", &long),
    ];
    MemoryShelf::of(alloc, &files, most, failing)
}

fn sink(alloc: Global, room: usize, most: usize, failing: &[u64]) -> Result<MemorySink, AllocError>
    requires { 1 ≤ most }
{
    MemorySink::new(alloc, room, most, Row::of(Vec::from_slice(alloc, failing)?))
}

/// What is read after a fetch, as one text.
fn read_after<H: Shelf>(
    alloc: Global,
    shelf: &mut H,
    name: &str,
    limit: usize,
) -> Result<String, AllocError> {
    match shelf.fetch(name) {
        Err(ShelfFault) => return String::from_str(alloc, "fetch failed"),
        Ok(false) => return format!(in alloc;
            "missing {:?}",
            read_all(alloc, shelf, limit).map(|b| b.as_slice().len())
        ),
        Ok(true) => {}
    }
    match read_all(alloc, shelf, limit) {
        Ok(bytes) => format!(in alloc; "{} {:?}", bytes.as_slice().len(), bytes.as_slice().first()),
        Err(stop) => format!(in alloc; "{stop:?}"),
    }
}

fn reads(rt: &(impl Abort + AllocGlobal), most: usize) -> Result<(), Fail>
    requires { 1 ≤ most }
{
    let rows: [(&str, usize, &str); 7] = [
        ("a", 5, "5 Some(102)"),
        ("a", 4, "TooLong"),
        ("empty", 0, "0 None"),
        ("b", 9, "missing Ok(0)"),
        ("", 9, "missing Ok(0)"),
        ("long", 5000, "5000 Some(7)"),
        ("long", 4999, "TooLong"),
    ];
    let mut shelf = shelf(rt.alloc(), most, &[])?;
    for (name, limit, want) in rows {
        assert_eq!(rt;
            read_after(rt.alloc(), &mut shelf, name, limit)?.as_str(),
            want,
            "{name} with most {most}"
        );
    }
    Ok(())
}

#[test]
fn memory_shelf_reads(rt: HostRuntime) -> Result<(), Fail> {
    reads(&rt, 1)?;
    reads(&rt, 4096)?;
    // the calls are fetch, read, read
    for (call, want) in [
        (0, "fetch failed"),
        (1, "Shelf"),
        (2, "Shelf"),
        (3, "5 Some(102)"),
    ] {
        let mut shelf = shelf(rt.alloc(), 4096, &[call])?;
        assert_eq!(rt;
            read_after(rt.alloc(), &mut shelf, "a", 9)?.as_str(),
            want,
            "call {call} failing"
        );
    }
    // after a fault no file is fetched
    let mut shelf = shelf(rt.alloc(), 2, &[2])?;
    let mut piece = [0; 3];
    assert_eq!(rt; shelf.read(&mut piece), Ok(0));
    assert_eq!(rt; shelf.fetch("a"), Ok(true));
    assert_eq!(rt; shelf.read(&mut piece), Err(ShelfFault));
    assert_eq!(rt; shelf.read(&mut piece), Ok(0));
    Ok(())
}

#[test]
fn memory_sink_takes(rt: HostRuntime) -> Result<(), Fail> {
    let alloc = rt.alloc();
    for (room, failing, want, written) in [
        (100, 9, Ok(()), "hello"),
        (5, 9, Ok(()), "hello"),
        (3, 9, Err(SinkStop::Sink), "hel"),
        (0, 9, Err(SinkStop::Sink), ""),
        (100, 2, Err(SinkStop::Sink), "he"),
    ] {
        let mut sink = sink(alloc, room, 1, &[failing])?;
        assert_eq!(rt;
            write_all(&mut sink, b"hello"),
            want,
            "room {room}, call {failing} failing"
        );
        assert_eq!(rt; sink.written(), written.as_bytes());
    }
    let mut sink = sink(alloc, 4, 4096, &[])?;
    assert_eq!(rt; sink.write(b"hello"), Ok(4));
    assert_eq!(rt; sink.write(b""), Err(SinkFault));
    assert_eq!(rt; sink.written(), b"hell".as_slice());
    Ok(())
}

#[test]
fn files_are_read(rt: HostRuntime) -> Result<(), Fail> {
    let mut shelf = FileShelf::new(&rt);
    for (name, want) in [
        ("/dev/null", "0 None"),
        ("/dev/zero", "TooLong"),
        ("/no such file", "missing Ok(0)"),
        ("/dev", "Shelf"),
        ("/dev/null/a", "fetch failed"),
        ("", "missing Ok(0)"),
    ] {
        assert_eq!(rt;
            read_after(rt.alloc(), &mut shelf, name, 10000)?.as_str(),
            want,
            "{name}"
        );
    }
    Ok(())
}

/// An output that is closed.
struct Closed;

impl Print for Closed {
    fn print<D: Display + Drop>(&self, _value: D) -> io::Result<()> {
        Err(io::Error::from(io::ErrorKind::BrokenPipe))
    }

    fn println<D: Display + Drop>(&self, _value: D) -> io::Result<()> {
        Err(io::Error::from(io::ErrorKind::BrokenPipe))
    }

    fn write_all(&self, _bytes: &[u8]) -> io::Result<()> {
        Err(io::Error::from(io::ErrorKind::BrokenPipe))
    }
}

#[test]
fn output_is_written(rt: HostRuntime) {
    assert_eq!(rt; write_all(&mut OutSink::new(&rt), b"out\n"), Ok(()));
    assert_eq!(rt;
        write_all(&mut OutSink::new(&Closed), b"out\n"),
        Err(SinkStop::Sink)
    );
}
