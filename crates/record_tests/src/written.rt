//! A record as it is written, over sinks of several kinds.
ghost use Rattle.std.specs.Prelude.{◌≤◌};

use crate::rows::{SHORT_REFUTATION, short_refutation};
use osc_base::Row;
use outside_io::MemorySink;
use refute_check::write_record;
use std::alloc::Global;
use std::test::Fail;

/// What writing a record came to, and how many bytes the sink holds then.
fn written(alloc: Global, room: usize, most: usize, failing: &[u64]) -> Result<String, Fail>
    requires { 1 ≤ most }
{
    let record = short_refutation(alloc)?;
    let mut sink = MemorySink::new(alloc, room, most, Row::of(Vec::from_slice(alloc, failing)?))?;
    let result = write_record(&mut sink, &record);
    Ok(format!(in alloc; "{:?} {}", result, sink.written().len())?)
}

#[test]
fn a_record_is_written(rt: HostRuntime) -> Result<(), Fail> {
    let alloc = rt.alloc();
    let record = short_refutation(alloc)?;
    for most in [1, 7, 4096] {
        assert!(rt; 1 <= most);
        let mut sink = MemorySink::new(alloc, 4096, most, Row::new(alloc))?;
        assert_eq!(rt; write_record(&mut sink, &record), Ok(()));
        assert_eq!(rt; sink.written(), SHORT_REFUTATION);
    }
    Ok(())
}

#[test]
fn a_sink_without_room_has_what_fits(rt: HostRuntime) -> Result<(), Fail> {
    assert_eq!(rt; written(rt.alloc(), 10, 4, &[])?.as_str(), "Err(Sink) 10");
    Ok(())
}

#[test]
fn a_sink_that_fails_has_what_came_before(rt: HostRuntime) -> Result<(), Fail> {
    assert_eq!(rt;
        written(rt.alloc(), 4096, 4, &[3])?.as_str(),
        "Err(Sink) 12"
    );
    Ok(())
}
