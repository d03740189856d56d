use crate::told;
use std::alloc::{AllocError, Global};
use std::test::Fail;

/// How many types a chain has.
const LENGTH: u32 = 100;

/// Types of which each holds the next. The last one holds the type of that number, if there is one.
fn holding(alloc: Global, back: Option<u32>) -> Result<String, AllocError> {
    let mut source = String::new(alloc);
    for number in 0..LENGTH {
        let next = number + 1;
        let lines = format!(in alloc; "struct s{number}:\n    x: s{next}\n")?;
        source.push_str(lines.as_str())?;
    }
    let last = match back {
        Some(number) => format!(in alloc; "struct s{LENGTH}:\n    x: s{number}\n")?,
        None => format!(in alloc; "struct s{LENGTH}:\n    x: int\n")?,
    };
    source.push_str(last.as_str())?;
    Ok(source)
}

/// Types of which each inherits from the one before.
fn inheriting(alloc: Global) -> Result<String, AllocError> {
    let mut source = String::from_str(alloc, "struct s0:\n    x: int\n")?;
    for number in 1..LENGTH {
        let base = number - 1;
        let line = format!(in alloc; "struct s{number} inherits s{base}\n")?;
        source.push_str(line.as_str())?;
    }
    Ok(source)
}

#[test]
fn chains_of_types(rt: HostRuntime) -> Result<(), Fail> {
    let alloc = rt.alloc();
    let sound = holding(alloc, None)?;
    assert_eq!(rt; told(alloc, sound.as_str())?.as_str(), "none");
    let last = holding(alloc, Some(LENGTH))?;
    assert_eq!(rt; told(alloc, last.as_str())?.as_str(), "313 201:8");
    let middle = holding(alloc, Some(50))?;
    assert_eq!(rt; told(alloc, middle.as_str())?.as_str(), "313 101:8");
    let bases = inheriting(alloc)?;
    assert_eq!(rt; told(alloc, bases.as_str())?.as_str(), "none");
    Ok(())
}
