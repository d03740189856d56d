use crate::built::{PARTS, built};
use std::alloc::{AllocError, Global};
use std::test::Fail;
use type_model::{MemberRef, TypeId};

/// Members as text: declaration, number there, and the conditional subtype that each is under.
fn shown(alloc: Global, members: &[MemberRef]) -> Result<String, AllocError> {
    let mut text = String::new(alloc);
    for member in members {
        let under = match member.under {
            Some(of) => of.0,
            None => 0,
        };
        let line = format!(in alloc; "{}.{}/{} ", member.decl.index, member.index, under)?;
        text.push_str(line.as_str())?;
    }
    Ok(text)
}

/// The members of its base come first, then its own, those of its conditional subtypes, and those of its extensions.
#[test]
fn in_order(rt: HostRuntime) -> Result<(), Fail> {
    let alloc = rt.alloc();
    let Some(types) = built(alloc, PARTS)? else {
        return Ok(assert!(rt; false, "the program has types"));
    };
    let rows: [(u32, &str); 4] = [
        (6, ""),
        (7, "4.0/0 4.1/0 5.0/8 7.0/0 "),
        (8, "4.0/0 4.1/0 7.0/0 5.0/0 "),
        (9, "4.0/0 4.1/0 5.0/8 7.0/0 6.0/0 "),
    ];
    for (of, want) in &rows {
        let members = types.members(alloc, TypeId(*of))?;
        let text = shown(alloc, members.as_slice())?;
        assert_eq!(rt; text.as_str(), *want);
    }
    Ok(())
}
