use crate::programs::{PARTS, loaded};
use program_members::ProgramMembers;
use std::alloc::{AllocError, Global};
use std::test::Fail;
use type_model::{ListedMember, MemberLists, member_lists};

/// Writes each member as the type that holds it, and how many conditional subtypes it is under, without the outermost `inside`.
fn push_holders(
    alloc: Global,
    text: &mut String,
    members: &[ListedMember<'_>],
    inside: usize,
) -> Result<(), AllocError> {
    for member in members {
        let under = member.under_inside(inside).len();
        let line = format!(in alloc; "{}/{under} ", member.holder.0)?;
        text.push_str(line.as_str())?;
    }
    Ok(())
}

/// The members of each type, first those in parts in front of its row.
pub fn holders(alloc: Global, lists: &MemberLists<'_>) -> Result<String, AllocError> {
    let mut text = String::new(alloc);
    for span in lists.spans() {
        for part in lists.front(span.row) {
            push_holders(alloc, &mut text, lists.part(part), part.inside)?;
        }
        push_holders(alloc, &mut text, lists.own(span), 0)?;
    }
    Ok(text)
}

const HOLDERS: &str = "7/0 7/0 8/1 7/0 7/0 7/0 7/0 8/0 7/0 7/0 8/1 7/0 9/0 ";

#[test]
fn with_holders(rt: HostRuntime) -> Result<(), Fail> {
    let alloc = rt.alloc();
    let Some(program) = loaded(alloc, PARTS)? else {
        return Ok(assert!(rt; false, "the program is loaded"));
    };
    let lists = member_lists(alloc, &program)?;
    let text = holders(alloc, &lists)?;
    assert_eq!(rt; text.as_str(), HOLDERS);
    Ok(())
}

/// The program has no library, and a body for each type.
#[test]
fn with_bodies(rt: HostRuntime) -> Result<(), Fail> {
    let alloc = rt.alloc();
    let Some(program) = loaded(alloc, PARTS)? else {
        return Ok(assert!(rt; false, "the program is loaded"));
    };
    let None = program.wanted() else {
        return Ok(assert!(rt; false, "the program is whole"));
    };
    let members = ProgramMembers::of(alloc, &program)?;
    assert!(rt; members.library.is_none());
    assert!(rt; members.bodies.len() == 13);
    let text = holders(alloc, &members.lists)?;
    assert_eq!(rt; text.as_str(), HOLDERS);
    Ok(())
}
