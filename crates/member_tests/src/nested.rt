use crate::members::holders;
use crate::programs::loaded;
use std::test::Fail;
use type_model::{MemberLists, member_lists};

/// Conditional subtypes of conditional subtypes: two beside one another, one without members, and one of a type that inherits
/// from another without a condition.
const NESTED: &str = "enum hue: [red, blue]
struct a:
    a1: hue
    a2: hue
struct b inherits a(a1 == red):
    b1: hue
struct c inherits b(a2 == red):
    c1: int
struct d inherits a(a2 == red):
    d1: int
extend b:
    b2: int
struct e inherits c:
    e1: int
struct f inherits e(a1 == blue):
    f1: int
struct g inherits b(b1 == red)
extend a:
    a3: int
";

/// The members of each of these types, as the type that holds each, and how many conditional subtypes it is under.
const HOLDERS: [&str; 7] = [
    "6/0 6/0 7/1 8/2 7/1 9/1 6/0 ",
    "6/0 6/0 9/1 6/0 7/0 8/1 7/0 ",
    "6/0 6/0 9/1 6/0 7/0 7/0 8/0 ",
    "6/0 6/0 7/1 8/2 7/1 6/0 9/0 ",
    "6/0 6/0 9/1 6/0 7/0 7/0 8/0 10/0 11/1 ",
    "6/0 6/0 9/1 6/0 7/0 7/0 8/0 10/0 11/0 ",
    "6/0 6/0 9/1 6/0 7/0 8/1 7/0 ",
];

fn members_in_rows(lists: &MemberLists<'_>) -> usize {
    let mut count: usize = 0;
    for row in lists.rows() {
        count = count.saturating_add(row.members.len());
    }
    count
}

/// A conditional subtype has the members of its base in another order, and each member stands once.
#[test]
fn members_of_nested_subtypes(rt: HostRuntime) -> Result<(), Fail> {
    let alloc = rt.alloc();
    let Some(program) = loaded(alloc, NESTED)? else {
        return Ok(assert!(rt; false, "the program is loaded"));
    };
    let lists = member_lists(alloc, &program)?;
    let mut want = String::new(alloc);
    for members in &HOLDERS {
        want.push_str(*members)?;
    }
    let text = holders(alloc, &lists)?;
    assert_eq!(rt; text.as_str(), want.as_str());
    assert!(rt; members_in_rows(&lists) == 9);
    Ok(())
}

/// How many conditional subtypes of one another there are.
const DEPTH: u32 = 40;

/// A line of conditional subtypes, each of the one before, has one part for each type at most.
#[test]
fn parts_of_a_line(rt: HostRuntime) -> Result<(), Fail> {
    let alloc = rt.alloc();
    let mut source = String::new(alloc);
    source.push_str("struct s0:\n    k: bool\n    f0: int\n")?;
    for number in 1..DEPTH {
        let before = number - 1;
        let text = format!(in alloc;
            "struct s{number} inherits s{before}(k == true):\n    f{number}: int\n"
        )?;
        source.push_str(text.as_str())?;
    }
    let Some(program) = loaded(alloc, source.as_str())? else {
        return Ok(assert!(rt; false, "the program is loaded"));
    };
    let lists = member_lists(alloc, &program)?;
    assert!(rt; members_in_rows(&lists) == 41);
    for span in lists.spans() {
        assert!(rt; lists.front(span.row).len() <= 1);
    }
    Ok(())
}
