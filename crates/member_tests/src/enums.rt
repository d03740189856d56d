use crate::programs::loaded;
use std::process::Abort;
use std::test::Fail;
use type_heads::Heads;
use type_model::{EnumHit, TypeId};

/// Enums that share a member. One of them has a member twice, which is a fault, but heads are there all the same.
const ENUMS: &str = "enum a: [x, y = 7, x]
enum b: [z, y]
extend a: [z2]
";

const A: TypeId = TypeId(5);

const B: TypeId = TypeId(6);

/// A member that an enum has twice counts once, with its first number.
fn hits_are(rt: &impl Abort, heads: &Heads) {
    assert!(rt; heads.enum_with("x") == EnumHit::One(A));
    assert!(rt; heads.enum_with("y") == EnumHit::Several);
    assert!(rt; heads.enum_with("z") == EnumHit::One(B));
    assert!(rt; heads.enum_with("z2") == EnumHit::One(A));
    assert!(rt; heads.enum_with("w") == EnumHit::Absent);
}

fn numbers_are(rt: &impl Abort, heads: &Heads) {
    assert!(rt; heads.enum_number(A, "x") == Some(0));
    assert!(rt; heads.enum_number(A, "y") == Some(7));
    assert!(rt; heads.enum_number(B, "y") == Some(1));
    assert!(rt; heads.enum_number(A, "z2") == Some(9));
    assert!(rt; heads.enum_number(A, "z") == None);
    assert!(rt; heads.enum_number(TypeId(0), "x") == None);
    assert!(rt; heads.enum_number(TypeId(7), "x") == None);
}

#[test]
fn members_by_name(rt: HostRuntime) -> Result<(), Fail> {
    let alloc = rt.alloc();
    let Some(program) = loaded(alloc, ENUMS)? else {
        return Ok(assert!(rt; false, "the program is loaded"));
    };
    let heads = Heads::build(alloc, &program)?;
    hits_are(&rt, &heads);
    numbers_are(&rt, &heads);
    Ok(())
}
