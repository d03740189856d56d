use crate::programs::loaded;
use std::process::Abort;
use std::test::Fail;
use type_heads::Heads;
use type_model::TypeId;

/// A line of heirs, of which some stand before their bases, and an heir beside it.
const HEIRS: &str = "struct e inherits d
struct b inherits a
struct a
struct d inherits c
struct c inherits b
struct f inherits b
";

/// The first of these types inherits from itself.
const LOOP: &str = "struct a inherits b
struct b inherits a
struct c inherits b
struct d
";

const BASIC: TypeId = TypeId(0);

const FIRST: TypeId = TypeId(5);

const SECOND: TypeId = TypeId(6);

const THIRD: TypeId = TypeId(7);

const FOURTH: TypeId = TypeId(8);

const LAST: TypeId = TypeId(10);

fn heirs_are(rt: &impl Abort, heads: &Heads) {
    assert!(rt; heads.has_base(THIRD, FIRST));
    assert!(rt; heads.has_base(FOURTH, FIRST));
    assert!(rt; heads.has_base(SECOND, LAST));
    assert!(rt; !heads.has_base(FIRST, FIRST));
    assert!(rt; !heads.has_base(FIRST, THIRD));
    assert!(rt; !heads.has_base(FOURTH, LAST));
    assert!(rt; !heads.has_base(BASIC, FIRST));
    assert!(rt; heads.is_kind_of(FIRST, FIRST));
    assert!(rt; heads.is_kind_of(THIRD, LAST));
    assert!(rt; !heads.is_kind_of(LAST, FIRST));
}

#[test]
fn heirs_of_a_line(rt: HostRuntime) -> Result<(), Fail> {
    let Some(program) = loaded(rt.alloc(), HEIRS)? else {
        return Ok(assert!(rt; false, "the program is loaded"));
    };
    let heads = Heads::build(rt.alloc(), &program)?;
    heirs_are(&rt, &heads);
    Ok(())
}

fn loop_is(rt: &impl Abort, heads: &Heads) {
    assert!(rt; heads.has_base(FIRST, FIRST));
    assert!(rt; heads.has_base(FIRST, THIRD));
    assert!(rt; !heads.has_base(THIRD, THIRD));
    assert!(rt; !heads.has_base(FOURTH, FOURTH));
    assert!(rt; heads.is_kind_of(FOURTH, FOURTH));
}

#[test]
fn heirs_of_themselves(rt: HostRuntime) -> Result<(), Fail> {
    let Some(program) = loaded(rt.alloc(), LOOP)? else {
        return Ok(assert!(rt; false, "the program is loaded"));
    };
    let heads = Heads::build(rt.alloc(), &program)?;
    loop_is(&rt, &heads);
    Ok(())
}
