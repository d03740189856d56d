use crate::built::{PARTS, built};
use cond_inherit::{Condition, Subtypes, holds};
use std::test::Fail;
use type_model::TypeId;

const PART: TypeId = TypeId(7);

const WING: TypeId = TypeId(8);

const BODY: TypeId = TypeId(9);

/// Whether a condition is that of `wing`, which inherits from `part` if its colour is blue.
fn is_of_wing(condition: &Condition) -> bool {
    condition.subtype == WING && condition.field.as_str() == "colour"
}

/// Whether a condition asks for blue, which has the number 6, and not for green, which has the number 5.
fn is_of_blue(condition: &Condition) -> bool {
    let (of_blue, of_green) = (holds(condition, 6), holds(condition, 5));
    of_blue && !of_green
}

#[test]
fn conditions_of_subtypes(rt: HostRuntime) -> Result<(), Fail> {
    let alloc = rt.alloc();
    let Some(types) = built(alloc, PARTS)? else {
        return Ok(assert!(rt; false, "the program has types"));
    };
    let subtypes = Subtypes::build(alloc, &types)?;
    assert!(rt; subtypes.of(PART).len() == 1);
    for condition in subtypes.of(PART) {
        assert!(rt; is_of_wing(condition));
        assert!(rt; is_of_blue(condition));
    }
    assert!(rt; subtypes.of(BODY).is_empty());
    Ok(())
}
