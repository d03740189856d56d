use crate::built::{PARTS, built};
use std::process::Abort;
use std::test::Fail;
use type_model::{EnumHit, FieldType, TypeId, TypeKind, Types};
use units_si::Unit;

const CHARS: TypeId = TypeId(4);

const PACE: TypeId = TypeId(5);

const PAINT: TypeId = TypeId(6);

const PART: TypeId = TypeId(7);

const WING: TypeId = TypeId(8);

const BODY: TypeId = TypeId(9);

const CAR: TypeId = TypeId(10);

const HONK: TypeId = TypeId(11);

const TOP: TypeId = TypeId(12);

/// Names, owners and bases: the basic types come first, then the declared ones.
fn names_are(rt: &impl Abort, types: &Types) {
    assert!(rt; types.count() == 13);
    assert!(rt; types.named(None, "string") == Some(CHARS));
    assert!(rt; types.named(None, "paint") == Some(PAINT));
    assert!(rt; types.named(Some("car"), "honk") == Some(HONK));
    assert!(rt; types.named(None, "honk") == None);
    assert!(rt; types.owner(HONK) == Some(CAR));
    assert!(rt; types.owner(TOP) == None);
    assert!(rt; types.base(WING) == Some(PART));
    assert!(rt; types.base(PART) == None);
}

fn kinds_are(rt: &impl Abort, types: &Types) {
    assert!(rt; types.kind(CHARS) == TypeKind::Chars);
    assert!(rt; types.kind(PAINT) == TypeKind::Enum);
    assert!(rt; types.kind(BODY) == TypeKind::Struct);
    assert!(rt; types.kind(CAR) == TypeKind::Actor);
    assert!(rt; types.kind(HONK) == TypeKind::Action);
    assert!(rt; types.kind(TOP) == TypeKind::Scenario);
    match types.kind(PACE) {
        TypeKind::Physical(exponents) => assert!(rt; exponents.m == 1 && exponents.s == -1),
        _ => assert!(rt; false),
    }
}

fn enums_are(rt: &impl Abort, types: &Types) {
    let numbers: [i64; 3] = [0, 5, 6];
    assert!(rt; types.numbers(PAINT) == numbers.as_slice());
    assert!(rt; types.numbers(PART).is_empty());
    assert!(rt; types.enum_number(PAINT, "blue") == Some(6));
    assert!(rt; types.enum_number(PAINT, "pink") == None);
    assert!(rt; types.enum_with("red") == EnumHit::One(PAINT));
    assert!(rt; types.enum_with("pink") == EnumHit::Absent);
}

fn fields_are(rt: &impl Abort, types: &Types) {
    let names = FieldType {
        of: CHARS,
        length: Some(2),
    };
    let size = FieldType {
        of: PACE,
        length: None,
    };
    assert!(rt; types.field(BODY, "names") == Some(names));
    assert!(rt; types.field(WING, "size") == Some(size));
    assert!(rt; types.field(PART, "names") == None);
}

fn conditions_are(rt: &impl Abort, types: &Types) {
    match types.condition(WING) {
        Some((field, value)) => assert!(rt; field == "colour" && value == 6),
        None => assert!(rt; false),
    }
    assert!(rt; types.condition(BODY).is_none());
}

/// A number in the unit is worth half of it and 2 in base units.
fn is_kph(rt: &impl Abort, unit: &Unit) {
    assert!(rt; unit.exponents.m == 1 && unit.exponents.s == -1);
    assert!(rt; unit.factor.num == 1 && unit.factor.den == 2);
    assert!(rt; unit.offset.num == 2 && unit.offset.den == 1);
}

fn units_are(rt: &impl Abort, types: &Types) {
    match types.unit("kph") {
        Some(unit) => is_kph(rt, &unit),
        None => assert!(rt; false),
    }
    assert!(rt; types.unit("pace").is_none());
}

/// The empty text comes first, then the texts of the program in byte order.
fn texts_are(rt: &impl Abort, types: &Types) {
    match types.texts() {
        [none, a, b] => assert!(rt; none.as_str() == "" && a.as_str() == "a" && b.as_str() == "b"),
        _ => assert!(rt; false),
    }
    assert!(rt; types.text_number("b") == 2);
    assert!(rt; types.text_number("c") == 0);
    assert!(rt; types.bounds(CHARS) == (0, 2));
    assert!(rt; types.bounds(PAINT) == (0, 6));
    assert!(rt; types.bounds(PACE) == (-1_000_000_000, 1_000_000_000));
}

#[test]
fn each_query(rt: HostRuntime) -> Result<(), Fail> {
    let Some(types) = built(rt.alloc(), PARTS)? else {
        return Ok(assert!(rt; false, "the program has types"));
    };
    names_are(&rt, &types);
    kinds_are(&rt, &types);
    enums_are(&rt, &types);
    fields_are(&rt, &types);
    conditions_are(&rt, &types);
    units_are(&rt, &types);
    texts_are(&rt, &types);
    Ok(())
}
