//! What nodes hold of themselves.

ghost use Rattle.std.specs.Prelude.{◌≡◌};
ghost use Rattle.expr_nodes.specs.Typed.{begun_at};
ghost use Rattle.expr_nodes.specs.Operators.{truth_at as truth_info};
ghost use Rattle.expr_nodes.specs.Seen.{seen, seen_info};

use expr_nodes::{Exponents, Info, Place, Size, Typed, ValueKind};

/// The exponents of a number without a unit.
pub const NO_EXPONENTS: Exponents = Exponents {
    kg: 0,
    m: 0,
    s: 0,
    a: 0,
    k: 0,
    mol: 0,
    cd: 0,
    rad: 0,
};

/// What a truth value that begins at the place holds of itself.
pub fn truth_at(place: Place) -> Info
    ensures { seen_info result ≡ truth_info place }
{
    Info {
        place,
        kind: ValueKind::Truth,
        size: Size::unit(),
    }
}

/// What a node holds of itself, said to begin at another place.
fn moved(place: Place, info: Info) -> Info
    ensures { seen_info result ≡ record (seen_info info) { place = place } }
{
    Info {
        place,
        kind: info.kind,
        size: info.size,
    }
}

/// The node, said to begin at another place.
pub fn begun(place: Place, typed: Typed) -> Typed
    ensures { seen result ≡ begun_at place (seen typed) }
{
    match typed {
        Typed::Constant { info, number } => Typed::Constant {
            info: moved(place, info),
            number,
        },
        Typed::Read { info, path, per } => Typed::Read {
            info: moved(place, info),
            path,
            per,
        },
        Typed::Whole { info, path } => Typed::Whole {
            info: moved(place, info),
            path,
        },
        Typed::Listed {
            info,
            is_field,
            items,
        } => Typed::Listed {
            info: moved(place, info),
            is_field,
            items,
        },
        Typed::Span { info, low, high } => Typed::Span {
            info: moved(place, info),
            low,
            high,
        },
        Typed::Minus { info, part } => Typed::Minus {
            info: moved(place, info),
            part,
        },
        Typed::Not { info, part } => Typed::Not {
            info: moved(place, info),
            part,
        },
        Typed::Joined {
            info,
            join,
            first,
            earlier,
            last,
        } => Typed::Joined {
            info: moved(place, info),
            join,
            first,
            earlier,
            last,
        },
        Typed::Implies { info, left, right } => Typed::Implies {
            info: moved(place, info),
            left,
            right,
        },
        Typed::Relation {
            info,
            sign,
            left,
            right,
        } => Typed::Relation {
            info: moved(place, info),
            sign,
            left,
            right,
        },
        Typed::Within { info, left, right } => Typed::Within {
            info: moved(place, info),
            left,
            right,
        },
    }
}
