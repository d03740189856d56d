//! The earlier declaration of a name that is declared twice.

use message_parts::Spot;
use mistake_helps::{Declared, first_of};
use name_scope::Program;

/// The place of the first declaration of the name that is declared at a spot. `None` if that is the first one.
pub fn earlier<'a>(
    program: &'a Program,
    names: &[Declared<'a>],
    spot: &Spot<'_>,
) -> Option<Spot<'a>> {
    let later = declared_at(program, names, spot)?;
    let first = first_of(names, later)?.name.place;
    if first == later.name.place {
        return None;
    }
    Some(Spot {
        code: spot.code,
        file: program.name(first.file)?,
        line: first.line,
        column: first.column,
    })
}

fn declared_at<'a>(
    program: &Program,
    names: &[Declared<'a>],
    spot: &Spot<'_>,
) -> Option<Declared<'a>> {
    for declared in names {
        let place = declared.name.place;
        if place.line == spot.line
            && place.column == spot.column
            && program.name(place.file) == Some(spot.file)
        {
            return Some(*declared);
        }
    }
    None
}
