//! Places of a source, and its lines.

use message_parts::{Spot, bytes_of, gutter_of, line_start, put_site, source_of};
use mistake_cases::View;
use osc_base::FaultCode;
use outside_io::MemoryShelf;
use std::alloc::{AllocError, Global};

/// A place of a source, as the listing has it.
#[derive(Debug, Clone, Copy, PartialEq, Eq)]
pub struct RulePlace<'a> {
    pub file: &'a str,
    pub line: u32,
    pub column: u32,
}

/// The place that a text `FILE:LINE:COLUMN` names.
pub fn place_in(text: &str) -> Option<RulePlace<'_>> {
    let (rest, column) = text.rsplit_once(':')?;
    let (file, line) = rest.rsplit_once(':')?;
    Some(RulePlace {
        file,
        line: line.parse().ok()?,
        column: column.parse().ok()?,
    })
}

/// The text around a place. A view is of a fault; here its code is of no use.
pub fn view_at<'a>(source: Option<&'a [u8]>, place: RulePlace<'_>) -> Option<View<'a>> {
    let source = source?;
    let start = line_start(source, place.line)?;
    let at = start.saturating_add((place.column as usize).saturating_sub(1));
    View::new(FaultCode::Syntax, source, start, at)
}

/// Puts the place of a rule with the line of its source, and what there is to say of it.
pub fn put_place(
    alloc: Global,
    text: &mut String,
    place: RulePlace<'_>,
    label: &str,
    kept: &mut MemoryShelf,
) -> Result<(), AllocError> {
    let spot = Spot {
        code: FaultCode::Syntax,
        file: place.file,
        line: place.line,
        column: place.column,
    };
    let bytes = source_of(alloc, place.file, kept)?;
    put_site(
        alloc,
        text,
        gutter_of(place.line),
        &spot,
        bytes_of(&bytes),
        label,
    )
}
