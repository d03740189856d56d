ghost use Rattle.std.specs.Prelude.{◌≡◌, ◌≤◌, [], ◌∷◌, ◌++◌, take, true, IfOk, OnOk, Err};
ghost use Rattle.record_text.specs.Source.{limit, IsFurther, IsAtEnd, IsWithin, IsTooLong, ReadsOn};
ghost use Rattle.record_text.specs.Stops.{source_failed};
ghost use Rattle.record_text.specs.Reader.{Finds};
ghost use Rattle.record_text.specs.WholeLines.{whole_found};

use crate::found::{Found, find_line};
use crate::picks::Picks;
use crate::source::Source;
use crate::stop::SourceStop;
use arrayvec::ArrayVec;
use outside_io::Shelf;

/// One byte more than the longest line of a record has.
pub(crate) const LONGEST: usize = 1_732;

/// Reads the next line, whose bytes are then held. If it is a sum, its rules are in `picks` then.
pub(crate) fn next_line<H: Shelf>(
    source: &mut Source,
    held: &mut ArrayVec<u8, LONGEST>,
    picks: &mut Picks,
    shelf: &mut H,
) -> Result<Found, SourceStop>
    ensures further { IsFurther source.old source.new }
    ensures finds { IfOk result (λ found. Finds (whole_found picks.new found) source.old source.new (H.left shelf.old) (H.left shelf.new)) }
    ensures too_long { result ≡ Err SourceStop.TooLong → IsTooLong source.old (H.left shelf.old) }
    ensures shelf { ReadsOn (H.files shelf.old) (H.files shelf.new) (H.left shelf.old) (H.left shelf.new) (H.faults shelf.old) (H.faults shelf.new) (source_failed result) }
{
    held.clear();
    while let Some(byte) = source.next(shelf)? {
        if byte == b'\n' {
            return Ok(find_line(held.as_slice(), picks));
        }
        // no record has a line that is longer
        hold(held, byte);
    }
    Ok(Found::Nothing)
}

/// Adds a byte where there is room for it.
fn hold(held: &mut ArrayVec<u8, LONGEST>, byte: u8)
    ensures { held.new.items ≡ take 1732 (held.old.items ++ byte ∷ []) }
{
    if !held.is_full() {
        held.push(byte);
    }
}

/// Reads what comes after a line that was found, to the end of the text, unless it ended there.
pub(crate) fn read_on<H: Shelf>(
    source: &mut Source,
    shelf: &mut H,
    ended: bool,
) -> Result<(), SourceStop>
    requires end { ended ≡ true → IsAtEnd source.old (H.left shelf.old) }
    requires few { source.old.given ≤ limit }
    ensures further { IsFurther source.old source.new }
    ensures end { OnOk result (IsAtEnd source.new (H.left shelf.new)) }
    ensures within { OnOk result (IsWithin source.old (H.left shelf.old)) }
    ensures too_long { result ≡ Err SourceStop.TooLong → IsTooLong source.old (H.left shelf.old) }
    ensures shelf { ReadsOn (H.files shelf.old) (H.files shelf.new) (H.left shelf.old) (H.left shelf.new) (H.faults shelf.old) (H.faults shelf.new) (source_failed result) }
{
    if ended { Ok(()) } else { source.to_end(shelf) }
}
