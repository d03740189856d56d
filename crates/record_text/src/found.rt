ghost use Rattle.std.specs.Prelude.{◌≡◌, List};
ghost use Rattle.linear_sums.specs.declared.pick.Pick.{Pick};
ghost use Rattle.record_text.specs.Lines.{is_two};
ghost use Rattle.record_text.specs.Reader.{found_at, is_nothing, wanted_line, if_wanted, wants};
ghost use Rattle.record_text.specs.WholeLines.{whole_line, whole_if, whole_found};

use crate::line::line_of;
use crate::picks::Picks;
use crate::{Form, ReadLine};

/// What stands next in a text.
#[derive(Clone, Copy)]
pub(crate) enum Found {
    /// A line that a record may have.
    Line(ReadLine),
    /// Another line.
    Other,
    /// No whole line: the text ends first.
    Nothing,
}

/// What a line is, its line feed left out. If it is a sum, its rules are in `picks` then.
pub(crate) fn find_line(text: &[u8], picks: &mut Picks) -> Found
    ensures { whole_found picks.new result ≡ found_at text.now }
{
    match line_of(text, picks) {
        Some(line) => Found::Line(line),
        None => Found::Other,
    }
}

/// Whether the text ended.
pub(crate) fn is_nothing(found: Found) -> bool
    ensures { (picks : List Pick) → result ≡ is_nothing (whole_found picks found) }
{
    matches!(found, Found::Nothing)
}

/// What the reader of a record looks for.
#[derive(Clone, Copy)]
pub enum Wanted {
    Head,
    Slots,
    Rules,
    Room,
    /// A cut or a leaf, which may be open in an undecided record, and a sum in one of form 2.
    Node { undecided: bool, form: Form },
    End,
    /// No line will do.
    Nothing,
}

/// The line that was found, if it is wanted.
pub(crate) fn wanted_line(wanted: Wanted, found: Found) -> Option<ReadLine>
    ensures { (picks : List Pick) → whole_if picks result ≡ wanted_line wanted (whole_found picks found) }
{
    match found {
        Found::Line(line) => if_wanted(wanted, line),
        _ => None,
    }
}

fn if_wanted(wanted: Wanted, line: ReadLine) -> Option<ReadLine>
    ensures { (picks : List Pick) → whole_if picks result ≡ if_wanted wanted (whole_line picks line) }
{
    if wants(wanted, line) {
        Some(line)
    } else {
        None
    }
}

/// Whether the line is what is looked for.
fn wants(wanted: Wanted, line: ReadLine) -> bool
    ensures { (picks : List Pick) → result ≡ wants wanted (whole_line picks line) }
{
    match (wanted, line) {
        (Wanted::Head, ReadLine::Head { .. }) => true,
        (Wanted::Slots, ReadLine::Slots(_)) => true,
        (Wanted::Rules, ReadLine::Rules(_)) => true,
        (Wanted::Room, ReadLine::Room(_)) => true,
        (Wanted::Node { .. }, ReadLine::Cut { .. }) => true,
        (Wanted::Node { .. }, ReadLine::Close { .. }) => true,
        (Wanted::Node { form, .. }, ReadLine::Sum) => is_two(form),
        (Wanted::Node { undecided, .. }, ReadLine::Open) => undecided,
        (Wanted::End, ReadLine::End) => true,
        _ => false,
    }
}

/// Whether a record of this form may have sums.
pub(crate) fn is_two(form: Form) -> bool
    ensures { result ≡ is_two form }
{
    match form {
        Form::One => false,
        Form::Two => true,
    }
}
