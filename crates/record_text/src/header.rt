ghost use Rattle.std.specs.Prelude.{◌≡◌, List, [], IfOk, IfErr};
ghost use Rattle.linear_sums.specs.declared.pick.Pick.{Pick};
ghost use Rattle.record_text.specs.Header.{undecided_of, form_told, number_of};
ghost use Rattle.record_text.specs.Nodes.{lines_so_far};
ghost use Rattle.record_text.specs.Progress.{fresh, HasRead, Stopped};
ghost use Rattle.record_text.specs.Source.{ReadsOn};
ghost use Rattle.record_text.specs.Stops.{shelf_failed};
ghost use Rattle.record_text.specs.WholeLines.{whole_line};

use crate::{Form, ReadLine, Reader, VerifyStop, Wanted};
use outside_io::Shelf;

/// What a record says before its first cut.
#[derive(Clone, Copy)]
pub struct Header {
    pub undecided: bool,
    pub form: Form,
    /// The number of slots of the flat form.
    pub slots: u64,
    /// The number of its rules.
    pub rules: u64,
    /// A number that the cuts above a line never exceed.
    pub room: u64,
}

/// Reads the first four lines of a text.
pub fn read_header<H: Shelf>(reader: &mut Reader, shelf: &mut H) -> Result<Header, VerifyStop>
    requires { reader.old ≡ fresh }
    ensures header { IfOk result (λ h. HasRead (lines_so_far h []) reader.old reader.new (H.left shelf.old) (H.left shelf.new)) }
    ensures stop { IfErr result (λ stop. Stopped stop (H.left shelf.old) (H.left shelf.new)) }
    ensures shelf { ReadsOn (H.files shelf.old) (H.files shelf.new) (H.left shelf.old) (H.left shelf.new) (H.faults shelf.old) (H.faults shelf.new) (shelf_failed result) }
{
    let head = reader.expect(shelf, Wanted::Head)?;
    let slots = reader.expect(shelf, Wanted::Slots)?;
    let rules = reader.expect(shelf, Wanted::Rules)?;
    let room = reader.expect(shelf, Wanted::Room)?;
    Ok(Header {
        undecided: undecided_of(head),
        form: form_told(head),
        slots: number_of(slots),
        rules: number_of(rules),
        room: number_of(room),
    })
}

fn undecided_of(line: ReadLine) -> bool
    ensures { (picks : List Pick) → result ≡ undecided_of (whole_line picks line) }
{
    match line {
        ReadLine::Head { undecided, .. } => undecided,
        _ => false,
    }
}

fn form_told(line: ReadLine) -> Form
    ensures { (picks : List Pick) → result ≡ form_told (whole_line picks line) }
{
    match line {
        ReadLine::Head { form, .. } => form,
        _ => Form::One,
    }
}

fn number_of(line: ReadLine) -> u64
    ensures { (picks : List Pick) → result ≡ number_of (whole_line picks line) }
{
    match line {
        ReadLine::Slots(number) | ReadLine::Rules(number) | ReadLine::Room(number) => number,
        _ => 0,
    }
}
