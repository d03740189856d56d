ghost use Rattle.std.specs.Prelude.{◌≡◌, ◌≢◌, ℕ, ◌<◌, ◌≤◌, [], Ok, Err, is_some, IfSome, IfOk, IfErr, OnOk, length};
ghost use Rattle.outside_io.specs.Counts.{Rises};
ghost use Rattle.outside_io.specs.Files.{NothingLeft};
ghost use Rattle.box_eval.specs.Rules.{IsFlat, IsEmpty};
ghost use Rattle.record_text.specs.Nodes.{no_nodes};
ghost use Rattle.record_text.specs.Progress.{SomeBadText, Stopped};
ghost use Rattle.record_text.specs.Rest.{AreFew, StoppedFrom};
ghost use Rattle.record_text.specs.Source.{limit, ReadsOn};
ghost use Rattle.record_text.specs.Stops.{shelf_failed};
ghost use Rattle.record_text.specs.Text.{IsFirstBadLine};
ghost use Rattle.refute_check.specs.Answers.{refused_header, verdict_of, HasJudged, Answers, SomeVerified, IsRefutationText, IsOpenText, IsRefusedAt};

use crate::stack::Stack;
use crate::sums::no_sums;
use crate::walk::walk;
use bound_trail::Trail;
use box_eval::Flat;
use outside_io::Shelf;
use record_text::{Header, Nodes, Reader, VerifyStop, read_header, read_rest};
use std::alloc::Global;

/// The most cuts that may stand above a line.
const MOST_ROOM: u64 = 1_000_000;

/// What a record is, against a flat form.
#[derive(Debug, Clone, Copy, PartialEq, Eq)]
pub enum Verified {
    /// Every line is accepted and no leaf is open: no point of the flat form's box meets all its rules.
    Refuted,
    /// Every line is accepted, and some leaf is open.
    Open { cuts: u32 },
    /// The number of the first line that isn't accepted, counted from 1.
    No { line: u32 },
}

/// Checks what is left of the fetched file, which is to be a record, against a flat form.
///
/// The text is read to its end even after a line that is bad or isn't accepted. So a failing shelf and a text that is too
/// long come before a bad line, and that before a line that isn't accepted. After the fourth line it takes memory for as
/// many cuts as the record has room for and for a number for each slot, if the first four lines are accepted, and none
/// after that.
///
/// Each answer about a text is that of some text, also of a shelf that tells nothing.
pub fn verify<H: Shelf>(alloc: Global, flat: &Flat, shelf: &mut H) -> Result<Verified, VerifyStop>
    requires { IsFlat flat.now }
    ensures refuted { result ≡ Ok Verified.Refuted → IfSome (H.left shelf.old) (λ text. IsRefutationText flat.now text) }
    ensures empty { result ≡ Ok Verified.Refuted → IsEmpty flat.now.rules flat.now.bounds.pairs }
    ensures undecided { (cuts : ℕ) → result ≡ Ok (Verified.Open cuts) → IfSome (H.left shelf.old) (λ text. IsOpenText flat.now text cuts) }
    ensures refused { (line : ℕ) → result ≡ Ok (Verified.No line) → IfSome (H.left shelf.old) (λ text. IsRefusedAt flat.now text line) }
    ensures bad_line { (line : ℕ) → result ≡ Err (VerifyStop.BadLine line) → IfSome (H.left shelf.old) (λ text. IsFirstBadLine text line) }
    ensures bad_within { (line : ℕ) → result ≡ Err (VerifyStop.BadLine line) → IfSome (H.left shelf.old) (λ text. length text ≤ limit) }
    ensures bad_end { (line : ℕ) → result ≡ Err (VerifyStop.BadLine line) → NothingLeft (H.left shelf.new) }
    ensures too_long { result ≡ Err VerifyStop.TooLong → IfSome (H.left shelf.old) (λ text. limit < length text) }
    ensures within { OnOk result (IfSome (H.left shelf.old) (λ text. length text ≤ limit)) }
    ensures end { OnOk result (NothingLeft (H.left shelf.new)) }
    ensures some_text { IfOk result (SomeVerified flat.now) }
    ensures some_bad { (line : ℕ) → result ≡ Err (VerifyStop.BadLine line) → SomeBadText line }

    ensures fault { result ≡ Err VerifyStop.Shelf → NothingLeft (H.left shelf.new) }
    ensures cause { result ≡ Err VerifyStop.Shelf → Rises (H.faults shelf.old) (H.faults shelf.new) }
    ensures never_falls { H.faults shelf.old ≤ H.faults shelf.new }
    ensures steady { result ≢ Err VerifyStop.Shelf → H.faults shelf.new ≡ H.faults shelf.old }
    ensures files_kept { H.files shelf.new ≡ H.files shelf.old }
    ensures telling_kept { is_some (H.left shelf.new) ≡ is_some (H.left shelf.old) }
{
    checked(alloc, flat, shelf)
}

fn checked<H: Shelf>(alloc: Global, flat: &Flat, shelf: &mut H) -> Result<Verified, VerifyStop>
    requires { IsFlat flat.now }
    ensures answer { IfOk result (λ verified. Answers flat.now verified (H.left shelf.old)) }
    ensures end { OnOk result (NothingLeft (H.left shelf.new)) }
    ensures some_text { IfOk result (SomeVerified flat.now) }
    ensures stop { IfErr result (λ stop. Stopped stop (H.left shelf.old) (H.left shelf.new)) }
    ensures shelf { ReadsOn (H.files shelf.old) (H.files shelf.new) (H.left shelf.old) (H.left shelf.new) (H.faults shelf.old) (H.faults shelf.new) (shelf_failed result) }
{
    let mut reader = Reader::new();
    let header = read_header(&mut reader, shelf)?;
    let mut nodes = Nodes::new(header.undecided, header.form);
    let refused = judge_lines(alloc, flat, &header, &mut reader, shelf, &mut nodes)?;
    read_rest(&mut reader, shelf, &mut nodes)?;
    Ok(verdict_of(refused, &nodes))
}

/// The first line that isn't accepted, if one was found: of the header, or else of the cuts and leaves, which are then
/// read as far as that line.
fn judge_lines<H: Shelf>(
    alloc: Global,
    flat: &Flat,
    header: &Header,
    reader: &mut Reader,
    shelf: &mut H,
    nodes: &mut Nodes,
) -> Result<Option<u32>, VerifyStop>
    requires flat { IsFlat flat.now }
    requires few { AreFew nodes.old reader.old }
    requires nodes { nodes.old ≡ no_nodes nodes.old.undecided nodes.old.form }
    requires four { reader.old.lines ≡ 4 }
    ensures judged { IfOk result (λ refused. HasJudged flat.now header.now refused nodes.old nodes.new reader.old reader.new (H.left shelf.old) (H.left shelf.new)) }
    ensures stop { IfErr result (λ stop. StoppedFrom stop nodes.old reader.old (H.left shelf.old) (H.left shelf.new)) }
    ensures shelf { ReadsOn (H.files shelf.old) (H.files shelf.new) (H.left shelf.old) (H.left shelf.new) (H.faults shelf.old) (H.faults shelf.new) (shelf_failed result) }
{
    if let Some(line) = refused_header(flat, header) {
        return Ok(Some(line));
    }
    let room = header.room as u32;
    let mut trail = Trail::new(alloc, &flat.bounds, room)?;
    let mut stack = Stack::new(alloc, room)?;
    let mut sums = no_sums(alloc, flat)?;
    walk(
        flat,
        reader,
        shelf,
        nodes,
        &mut trail,
        &mut stack,
        sums.as_mut_slice(),
    )
}

/// The first of a record's first four lines that isn't accepted.
fn refused_header(flat: &Flat, header: &Header) -> Option<u32>
    requires { IsFlat flat.now }
    ensures { result ≡ refused_header flat.now header.now }
{
    if header.slots != flat.bounds.pairs.as_slice().len() as u64 {
        Some(2)
    } else if header.rules != flat.rules.as_slice().len() as u64 {
        Some(3)
    } else if header.room > MOST_ROOM {
        Some(4)
    } else {
        None
    }
}

fn verdict_of(refused: Option<u32>, nodes: &Nodes) -> Verified
    ensures { result ≡ verdict_of refused nodes.now }
{
    match refused {
        Some(line) => Verified::No { line },
        None if nodes.some_open => {
            let cuts = nodes.cuts;
            Verified::Open { cuts }
        }
        None => Verified::Refuted,
    }
}
