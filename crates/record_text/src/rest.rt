ghost use Rattle.std.specs.Prelude.{◌≡◌, ◌<◌, IfOk, IfErr, OnOk};
ghost use Rattle.record_text.specs.Rest.{AreFew, GivesNode, HasRest, StoppedFrom};
ghost use Rattle.record_text.specs.Source.{ReadsOn};
ghost use Rattle.record_text.specs.Stops.{shelf_failed};
ghost use Rattle.record_text.specs.WholeLines.{whole_line};

use crate::{Nodes, ReadLine, Reader, VerifyStop, Wanted};
use outside_io::Shelf;

/// Reads the next cut or leaf of a record.
pub fn next_node<H: Shelf>(
    reader: &mut Reader,
    shelf: &mut H,
    nodes: &mut Nodes,
) -> Result<ReadLine, VerifyStop>
    requires some { 0 < nodes.old.left }
    requires few { AreFew nodes.old reader.old }
    ensures line { IfOk result (λ line. GivesNode (whole_line reader.new.picks line) nodes.old nodes.new reader.old reader.new (H.left shelf.old) (H.left shelf.new)) }
    ensures stop { IfErr result (λ stop. StoppedFrom stop nodes.old reader.old (H.left shelf.old) (H.left shelf.new)) }
    ensures shelf { ReadsOn (H.files shelf.old) (H.files shelf.new) (H.left shelf.old) (H.left shelf.new) (H.faults shelf.old) (H.faults shelf.new) (shelf_failed result) }
{
    let undecided = nodes.undecided;
    let form = nodes.form;
    let line = reader.expect(shelf, Wanted::Node { undecided, form })?;
    nodes.count(line);
    Ok(line)
}

/// Reads what is left of a record, and sees that nothing comes after it.
pub fn read_rest<H: Shelf>(
    reader: &mut Reader,
    shelf: &mut H,
    nodes: &mut Nodes,
) -> Result<(), VerifyStop>
    requires few { AreFew nodes.old reader.old }
    ensures rest { OnOk result (HasRest nodes.old nodes.new reader.old (H.left shelf.old) (H.left shelf.new)) }
    ensures stop { IfErr result (λ stop. StoppedFrom stop nodes.old reader.old (H.left shelf.old) (H.left shelf.new)) }
    ensures shelf { ReadsOn (H.files shelf.old) (H.files shelf.new) (H.left shelf.old) (H.left shelf.new) (H.faults shelf.old) (H.faults shelf.new) (shelf_failed result) }
{
    while nodes.left > 0 {
        next_node(reader, shelf, nodes)?;
    }
    reader.expect(shelf, nodes.wanted())?;
    reader.expect_end(shelf)
}
