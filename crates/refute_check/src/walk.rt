ghost use Rattle.std.specs.Prelude.{◌≡◌, [], ◌∷◌, IfOk, IfErr};
ghost use Rattle.box_eval.specs.Rules.{IsFlat};
ghost use Rattle.record_text.specs.Nodes.{no_nodes};
ghost use Rattle.record_text.specs.Rest.{AreFew, StoppedFrom};
ghost use Rattle.record_text.specs.Source.{ReadsOn};
ghost use Rattle.record_text.specs.Stops.{shelf_failed};
ghost use Rattle.refute_check.specs.Judged.{HasWalked};
ghost use Rattle.refute_check.specs.Walk.{AreSums};

use crate::stack::Stack;
use crate::step::step;
use bound_trail::Trail;
use box_eval::Flat;
use outside_io::Shelf;
use record_text::{Nodes, Reader, VerifyStop, next_node};

/// Reads cuts and leaves until the last leaf, or until one isn't accepted, whose line it answers. It takes no memory.
pub(crate) fn walk<H: Shelf>(
    flat: &Flat,
    reader: &mut Reader,
    shelf: &mut H,
    nodes: &mut Nodes,
    trail: &mut Trail,
    stack: &mut Stack,
    sums: &mut [i128],
) -> Result<Option<u32>, VerifyStop>
    requires flat { IsFlat flat.now }
    requires few { AreFew nodes.old reader.old }
    requires nodes { nodes.old ≡ no_nodes nodes.old.undecided nodes.old.form }
    requires trail { trail.old ≡ record { boxes = flat.now.bounds.pairs ∷ []; room = trail.old.room } }
    requires stack { stack.old ≡ record { items = []; room = trail.old.room } }
    requires sums { AreSums flat.now sums.old }
    ensures walked { IfOk result (λ no. HasWalked flat.now trail.old.room no nodes.old nodes.new reader.old reader.new (H.left shelf.old) (H.left shelf.new)) }
    ensures stop { IfErr result (λ stop. StoppedFrom stop nodes.old reader.old (H.left shelf.old) (H.left shelf.new)) }
    ensures shelf { ReadsOn (H.files shelf.old) (H.files shelf.new) (H.left shelf.old) (H.left shelf.new) (H.faults shelf.old) (H.faults shelf.new) (shelf_failed result) }
{
    while nodes.left > 0 {
        let line = next_node(reader, shelf, nodes)?;
        if !step(flat, trail, stack, sums, line, reader.picks()) {
            return Ok(Some(reader.lines()));
        }
    }
    Ok(None)
}
