//! Laws on flat forms with rules put behind theirs, and with rules left out.

ghost use Rattle.asked_forms.specs.FormLaws.{AddedIsFlat, DroppedIsFlat};

/// The law that a flat form stays one with further rules behind, each of which may be judged on its box, while they are
/// fewer than 2^32.
pub fn added_is_flat()
    ensures { AddedIsFlat }
{}

/// The law that a flat form stays one if rules of it are exchanged for ones that ask nothing.
pub fn dropped_is_flat()
    ensures { DroppedIsFlat }
{}
