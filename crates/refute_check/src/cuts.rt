ghost use Rattle.std.specs.Prelude.{◌≡◌, ◌<◌, pos, ◌+ℤ◌};
ghost use Rattle.bound_trail.specs.History.{mark_of, present, with_box};
ghost use Rattle.box_eval.specs.Box.{up_to, from, first_part, second_part, IsCutOf};

use bound_trail::Trail;
use box_eval::{Cut, Ends, Side};

/// Goes to the first part of a cut of the present box.
pub(crate) fn set_first(trail: &mut Trail, cut: Cut)
    requires room { mark_of trail.old < trail.old.room }
    requires cuts { IsCutOf (present trail.old) cut }
    ensures { trail.new ≡ with_box trail.old (first_part cut (present trail.old)) }
{
    match cut.side {
        Side::Low => below(trail, cut),
        Side::High => above(trail, cut),
    }
}

/// Goes to the second part of a cut of the present box.
pub(crate) fn set_second(trail: &mut Trail, cut: Cut)
    requires room { mark_of trail.old < trail.old.room }
    requires cuts { IsCutOf (present trail.old) cut }
    ensures { trail.new ≡ with_box trail.old (second_part cut (present trail.old)) }
{
    match cut.side {
        Side::Low => above(trail, cut),
        Side::High => below(trail, cut),
    }
}

fn below(trail: &mut Trail, cut: Cut)
    requires room { mark_of trail.old < trail.old.room }
    requires cuts { IsCutOf (present trail.old) cut }
    ensures { trail.new ≡ with_box trail.old (up_to (present trail.old) cut.slot cut.value) }
{
    trail.set_high(cut.slot, cut.value);
}

fn above(trail: &mut Trail, cut: Cut)
    requires room { mark_of trail.old < trail.old.room }
    requires cuts { IsCutOf (present trail.old) cut }
    ensures { trail.new ≡ with_box trail.old (from (present trail.old) cut.slot (cut.value +ℤ pos 1)) }
{
    // the value is below the high end, so that one more is a value too
    let high = trail.high(cut.slot);
    if cut.value < high {
        trail.set_low(cut.slot, cut.value + 1);
    }
}
