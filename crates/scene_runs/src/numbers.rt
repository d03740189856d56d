//! The numbers of a point, by slots.

ghost use Rattle.std.specs.Prelude.{◌≡◌, ◌≤◌, ◌≤ℤ◌, pos, unsigned_abs};
ghost use Rattle.box_eval.specs.Box.{value_of};

/// What a point gives a slot. A slot past the last has 0.
pub(crate) fn number_in(point: &[i64], slot: u32) -> i64
    ensures { result ≡ value_of point.now slot }
{
    match point.get(slot as usize) {
        Some(number) => *number,
        None => 0,
    }
}

/// A number from 0 to `most`, without its sign.
pub(crate) fn counted(number: i64, most: u32) -> u32
    requires low { pos 0 ≤ℤ number }
    requires high { number ≤ℤ pos most }
    ensures is { result ≡ unsigned_abs number }
    ensures within { result ≤ most }
{
    number.unsigned_abs().min(u64::from(most)) as u32
}
