//! Which slot of a box is decided next.
ghost use Rattle.std.specs.Prelude.{◌≡◌, ◌<◌, ◌^◌, length, find, map, IfSome, IfNone, ℕ, false, ◌<ℤ◌};
ghost use Rattle.std.specs.List.{range_with_len};
ghost use Rattle.box_eval.specs.Box.{low_at, high_at};
ghost use Rattle.search_plans.specs.Wishes.{is_wide};
ghost use Rattle.search_plans.specs.Plans.{free as free_entry, all_free, open_entry, next_entry};

use crate::known::is_wide;
use crate::{Entry, Wish};
use box_eval::Ends;

/// The first entry of a plan whose slot has two values or more.
fn open_entry<E: Ends>(plan: &[Entry], ends: &E) -> Option<Entry>
    requires { length (E.ends ends.now) < 2 ^ 32 }
    ensures { result ≡ open_entry plan.now (E.ends ends.now) }
{
    for entry in plan {
        if is_wide(ends, entry.slot) {
            return Some(*entry);
        }
    }
    None
}

/// The first slot of a box with two values or more, of which nothing is wished.
fn first_free<E: Ends>(ends: &E) -> Option<Entry>
    requires { length (E.ends ends.now) < 2 ^ 32 }
    ensures { result ≡ open_entry (all_free (E.ends ends.now)) (E.ends ends.now) }
{
    for slot in 0..ends.len() {
        if is_wide(ends, slot) {
            return Some(free(slot));
        }
    }
    None
}

fn free(slot: u32) -> Entry
    ensures { result ≡ free_entry slot }
{
    Entry {
        slot,
        wish: Wish::Free,
    }
}

/// The first entry of a plan, and of the free ones after it, whose slot has two values or more.
fn first_of<E: Ends>(plan: &[Entry], ends: &E) -> Option<Entry>
    requires { length (E.ends ends.now) < 2 ^ 32 }
    ensures { result ≡ next_entry plan.now (E.ends ends.now) }
{
    match open_entry(plan, ends) {
        Some(entry) => Some(entry),
        None => first_free(ends),
    }
}

/// The entry that is decided next: the first of the plan whose slot has two values or more, or the first such slot of
/// the box, of which then nothing is wished. `None` if no slot of the box has two values.
pub fn next_entry<E: Ends>(plan: &[Entry], ends: &E) -> Option<Entry>
    requires { length (E.ends ends.now) < 2 ^ 32 }
    ensures is { result ≡ next_entry plan.now (E.ends ends.now) }
    ensures wide { IfSome result (λ e. low_at (E.ends ends.now) e.slot <ℤ high_at (E.ends ends.now) e.slot) }
    ensures none { IfNone result ((slot : ℕ) → is_wide (E.ends ends.now) slot ≡ false) }
{
    first_of(plan, ends)
}
