//! Sweeps over flagged numbers: up, then down, and so on in turns. No clause speaks of their order.
ghost use Rattle.std.specs.Prelude.{◌≡◌, ℕ, ◌<◌, ◌≤◌, length, IfSome, IfNone, true, false};
ghost use Rattle.wake_ring.specs.Flags.{flag_at};

/// The least flagged number from another on.
pub(crate) fn least_from(flags: &[bool], from: usize) -> Option<usize>
    ensures found { IfSome result (λ k. (k < length flags.now) × (flag_at flags.now k ≡ true)) }
    ensures none { IfNone result ((k : ℕ) → from ≤ k → k < length flags.now → flag_at flags.now k ≡ false) }
{
    for number in from..flags.len() {
        if flags[number] {
            return Some(number);
        }
    }
    None
}

/// The greatest flagged number from one to another.
fn greatest_between(flags: &[bool], first: usize, last: usize) -> Option<usize> {
    for back in 0..flags.len() {
        let number = last.checked_sub(back)?;
        if number < first {
            return None;
        }
        if number < flags.len() && flags[number] {
            return Some(number);
        }
    }
    None
}

/// Where a sweep over the numbers from `first` on is.
#[derive(Debug, Clone, Copy)]
pub struct Sweep {
    pub(crate) first: usize,
    pub(crate) at: usize,
    pub(crate) is_down: bool,
}

impl Sweep {
    /// A sweep upwards, at its first number.
    pub(crate) fn new(first: usize) -> Sweep {
        Sweep {
            first,
            at: first,
            is_down: false,
        }
    }

    /// The next flagged number in the direction of the sweep, at which it then is.
    fn onward(&mut self, flags: &[bool]) -> Option<usize> {
        let found = if self.is_down {
            greatest_between(flags, self.first, self.at)
        } else {
            least_from(flags, self.at)
        };
        if let Some(number) = found {
            self.at = number;
        }
        found
    }

    /// The next flagged number of the sweep, which turns if there is none in its direction.
    pub(crate) fn next(&mut self, flags: &[bool]) -> usize {
        if let Some(number) = self.onward(flags) {
            return number;
        }
        self.is_down = !self.is_down;
        self.onward(flags).unwrap_or(self.at)
    }
}
