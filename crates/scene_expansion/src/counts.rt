//! How many objects, slots, rules and tokens parts have.

ghost use Rattle.std.specs.Prelude.{◌≡◌};
ghost use Rattle.scene_expansion.specs.AllCounts.{no_counts, sum_of, are_past};

use scene_texts::add;

/// The most objects, and the most slots.
const MOST_SLOTS: u64 = 65_536;

/// The most rules.
const MOST_RULES: u64 = 262_144;

/// The most copied tokens.
const MOST_TOKENS: u64 = 4_194_304;

/// Numbers of objects, slots, rules and tokens. Each stops at the greatest number of 64 bits.
#[derive(Clone, Copy)]
pub struct Counts {
    pub objects: u64,
    pub slots: u64,
    pub rules: u64,
    pub tokens: u64,
}

impl Counts {
    /// No object, slot, rule or token.
    pub(crate) fn none() -> Counts
        ensures { result ≡ no_counts }
    {
        Counts {
            objects: 0,
            slots: 0,
            rules: 0,
            tokens: 0,
        }
    }

    /// These and more.
    pub(crate) fn with(self, more: Counts) -> Counts
        ensures { result ≡ sum_of self more }
    {
        Counts {
            objects: add(self.objects, more.objects),
            slots: add(self.slots, more.slots),
            rules: add(self.rules, more.rules),
            tokens: add(self.tokens, more.tokens),
        }
    }

    /// Whether one of them passes its limit.
    pub(crate) fn are_past(self) -> bool
        ensures { result ≡ are_past self }
    {
        self.objects > MOST_SLOTS
            || self.slots > MOST_SLOTS
            || self.rules > MOST_RULES
            || self.tokens > MOST_TOKENS
    }
}
