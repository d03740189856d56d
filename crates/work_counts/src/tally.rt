//! Numbers of rules and of copied tokens.

ghost use Rattle.std.specs.Prelude.{◌≡◌, ◌+◌, ◌*◌};
ghost use Rattle.program_texts.specs.scene_texts.Capped.{capped};
ghost use Rattle.work_counts.specs.Amounts.{kept, no_amount};

use program_texts::{add, times};

/// Numbers of rules and of copied tokens. Each stops at the greatest number of 64 bits.
#[derive(Clone, Copy)]
pub struct Tally {
    pub rules: u64,
    pub tokens: u64,
}

impl Tally {
    /// No rule and no token.
    pub fn none() -> Tally
        ensures { result ≡ kept no_amount }
    {
        Tally {
            rules: 0,
            tokens: 0,
        }
    }

    /// A constraint with a rule and with so many tokens.
    pub fn rule(tokens: u64) -> Tally
        ensures { result ≡ record { rules = capped 1; tokens = tokens } }
    {
        Tally { rules: 1, tokens }
    }

    /// A constraint without a rule, with so many tokens.
    pub fn no_rule(tokens: u64) -> Tally
        ensures { result ≡ record { rules = capped 0; tokens = tokens } }
    {
        Tally { rules: 0, tokens }
    }

    /// These and more.
    pub fn with(self, more: Tally) -> Tally
        ensures { result ≡ record { rules = capped (self.rules + more.rules); tokens = capped (self.tokens + more.tokens) } }
    {
        Tally {
            rules: add(self.rules, more.rules),
            tokens: add(self.tokens, more.tokens),
        }
    }

    /// These a number of times.
    pub fn times(self, number: u64) -> Tally
        ensures { result ≡ record { rules = capped (number * self.rules); tokens = capped (number * self.tokens) } }
    {
        Tally {
            rules: times(number, self.rules),
            tokens: times(number, self.tokens),
        }
    }
}
