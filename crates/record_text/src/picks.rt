ghost use Rattle.std.specs.Prelude.{◌≡◌, ◌≤◌, ◌<◌, ◌==◌, ◌&&◌, nat_le, [], ◌∷◌, ◌++◌, length, map};
ghost use Rattle.record_trees.specs.Record.{are_in_order, may_stand};
ghost use Rattle.record_text.specs.Picked.{seen_pick};

use arrayvec::ArrayVec;
use linear_sums::MOST_PICKS;
use std::marker::Model;

/// The most often that a line takes a rule.
pub(crate) const MOST_TIMES: u64 = 1_000_000;

/// A rule of a sum as a text has it. A text may name rules that no flat form has.
#[derive(Debug, Default, Clone, Copy, PartialEq, Eq)]
pub struct TextPick {
    /// How often the rule is taken.
    pub times: u32,
    /// The number of the rule.
    pub rule: u64,
}

/// The rules of a sum, in the order of their line: 64 at most.
#[derive(Drop)]
pub struct Picks {
    picks: ArrayVec<TextPick, MOST_PICKS>,
}

impl Model for Picks {
    ghost use Rattle.std.specs.Prelude.{List};
    ghost use Rattle.linear_sums.specs.declared.pick.Pick.{Pick};

    ghost Value = { List Pick };

    ghost use Rattle.record_text.specs.PicksFields.{seen_picks};

    ghost view = { seen_picks };
}

impl Picks {
    /// No rule yet.
    pub(crate) fn new() -> Picks
        ensures { result ≡ [] }
    {
        Picks {
            picks: ArrayVec::new(),
        }
    }

    /// Drops all rules.
    pub(crate) fn clear(&mut self)
        ensures { self.new ≡ [] }
    {
        self.picks.clear();
    }

    /// Whether there is no room for another rule.
    pub(crate) fn is_full(&self) -> bool
        ensures value { result ≡ (length self.now == 64) }
        ensures few { length self.now ≤ 64 }
    {
        self.picks.is_full()
    }

    /// Adds a rule at the end.
    pub(crate) fn push(&mut self, pick: TextPick)
        requires { length self.old < 64 }
        ensures { self.new ≡ self.old ++ seen_pick pick ∷ [] }
    {
        self.picks.push(pick);
    }

    /// The rules.
    pub fn as_slice(&self) -> &[TextPick]
        ensures value { map seen_pick result.now ≡ self.now }
        ensures few { length result.now ≤ 64 }
    {
        self.picks.as_slice()
    }
}

/// Whether these rules may stand in a line: 1 to 64 of them, in ascending order, each taken 1 to 1,000,000 times.
pub(crate) fn may_stand(picks: &[TextPick]) -> bool
    requires { length picks.now ≤ 64 }
    ensures { result ≡ may_stand (map seen_pick picks.now) }
{
    !picks.is_empty() && are_in_order(picks)
}

fn are_in_order(picks: &[TextPick]) -> bool
    ensures { result ≡ are_in_order 0 (map seen_pick picks.now) }
{
    let mut from: u128 = 0;
    let mut rest = picks;
    while let [pick, later @ ..] = rest {
        if !is_in_order(from, pick) {
            return false;
        }
        from = u128::from(pick.rule) + 1;
        rest = later;
    }
    true
}

fn is_in_order(from: u128, pick: &TextPick) -> bool
    ensures { result ≡ (nat_le from pick.now.rule && nat_le 1 pick.now.times && nat_le pick.now.times 1000000) }
{
    from <= u128::from(pick.rule) && 1 <= pick.times && u64::from(pick.times) <= MOST_TIMES
}
