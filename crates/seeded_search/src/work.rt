ghost use Rattle.std.specs.Prelude.{◌≡◌, ◌+◌, ◌<◌, ◌≤◌, ◌^◌, ◌∷◌, [], ◌++◌, length, true, max, take, MatchOption};
ghost use Rattle.std.specs.Bool.{OnTrue, OnFalse};
ghost use Rattle.bound_trail.specs.History.{present};
ghost use Rattle.box_eval.specs.Box.{IsInside};
ghost use Rattle.box_eval.specs.Rules.{IsFlat};
ghost use Rattle.search_laws.specs.record_trees.Record.{may_add};
ghost use Rattle.seeded_search.specs.Added.{added};
ghost use Rattle.seeded_search.specs.Draws.{number_of};
ghost use Rattle.seeded_search.specs.Rooms.{with_mark, decision_of};

use crate::decisions::Decisions;
use crate::draws::Draws;
use crate::marks::Marks;
use crate::picks::Picks;
use crate::reasons::Reasons;
use crate::script::Script;
use crate::sums::Sums;
use bound_trail::Trail;
use box_eval::{Cut, Flat};
use search_laws::{Decision, Line, Pick};

/// What the search has done so far, beside its trail and its ring.
#[derive(Drop)]
pub struct Work {
    pub script: Script,
    pub decisions: Decisions,
    pub marks: Marks,
    pub draws: Draws,
    pub picks: Picks,
    pub sums: Sums,
    pub reasons: Reasons,
    /// The number of cuts.
    pub made: u32,
    /// The greatest number of cuts above one another.
    pub deepest: u32,
}

impl Work {
    /// Writes a line of the record.
    pub(crate) fn note(&mut self, line: Line)
        requires { length self.old.script.lines < self.old.script.room }
        ensures { self.new ≡ record self.old { script = record self.old.script { lines = self.old.script.lines ++ line ∷ [] } } }
    {
        self.script.push(line);
    }

    /// Counts a cut below which so many cuts stand above one another.
    pub(crate) fn count_cut(&mut self, depth: u32)
        requires { self.old.made + 1 < 2 ^ 32 }
        ensures { self.new ≡ record self.old { made = self.old.made + 1; deepest = max self.old.deepest depth } }
    {
        self.made += 1;
        self.deepest = self.deepest.max(depth);
    }

    /// Keeps which rule closes the first part of a cut.
    pub(crate) fn remember(&mut self, cut: Cut, rule: u32)
        ensures { self.new ≡ self.old }
    {
        self.reasons.remember(cut, rule);
    }

    /// Whether the sum of these rules closes the present box.
    pub(crate) fn may_add(&mut self, flat: &Flat, trail: &Trail, picks: &[Pick]) -> bool
        requires flat { IsFlat flat.now }
        requires inside { IsInside (present trail.now) flat.now.bounds.pairs }
        requires slots { self.old.sums ≡ length flat.now.bounds.pairs }
        ensures may { result ≡ true → may_add flat.now (present trail.now) picks.now ≡ true }
        ensures same { self.new ≡ self.old }
    {
        self.sums.may_add(flat, trail, picks)
    }

    /// Writes the line of a sum, if there is room for its rules. Returns whether there is.
    pub(crate) fn add(&mut self, picks: &[Pick]) -> bool
        requires room { length self.old.script.lines < self.old.script.room }
        requires few { length picks.now ≤ 64 }
        ensures added { OnTrue result (self.new ≡ added self.old picks.now) }
        ensures few { OnTrue result (length self.old.picks.items + length picks.now ≤ self.old.picks.room) }
        ensures same { OnFalse result (self.new ≡ self.old) }
    {
        if !self.picks.add(picks) {
            return false;
        }
        self.note(Line::Sum {
            count: picks.len() as u32,
        });
        true
    }

    /// Marks a rule as done, unless it is.
    pub(crate) fn retire(&mut self, number: u32)
        requires { number < self.old.marks.bound }
        ensures { self.new ≡ record self.old { marks = with_mark number self.old.marks } }
    {
        self.marks.add(number);
    }

    /// Keeps the first `count` rules marked as done alone.
    pub(crate) fn unmark_to(&mut self, count: u32)
        requires { count ≤ length self.old.marks.listed }
        ensures { self.new ≡ record self.old { marks = record self.old.marks { listed = take count self.old.marks.listed } } }
    {
        self.marks.back_to(count);
    }

    /// The number of the next decision.
    pub(crate) fn draw(&mut self) -> u64
        requires { self.old.draws.count + 1 < 2 ^ 32 }
        ensures number { result ≡ number_of self.old.draws.seed self.old.draws.count }
        ensures count { self.new ≡ record self.old { draws = record self.old.draws { count = self.old.draws.count + 1 } } }
    {
        self.draws.next()
    }

    /// Keeps a decision whose second part is untried, below so many cuts.
    pub(crate) fn leave(&mut self, cut: Cut, mark: u32)
        requires room { length self.old.decisions.items < self.old.decisions.room }
        requires few { self.old.marks.bound < 2 ^ 32 }
        ensures { self.new ≡ record self.old {
          decisions = record self.old.decisions {
            items = decision_of cut mark (length self.old.marks.listed) ∷ self.old.decisions.items;
          };
        } }
    {
        let marked = self.marks.len();
        self.decisions.push(Decision { cut, mark, marked });
        self.reasons.decide();
    }

    /// Takes the newest decision whose second part is untried, if there is one.
    pub(crate) fn take_decision(&mut self) -> Option<Decision>
        ensures { MatchOption result ((self.old.decisions.items ≡ []) × (self.new ≡ self.old))
            (λ d. self.old ≡ record self.new { decisions = record self.new.decisions { items = d ∷ self.new.decisions.items } }) }
    {
        self.decisions.pop()
    }
}
