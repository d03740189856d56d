ghost use Rattle.std.specs.Prelude.{◌≡◌, ◌≤◌, IfOk};
ghost use Rattle.box_eval.specs.Rules.{IsFlat};
ghost use Rattle.search_laws.specs.State.{most_picks};
ghost use Rattle.seeded_search.specs.Listed.{IsListed};
ghost use Rattle.seeded_search.specs.Desks.{IsDesk, IsFaced, facing_picks};

use crate::decisions::Decisions;
use crate::lists::{Lists, rules_by_slot, slots_by_rule};
use crate::marks::Marks;
use crate::picks::Picks;
use crate::reasons::Reasons;
use crate::script::Script;
use crate::sums::Sums;
use box_eval::Flat;
use osc_base::Row;
use search_laws::{Facing, Pick, facing_pair};
use std::alloc::{AllocError, Global};

/// The most sums of a search.
const MOST_SUMS: u32 = 4_096;

/// The memory that a search takes, made for a flat form and a greatest number of cuts.
#[derive(Drop)]
pub struct Desk {
    pub(crate) lists: Lists,
    pub(crate) script: Script,
    pub(crate) decisions: Decisions,
    pub(crate) marks: Marks,
    /// The two rules of the first facing pair whose sum is false, or nothing.
    pub(crate) sum: Row<Pick>,
    /// The rules of all other sums.
    pub(crate) picks: Picks,
    pub(crate) sums: Sums,
    pub(crate) reasons: Reasons,
    /// A place for each value of a point.
    pub(crate) values: Vec<i64>,
}

impl Desk {
    /// A desk for a flat form and a greatest number of cuts, which is at most 1,000,000.
    ///
    /// It looks for a false facing pair of rules, once for all. Its only error is out of memory.
    pub fn new(alloc: Global, flat: &Flat, cuts: u32) -> Result<Desk, AllocError>
        requires flat { IsFlat flat.now }
        requires cuts { cuts ≤ 1000000 }
        ensures { IfOk result (IsDesk flat.now cuts) }
    {
        let lists = lists_of(alloc, flat)?;
        let sum = faced(alloc, flat)?;
        let marks = Marks::new(alloc, flat.rules.as_slice().len())?;
        let slots = flat.bounds.pairs.as_slice().len();
        let values = vec![in alloc; 0; slots]?;
        let picks = Picks::new(alloc, room_for_picks(cuts))?;
        let sums = Sums::new(alloc, slots)?;
        let reasons = Reasons::new(alloc, slots)?;
        let script = Script::new(alloc, 2 * cuts as usize + 1)?;
        let decisions = Decisions::new(alloc, cuts as usize)?;
        Ok(Desk {
            lists,
            script,
            decisions,
            marks,
            sum,
            picks,
            sums,
            reasons,
            values,
        })
    }
}

/// How many rules all sums may have together: those of a full sum for each cut, up to a number of sums.
fn room_for_picks(cuts: u32) -> usize
    ensures { result ≤ most_picks }
{
    64 * cuts.min(MOST_SUMS) as usize
}

/// The lists of a flat form.
fn lists_of(alloc: Global, flat: &Flat) -> Result<Lists, AllocError>
    requires { IsFlat flat.now }
    ensures { IfOk result (IsListed flat.now) }
{
    let slots = slots_by_rule(alloc, flat.rules.as_slice())?;
    let rules = rules_by_slot(alloc, flat, &slots)?;
    Ok(Lists { slots, rules })
}

/// The rules of the first false facing pair of a flat form, or nothing if it has none.
fn faced(alloc: Global, flat: &Flat) -> Result<Row<Pick>, AllocError>
    requires { IsFlat flat.now }
    ensures { IfOk result (IsFaced flat.now) }
{
    let facing = facing_pair(alloc, flat)?;
    picks_of(alloc, facing)
}

/// The rules of a facing pair, if there is one.
fn picks_of(alloc: Global, facing: Option<Facing>) -> Result<Row<Pick>, AllocError>
    ensures { IfOk result (λ r. r ≡ facing_picks facing) }
{
    let mut picks = Row::new(alloc);
    if let Some(Facing { first, second }) = facing {
        picks.push(first)?;
        picks.push(second)?;
    }
    Ok(picks)
}
