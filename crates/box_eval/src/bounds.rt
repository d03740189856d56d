ghost use Rattle.std.specs.Prelude.{◌≡◌, ℕ, ◌^◌, ◌<◌, List, length, IfOk};
ghost use Rattle.box_eval.specs.declared.bounds.Pair.{Pair};
ghost use Rattle.box_eval.specs.Box.{low_at, high_at};

use osc_base::Row;
use std::alloc::{AllocError, Global};

/// The least and the greatest value of a slot. Both belong to it.
#[derive(Debug, Clone, Copy, PartialEq, Eq)]
pub struct Pair {
    pub low: i64,
    pub high: i64,
}

/// A box: the ends of each slot, in order of the slots.
#[derive(Debug, PartialEq, Eq, Drop)]
pub struct Bounds {
    pub pairs: Row<Pair>,
}

/// The ends of a box, read slot by slot. Slots count from 0.
pub trait Ends {
    ghost ends: { Self → List Pair };

    /// The number of slots.
    fn len(&self) -> u32
        requires { length (ends self.now) < 2 ^ 32 }
        ensures { result ≡ length (ends self.now) };

    /// The least value of the slot.
    fn low(&self, slot: u32) -> i64
        requires { slot < length (ends self.now) }
        ensures { result ≡ low_at (ends self.now) slot };

    /// The greatest value of the slot.
    fn high(&self, slot: u32) -> i64
        requires { slot < length (ends self.now) }
        ensures { result ≡ high_at (ends self.now) slot };
}

impl Ends for Bounds {
    ghost ends = { λ b. b.pairs };

    fn len(&self) -> u32 {
        self.pairs.as_slice().len() as u32
    }

    fn low(&self, slot: u32) -> i64 {
        self.pairs.as_slice()[slot as usize].low
    }

    fn high(&self, slot: u32) -> i64 {
        self.pairs.as_slice()[slot as usize].high
    }
}

impl Bounds {
    /// An equal box.
    pub(crate) fn copy(&self, alloc: Global) -> Result<Bounds, AllocError>
        ensures { IfOk result (λ b. b ≡ self.now) }
    {
        let mut pairs = Row::new(alloc);
        for pair in self.pairs.as_slice() {
            pairs.push(*pair)?;
        }
        Ok(Bounds { pairs })
    }
}
