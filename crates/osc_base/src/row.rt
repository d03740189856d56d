ghost use Rattle.std.specs.Prelude.{◌≡◌, ◌<◌, [], ◌∷◌, ◌++◌, length, slice_set as set, slice_index_or as get_or, IfOk, OnOk, OnErr};

use std::alloc::{AllocError, Global};
use std::hash::{Hash, Hasher};
use std::marker::Model;
use std::mem;

/// A `Vec` that contracts see as the list of its items.
#[derive(Debug, Drop)]
pub struct Row<T> {
    items: Vec<T>,
}

impl<T> Model for Row<T> {
    ghost use Rattle.std.specs.Prelude.{List};
    ghost use Rattle.std.specs.Coded.{coded_list};

    ghost Value = { List T };

    ghost coded = { coded_list T.code };

    ghost view = { λ r. r.items.items };
}

impl<T> Row<T> {
    /// A row of these items. It doesn't allocate.
    pub fn of(items: Vec<T>) -> Row<T>
        ensures { result ≡ items.items }
    {
        Row { items }
    }

    /// The empty row. It doesn't allocate.
    pub fn new(alloc: Global) -> Row<T>
        ensures { result ≡ [] }
    {
        Row {
            items: Vec::new(alloc),
        }
    }

    /// The empty row, with room for `count` items.
    pub fn with_room(alloc: Global, count: usize) -> Result<Row<T>, AllocError>
        ensures { IfOk result (λ r. r ≡ []) }
    {
        Ok(Row {
            items: Vec::with_capacity(alloc, count)?,
        })
    }

    /// The items in order.
    pub fn as_slice(&self) -> &[T]
        ensures { result.now ≡ self.now }
    {
        self.items.as_slice()
    }
}

impl<T: Drop> Row<T> {
    /// Puts `item` at the end. If it runs out of memory, the row is unchanged and the item is dropped.
    pub fn push(&mut self, item: T) -> Result<(), AllocError>
        ensures ok { OnOk result (self.new ≡ self.old ++ item ∷ []) }
        ensures err { OnErr result (self.new ≡ self.old) }
    {
        self.items.push(item)?;
        Ok(())
    }

    /// Puts `item` at a place that the row has, and hands back what stood there.
    pub fn replace(&mut self, place: usize, item: T) -> T
        requires { place < length self.old }
        ensures placed { self.new ≡ set self.old place item }
        ensures taken { result ≡ get_or self.old place item }
    {
        mem::replace(&mut self.items[place], item)
    }
}

impl<T: PartialEq> PartialEq for Row<T> {
    ghost use Rattle.std.specs.Cmp.Lexicographic.{pointwise, lists_per};

    ghost eq = { pointwise T.eq };

    fn eq(&self, other: &Row<T>) -> bool {
        self.items.as_slice() == other.items.as_slice()
    }

    ghost laws = { lists_per T.laws };
}

impl<T: Eq> Eq for Row<T> {
    ghost use Rattle.std.specs.Cmp.Lexicographic.{lists_equiv};

    ghost laws = { lists_equiv T.Eq.laws };
}

impl<T: Hash> Hash for Row<T> {
    ghost use Rattle.std.specs.Hash as fed;
    ghost use Rattle.std.specs.Hash.{items_Alike};

    ghost hash_input = { λ r. fed.slice T.hash_input r };

    ghost respects_eq = { (items_Alike (record { fed = T.respects_eq })).fed };

    fn hash<H: Hasher>(&self, state: &mut H) {
        self.items.as_slice().hash(state);
    }
}
