//! A type and those that it inherits from.

ghost use Rattle.std.specs.Prelude.{◌≡◌, ◌∷◌, length, nat_eq, IfOk};
ghost use Rattle.std.specs.List.{list_any};
ghost use Rattle.type_heads.specs.Table.{line_within};

use crate::{Heads, TypeId};
use std::alloc::{AllocError, Global};

/// A type and those that it inherits from, nearest first, in at most as many steps as there are types.
pub fn line(alloc: Global, heads: &Heads, of: Option<TypeId>) -> Result<Vec<TypeId>, AllocError>
    ensures { IfOk result (λ line. line.items ≡ line_within (length heads.now) heads.now of) }
{
    let mut line = Vec::new(alloc);
    let mut at = of;
    let mut steps = heads.count();
    while steps > 0
        && let Some(current) = at
    {
        line.push(current)?;
        at = heads.base(current);
        steps -= 1;
    }
    Ok(line)
}

/// Whether a type is one of these and those that they inherit from, by a walk along all of them.
pub fn is_on_line(heads: &Heads, base: TypeId, of: Option<TypeId>) -> bool
    ensures { result ≡ list_any (nat_eq base) (line_within (length heads.now) heads.now of) }
{
    let mut at = of;
    let mut steps = heads.count();
    while steps > 0
        && let Some(current) = at
    {
        if current == base {
            return true;
        }
        at = heads.base(current);
        steps -= 1;
    }
    false
}
