//! Rows of parts that operators of one level join.

ghost use Rattle.std.specs.Prelude.{◌≡◌, map, IfOk};
ghost use Rattle.expr_nodes.specs.declared.node.Join.{Join};
ghost use Rattle.expr_nodes.specs.Typed as Nodes;
ghost use Rattle.expr_nodes.specs.Seen.{seen, seen_info, joined, grouped, reached as reached_at};

use expr_nodes::{Boxed, Earlier, Info, Join, Row, Typed};
use std::alloc::{AllocError, Global};

/// What is before the last part of a row, with that part.
fn extended(
    earlier: Row<Earlier>,
    info: &Info,
    part: Boxed<Typed>,
) -> Result<Row<Earlier>, AllocError>
    ensures { IfOk result (λ es. (join : Join) (first : Nodes.Typed) → grouped join first (map reached_at es) ≡ joined join (seen_info info.now) (grouped join first (map reached_at earlier)) (seen part)) }
{
    let mut earlier = earlier;
    earlier.push(Earlier {
        info: *info,
        part: part.into_inner(),
    })?;
    Ok(earlier)
}

/// A row of parts.
fn row_of(
    alloc: Global,
    info: &Info,
    join: Join,
    first: Boxed<Typed>,
    earlier: Row<Earlier>,
    last: Boxed<Typed>,
) -> Result<Boxed<Typed>, AllocError>
    ensures { IfOk result (λ t. seen t ≡ joined join (seen_info info.now) (grouped join (seen first) (map reached_at earlier)) (seen last)) }
{
    let row = Typed::Joined {
        info: *info,
        join,
        first,
        earlier,
        last,
    };
    Boxed::new(alloc, row)
}

/// `left` and `right`, joined.
fn pair(
    alloc: Global,
    info: &Info,
    join: Join,
    left: Typed,
    right: Boxed<Typed>,
) -> Result<Boxed<Typed>, AllocError>
    ensures { IfOk result (λ t. seen t ≡ joined join (seen_info info.now) (seen left) (seen right)) }
{
    let left = Boxed::new(alloc, left)?;
    row_of(alloc, info, join, left, Row::new(alloc), right)
}

/// `left` and `right`, joined. A row on the left that is joined in the same way gets one part more.
pub(crate) fn with_part(
    alloc: Global,
    info: &Info,
    join: Join,
    left: Boxed<Typed>,
    right: Boxed<Typed>,
) -> Result<Boxed<Typed>, AllocError>
    ensures { IfOk result (λ t. seen t ≡ joined join (seen_info info.now) (seen left) (seen right)) }
{
    match left.into_inner() {
        Typed::Joined {
            info: reached,
            join: other,
            first,
            earlier,
            last,
        } => {
            if other == join {
                let earlier = extended(earlier, &reached, last)?;
                row_of(alloc, info, join, first, earlier, right)
            } else {
                let left = row_of(alloc, &reached, other, first, earlier, last)?;
                row_of(alloc, info, join, left, Row::new(alloc), right)
            }
        }
        left => pair(alloc, info, join, left, right),
    }
}
