//! Expressions that read no path.

ghost use Rattle.std.specs.Prelude.{◌≡◌, map};
ghost use Rattle.std.specs.List.{list_all};
ghost use Rattle.expr_nodes.specs.Typed.{row_of};
ghost use Rattle.expr_nodes.specs.Operators.{is_constant as constant};
ghost use Rattle.expr_nodes.specs.Seen.{seen, reached};
ghost use Rattle.expr_nodes.specs.NoReads.{constant_row, constant_part};

use expr_nodes::{Earlier, Typed};

/// The expression reads no path.
#[cycle(constants)]
#[tactic(auto, using(crate::proofs::NoReads::constant_both))]
pub fn is_constant(typed: &Typed) -> bool
    ensures { result ≡ constant (seen typed.now) }
{
    match typed {
        Typed::Constant { .. } => true,
        Typed::Read { .. } | Typed::Whole { .. } => false,
        Typed::Listed { items, .. } => are_constant(items.as_slice()),
        Typed::Span { low, high, .. } => is_constant(low.get()) && is_constant(high.get()),
        Typed::Minus { part, .. } | Typed::Not { part, .. } => is_constant(part.get()),
        Typed::Joined {
            first,
            earlier,
            last,
            ..
        } => is_constant(first.get())
            && (parts_are_constant(earlier.as_slice()) && is_constant(last.get())),
        Typed::Implies { left, right, .. }
        | Typed::Relation { left, right, .. }
        | Typed::Within { left, right, .. } => {
            is_constant(left.get()) && is_constant(right.get())
        }
    }
}

/// Each item reads no path.
#[cycle(constants)]
fn are_constant(items: &[Typed]) -> bool
    ensures { result ≡ constant_row (row_of (map seen items.now)) }
{
    'items: for item in items {
        if !is_constant(item) {
            return false;
        }
    }
    true
}

/// Each part reads no path.
#[cycle(constants)]
fn parts_are_constant(parts: &[Earlier]) -> bool
    ensures { result ≡ list_all constant_part (map reached parts.now) }
{
    'parts: for earlier in parts {
        if !is_constant(&earlier.part) {
            return false;
        }
    }
    true
}
