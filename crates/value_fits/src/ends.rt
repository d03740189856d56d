//! The ends of a range.

ghost use Rattle.std.specs.Prelude.{◌≡◌, option_map};
ghost use Rattle.expr_nodes.specs.Seen.{seen};
ghost use Rattle.value_fits.specs.SpanEnds.{ends_in, seen_ends};

use expr_nodes::Typed;

/// The ends of a range.
#[derive(Clone, Copy)]
pub(crate) struct Ends<'a> {
    pub low: &'a Typed,
    pub high: &'a Typed,
}

/// The ends of an expression, if it is a range.
pub(crate) fn ends_of(typed: &Typed) -> Option<Ends<'_>>
    ensures { option_map seen_ends result ≡ ends_in (seen typed.now) }
{
    match typed {
        Typed::Span { low, high, .. } => Some(Ends {
            low: low.get(),
            high: high.get(),
        }),
        Typed::Constant { .. }
        | Typed::Read { .. }
        | Typed::Whole { .. }
        | Typed::Listed { .. }
        | Typed::Minus { .. }
        | Typed::Not { .. }
        | Typed::Joined { .. }
        | Typed::Implies { .. }
        | Typed::Relation { .. }
        | Typed::Within { .. } => None,
    }
}
