//! How compositions are arranged.

ghost use Rattle.std.specs.Prelude.{◌≡◌, Some, map, option_map};
ghost use Rattle.object_works.specs.composition.Expansion as expansions;
ghost use Rattle.dsl_tree.specs.Views.{argument_tree, expr_tree};
ghost use Rattle.object_works.specs.program_calls.SeenModifiers.{seen_value};

use dsl_tree::{CompKind, CompNode, Expr};
use object_works::{PhaseKind, argument_named, name_of};

/// The word after `overlap:`. Members start together if it is no word of the language.
fn overlap_word(word: &Expr) -> PhaseKind
    ensures { result ≡ expansions.overlap_kind (Some (expr_tree word.now)) }
{
    let Some(name) = name_of(word) else {
        return PhaseKind::Start;
    };
    match name.text.as_str() {
        "end" => PhaseKind::End,
        "equal" => PhaseKind::Equal,
        "any" => PhaseKind::Any,
        _ => PhaseKind::Start,
    }
}

/// How the members of a `parallel` overlap. They start together if no `overlap:` is written.
fn overlap_kind(word: Option<&Expr>) -> PhaseKind
    ensures { result ≡ expansions.overlap_kind (option_map seen_value word.entry) }
{
    match word {
        Some(word) => overlap_word(word),
        None => PhaseKind::Start,
    }
}

/// How a composition is arranged.
pub fn composition_kind(node: &CompNode) -> PhaseKind
    ensures { result ≡ expansions.composition_kind node.now.kind (map argument_tree node.now.arguments) }
{
    match node.kind {
        CompKind::Serial => PhaseKind::Serial,
        CompKind::Parallel => overlap_kind(argument_named(node.arguments.as_slice(), "overlap")),
        CompKind::OneOf => PhaseKind::OneOf,
    }
}
