//! How many tokens an expression has.

ghost use Rattle.std.specs.Prelude.{◌≡◌, ◌+◌, ◌∷◌, map};
ghost use Rattle.dsl_tree.specs.Views.{argument_tree, expr_tree, path_tree};
ghost use Rattle.expansion_laws.specs.composition.Tokens as Tokens;
ghost use Rattle.expansion_laws.specs.Counts.{total};
ghost use Rattle.scene_texts.specs.Capped.{capped};
ghost use Rattle.scene_texts.specs.RowTokens.{further_count, item_count, later_count, suffix_count};

use crate::add;
use dsl_tree::{Argument, ConditionValue, Expr, Further, PathNode, Suffix};

/// The tokens of an expression.
#[cycle(tokens)]
pub fn tokens(expr: &Expr) -> u64
    ensures { result ≡ capped (Tokens.tokens (expr_tree expr.now)) }
{
    match expr {
        Expr::Implies { left, right, .. } => between(tokens(left.get()), 1, tokens(right.get())),
        Expr::Relation { left, right, .. } => between(tokens(left.get()), 1, tokens(right.get())),
        Expr::Span { low, high, .. } => between(3, tokens(low.get()), tokens(high.get())),
        Expr::RangeCall { low, high, .. } => between(4, tokens(low.get()), tokens(high.get())),
        Expr::Or { first, rest } => {
            let rest = further_tokens(rest.as_slice());
            add(tokens(first.get()), rest)
        }
        Expr::And { first, rest } => {
            let rest = further_tokens(rest.as_slice());
            add(tokens(first.get()), rest)
        }
        Expr::Sum { first, rest } => {
            let rest = further_tokens(rest.as_slice());
            add(tokens(first.get()), rest)
        }
        Expr::Product { first, rest } => {
            let rest = further_tokens(rest.as_slice());
            add(tokens(first.get()), rest)
        }
        Expr::Not { part, .. } => add(1, tokens(part.get())),
        Expr::Minus { part, .. } => add(1, tokens(part.get())),
        Expr::Group { inner, .. } => add(2, tokens(inner.get())),
        Expr::Dot { head, suffixes } => {
            let after = suffix_tokens(suffixes.as_slice());
            add(tokens(head.get()), after)
        }
        Expr::Index { head, suffixes } => {
            let after = suffix_tokens(suffixes.as_slice());
            add(tokens(head.get()), after)
        }
        Expr::Listed { items, .. } => add(1, item_tokens(items.as_slice())),
        Expr::Number(_) => 1,
        Expr::Physical { .. } => 1,
        Expr::Chars { .. } => 1,
        Expr::Truth { .. } => 1,
        Expr::It(_) => 1,
        Expr::Actor(_) => 1,
        Expr::Name(_) => 1,
        Expr::EnumName { .. } => 3,
    }
}

/// The tokens of two parts, and those between them.
fn between(left: u64, middle: u64, right: u64) -> u64
    ensures { result ≡ capped (left + middle + right) }
{
    add(add(left, middle), right)
}

/// The operators of a row, with the parts after them.
#[cycle(tokens)]
fn further_tokens(rest: &[Further]) -> u64
    ensures { result ≡ capped (total further_count rest.now) }
{
    let mut all = 0;
    'further: for further in rest {
        all = add(all, one_further(further));
    }
    all
}

#[cycle(tokens)]
fn one_further(further: &Further) -> u64
    ensures { result ≡ capped (further_count further.now) }
{
    add(1, tokens(&further.part))
}

/// Names and indexes after an expression.
#[cycle(tokens)]
fn suffix_tokens(suffixes: &[Suffix]) -> u64
    ensures { result ≡ capped (total suffix_count suffixes.now) }
{
    let mut all = 0;
    'suffixes: for suffix in suffixes {
        all = add(all, one_suffix(suffix));
    }
    all
}

#[cycle(tokens)]
fn one_suffix(suffix: &Suffix) -> u64
    ensures { result ≡ capped (suffix_count suffix.now) }
{
    match suffix {
        Suffix::Dot(_) => 2,
        Suffix::Index { index, .. } => add(2, tokens(index)),
    }
}

/// The items of a list, each with the comma or bracket after it.
#[cycle(tokens)]
fn item_tokens(items: &[Expr]) -> u64
    ensures { result ≡ capped (total item_count items.now) }
{
    let mut all = 0;
    'items: for item in items {
        all = add(all, one_item(item));
    }
    all
}

#[cycle(tokens)]
fn one_item(item: &Expr) -> u64
    ensures { result ≡ capped (item_count item.now) }
{
    add(tokens(item), 1)
}

/// The tokens of a path.
pub fn path_tokens(path: &PathNode) -> u64
    ensures { result ≡ capped (Tokens.tokens (path_tree path.now)) }
{
    add(1, suffix_tokens(path.suffixes.as_slice()))
}

/// The tokens of a condition's value.
pub fn value_tokens(value: &ConditionValue) -> u64
    ensures { result ≡ Tokens.value_tokens value.now }
{
    match value {
        ConditionValue::Truth { .. } | ConditionValue::Name(_) => 1,
        ConditionValue::EnumName { .. } => 3,
    }
}

/// The tokens of an argument, with its name and the colon after it.
fn argument_tokens(argument: &Argument) -> u64
    ensures { result ≡ capped (Tokens.argument_tokens (argument_tree argument.now)) }
{
    match argument.name {
        Some(_) => add(2, tokens(&argument.value)),
        None => tokens(&argument.value),
    }
}

/// Arguments, each with the comma before it.
fn later_tokens(arguments: &[Argument]) -> u64
    ensures { result ≡ capped (total later_count arguments.now) }
{
    let mut all = 0;
    for argument in arguments {
        all = add(all, add(1, argument_tokens(argument)));
    }
    all
}

/// An argument and those after it, with the commas.
fn row_tokens(first: &Argument, later: &[Argument]) -> u64
    ensures { result ≡ capped (Tokens.arguments_tokens (map argument_tree (first.now ∷ later.now))) }
{
    add(argument_tokens(first), later_tokens(later))
}

/// The tokens between the brackets of a row of arguments, with the commas.
#[tactic(auto, unfolding(crate::specs::Capped::capped))]
pub fn arguments_tokens(arguments: &[Argument]) -> u64
    ensures { result ≡ capped (Tokens.arguments_tokens (map argument_tree arguments.now)) }
{
    match arguments.split_first() {
        Some((first, later)) => row_tokens(first, later),
        None => 0,
    }
}
