//! The constraints of texts: of rules, initial values and conditions.

ghost use Rattle.std.specs.Prelude.{◌≡◌, map, option_map};
ghost use Rattle.std.specs.Option.{option_map_or};
ghost use Rattle.dsl_tree.specs.Views.{expr_tree, rule_tree};
ghost use Rattle.program_texts.specs.SeenTexts.{types_in};
ghost use Rattle.work_counts.specs.Amounts.{kept, no_amount, sum_of};
ghost use Rattle.work_counts.specs.TextAmounts.{base_amount, heir_amount, initial_amount, rule_amount, value_amount};

use crate::Tally;
use dsl_tree::{Expr, HeirCondition, RuleDecl};
use program_texts::{ProgramTexts, TypeId, add, list_items, path_tokens, tokens, value_tokens};

/// A rule.
pub fn rule_tally(rule: &RuleDecl) -> Tally
    ensures { result ≡ kept (rule_amount (rule_tree rule.now)) }
{
    match rule {
        RuleDecl::Keep { expr, .. } => Tally::rule(tokens(expr)),
        RuleDecl::Remove { path, .. } => Tally::no_rule(path_tokens(path)),
    }
}

/// Rules.
pub(crate) fn rules_tally(rules: &[RuleDecl]) -> Tally
    ensures { result ≡ kept (sum_of rule_amount (map rule_tree rules.now)) }
{
    let mut all = Tally::none();
    for rule in rules {
        all = all.with(rule_tally(rule));
    }
    all
}

/// A value.
pub fn value_tally(value: &Expr) -> Tally
    ensures { result ≡ kept (value_amount (expr_tree value.now)) }
{
    Tally::rule(tokens(value))
}

/// Values.
fn values_tally(values: &[Expr]) -> Tally
    ensures { result ≡ kept (sum_of value_amount (map expr_tree values.now)) }
{
    let mut all = Tally::none();
    for value in values {
        all = all.with(value_tally(value));
    }
    all
}

/// An initial value, or each element of a list.
pub(crate) fn initial_tally(is_list: bool, initial: &Expr) -> Tally
    ensures { result ≡ kept (initial_amount is_list (expr_tree initial.now)) }
{
    if !is_list {
        return value_tally(initial);
    }
    match list_items(initial) {
        Some(items) => values_tally(items),
        None => value_tally(initial),
    }
}

/// A condition of a type.
fn heir_tally(texts: &ProgramTexts<'_>, of: TypeId, condition: &HeirCondition) -> Tally
    ensures { result ≡ kept (heir_amount (types_in texts.now) of condition.now) }
{
    match texts.field(of, condition.field.text.as_str()) {
        Some(_) => Tally::rule(add(2, value_tokens(&condition.value))),
        None => Tally::none(),
    }
}

/// The condition of a type, or of one that it inherits from.
pub(crate) fn base_tally(texts: &ProgramTexts<'_>, of: TypeId, base: TypeId) -> Tally
    ensures { result ≡ kept (base_amount (types_in texts.now) of base) }
{
    match texts.heir_condition(base) {
        Some(condition) => heir_tally(texts, of, condition),
        None => Tally::none(),
    }
}
