//! Rows of terms and of rules, joined by rounds of neighbours.

ghost use Rattle.std.specs.Prelude.{◌≡◌, ◌∷◌, [], ◌++◌, ◌<◌, map, length, IfOk};
ghost use Rattle.box_eval.specs.FlatRules.{flat_rule, flat_term, all_of, any_of, paired, joined};
ghost use Rattle.field_flatten.specs.Shapes.{sum_of, product_of};
ghost use Rattle.flat_terms.specs.Joins.{term_join, no_terms, rule_join, no_rules};

use box_eval::osc_base::Boxed;
use box_eval::{Rule, Term};
use std::alloc::{AllocError, Global};

/// How the terms of a row are joined.
#[derive(Debug, Clone, Copy)]
pub enum TermRow {
    Sum,
    Product,
}

/// How the rules of a row are joined.
#[derive(Debug, Clone, Copy)]
pub enum RuleRow {
    All,
    Any,
}

/// The sum of a row.
pub fn sum(alloc: Global, row: Vec<Term>) -> Result<Term, AllocError>
    ensures { IfOk result (λ t. flat_term t ≡ sum_of (map flat_term row.items)) }
{
    joined_terms(alloc, TermRow::Sum, row)
}

/// The product of a row.
pub fn product(alloc: Global, row: Vec<Term>) -> Result<Term, AllocError>
    ensures { IfOk result (λ t. flat_term t ≡ product_of (map flat_term row.items)) }
{
    joined_terms(alloc, TermRow::Product, row)
}

/// All of a row.
pub fn all(alloc: Global, row: Vec<Rule>) -> Result<Rule, AllocError>
    ensures { IfOk result (λ r. flat_rule r ≡ all_of (map flat_rule row.items)) }
{
    joined_rules(alloc, RuleRow::All, row)
}

/// One of a row.
pub fn any(alloc: Global, row: Vec<Rule>) -> Result<Rule, AllocError>
    ensures { IfOk result (λ r. flat_rule r ≡ any_of (map flat_rule row.items)) }
{
    joined_rules(alloc, RuleRow::Any, row)
}

/// A row with one term more.
pub fn with_term(row: Vec<Term>, term: Term) -> Result<Vec<Term>, AllocError>
    ensures { IfOk result (λ ts. map flat_term ts.items ≡ map flat_term row.items ++ flat_term term ∷ []) }
{
    let mut row = row;
    row.push(term)?;
    Ok(row)
}

/// A row with one rule more.
pub fn with_rule(row: Vec<Rule>, rule: Rule) -> Result<Vec<Rule>, AllocError>
    ensures { IfOk result (λ rs. map flat_rule rs.items ≡ map flat_rule row.items ++ flat_rule rule ∷ []) }
{
    let mut row = row;
    row.push(rule)?;
    Ok(row)
}

/// A row of terms as one: neighbours are joined until one is left.
fn joined_terms(alloc: Global, by: TermRow, row: Vec<Term>) -> Result<Term, AllocError>
    ensures { IfOk result (λ t. flat_term t ≡ joined (term_join by) (no_terms by) (map flat_term row.items)) }
{
    let mut row = row;
    'rounds: while row.len() > 1 {
        row = paired_terms(alloc, by, row)?;
    }
    match row.pop() {
        Some(term) => Ok(term),
        None => Ok(no_term(by)),
    }
}

/// The term of no parts.
fn no_term(by: TermRow) -> Term
    ensures { flat_term result ≡ no_terms by }
{
    match by {
        TermRow::Sum => Term::Whole(0),
        TermRow::Product => Term::Whole(1),
    }
}

/// A round: neighbours are joined.
fn paired_terms(alloc: Global, by: TermRow, row: Vec<Term>) -> Result<Vec<Term>, AllocError>
    ensures { IfOk result (λ ts. map flat_term ts.items ≡ paired (term_join by) (map flat_term row.items)) }
{
    let mut pairs = Vec::new(alloc);
    let mut waiting: Option<Term> = None;
    'terms: for term in row {
        waiting = match waiting {
            Some(first) => {
                pairs.push(two_terms(alloc, by, first, term)?)?;
                None
            }
            None => Some(term),
        };
    }
    if let Some(last) = waiting {
        pairs.push(last)?;
    }
    Ok(pairs)
}

/// Two terms, joined.
fn two_terms(alloc: Global, by: TermRow, first: Term, second: Term) -> Result<Term, AllocError>
    ensures { IfOk result (λ t. flat_term t ≡ term_join by (flat_term first) (flat_term second)) }
{
    let first = Boxed::new(alloc, first)?;
    let second = Boxed::new(alloc, second)?;
    match by {
        TermRow::Sum => Ok(Term::Sum(first, second)),
        TermRow::Product => Ok(Term::Times(first, second)),
    }
}

/// A row of rules as one: neighbours are joined until one is left.
fn joined_rules(alloc: Global, by: RuleRow, row: Vec<Rule>) -> Result<Rule, AllocError>
    ensures { IfOk result (λ r. flat_rule r ≡ joined (rule_join by) (no_rules by) (map flat_rule row.items)) }
{
    let mut row = row;
    'rounds: while row.len() > 1 {
        row = paired_rules(alloc, by, row)?;
    }
    match row.pop() {
        Some(rule) => Ok(rule),
        None => no_rule(alloc, by),
    }
}

/// The rule of no parts.
fn no_rule(alloc: Global, by: RuleRow) -> Result<Rule, AllocError>
    ensures { IfOk result (λ r. flat_rule r ≡ no_rules by) }
{
    match by {
        RuleRow::All => Ok(Rule::Always),
        RuleRow::Any => Ok(Rule::Not(Boxed::new(alloc, Rule::Always)?)),
    }
}

/// A round: neighbours are joined.
fn paired_rules(alloc: Global, by: RuleRow, row: Vec<Rule>) -> Result<Vec<Rule>, AllocError>
    ensures { IfOk result (λ rs. map flat_rule rs.items ≡ paired (rule_join by) (map flat_rule row.items)) }
{
    let mut pairs = Vec::new(alloc);
    let mut waiting: Option<Rule> = None;
    'rules: for rule in row {
        waiting = match waiting {
            Some(first) => {
                pairs.push(two_rules(alloc, by, first, rule)?)?;
                None
            }
            None => Some(rule),
        };
    }
    if let Some(last) = waiting {
        pairs.push(last)?;
    }
    Ok(pairs)
}

/// Two rules, joined.
fn two_rules(alloc: Global, by: RuleRow, first: Rule, second: Rule) -> Result<Rule, AllocError>
    ensures { IfOk result (λ r. flat_rule r ≡ rule_join by (flat_rule first) (flat_rule second)) }
{
    let first = Boxed::new(alloc, first)?;
    let second = Boxed::new(alloc, second)?;
    match by {
        RuleRow::All => Ok(Rule::Both(first, second)),
        RuleRow::Any => Ok(Rule::Either(first, second)),
    }
}
