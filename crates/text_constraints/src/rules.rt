//! The constraints of rules.

ghost use Rattle.std.specs.Prelude.{◌≡◌, ◌++◌, ◌∷◌, [], map, IfOk, OnOk};
ghost use Rattle.program_texts.specs.composition.Givens.{strength_of as strength_given};
ghost use Rattle.program_texts.specs.composition.SeenParts.{seen_occurrence};
ghost use Rattle.dsl_tree.specs.ExprTree.{ExprTree};
ghost use Rattle.dsl_tree.specs.declared.expr.RelationSign.{RelationSign};
ghost use Rattle.dsl_tree.specs.Views.{expr_tree, path_tree, rule_tree};
ghost use Rattle.expr_nodes.specs.Checks.{IsChecked};
ghost use Rattle.expr_nodes.specs.Seen.{seen_part};
ghost use Rattle.expr_nodes.specs.Typing.{first};
ghost use Rattle.expr_nodes.specs.type_heads.Table.{Table};
ghost use Rattle.text_constraints.specs.Kept.{constraint as constraint_of, equal_kept, kept as kept_of, mark_home as home_marked, removed as removed_of, rule_kept, seen_owner};
ghost use Rattle.text_constraints.specs.Sites.{seen_site, typed_home as home_typed};

use crate::copies::copy_guards;
use crate::targets::{TextSite, default_home, read_home, relation_home, removed_home};
use dsl_tree::{Expr, KeepKind, PathNode, RelationSign, RuleDecl};
use expr_eval::{Checked, checked, related};
use expr_nodes::{Typed, Types};
use osc_base::{Mark, Path, Place, Strength};
use program_texts::{Guard, Occurrence};
use scene_places::moved_part;
use std::alloc::{AllocError, Global};

/// Whose constraints a text gives: an object or a phase, and the conditions under which they are there.
#[derive(Clone, Copy)]
pub struct Owner<'a, 'u> {
    pub holder: &'a Path,
    pub under: &'u [Guard],
}

/// A constraint with its target and its expression.
pub fn constraint(
    alloc: Global,
    owner: &Owner<'_, '_>,
    place: Place,
    strength: Strength,
    target: Option<Path>,
    typed: Option<Typed>,
) -> Result<Occurrence, AllocError>
    ensures { IfOk result (λ o. seen_occurrence o ≡ constraint_of (seen_owner owner.now) place strength target (seen_part typed)) }
{
    let holder = owner.holder.copy(alloc)?;
    let under = copy_guards(alloc, owner.under)?;
    Ok(Occurrence {
        place,
        holder,
        under,
        mark: Mark { target, strength },
        typed,
    })
}

/// The strength of a rule.
fn strength_of(kind: KeepKind) -> Strength
    ensures { result ≡ strength_given kind }
{
    match kind {
        KeepKind::Plain | KeepKind::Hard => Strength::Hard,
        KeepKind::Default => Strength::Default,
    }
}

/// The home of what a rule is about.
fn mark_home(
    alloc: Global,
    types: &Types,
    text: &TextSite<'_, '_, '_>,
    kind: KeepKind,
    expr: &Expr,
) -> Result<Option<Path>, AllocError>
    ensures { IfOk result (λ p. p ≡ home_marked types.now.table (seen_site text.now) (strength_given kind) (expr_tree expr.now)) }
{
    match kind {
        KeepKind::Plain | KeepKind::Hard => relation_home(alloc, types, text, expr),
        KeepKind::Default => default_home(alloc, types, text, expr),
    }
}

/// The typed form of an expression, with its paths at their homes.
pub fn typed_home(
    alloc: Global,
    types: &Types,
    text: &TextSite<'_, '_, '_>,
    expr: &Expr,
) -> Result<Option<Typed>, AllocError>
    ensures { IfOk result (λ t. seen_part t ≡ home_typed types.now.table (seen_site text.now) (expr_tree expr.now)) }
{
    let known = checked(alloc, types, text.scope, expr)?;
    moved_part(alloc, &text.places, &known.typed)
}

/// The constraint that a `keep` gives.
fn kept(
    alloc: Global,
    types: &Types,
    text: &TextSite<'_, '_, '_>,
    owner: &Owner<'_, '_>,
    place: Place,
    kind: KeepKind,
    expr: &Expr,
) -> Result<Occurrence, AllocError>
    ensures { IfOk result (λ o. seen_occurrence o ≡ kept_of types.now.table (seen_site text.now) (seen_owner owner.now) place (strength_given kind) (expr_tree expr.now)) }
{
    let target = mark_home(alloc, types, text, kind, expr)?;
    let typed = typed_home(alloc, types, text, expr)?;
    constraint(alloc, owner, place, strength_of(kind), target, typed)
}

/// The removal that a `remove_default` gives.
fn removed(
    alloc: Global,
    types: &Types,
    text: &TextSite<'_, '_, '_>,
    owner: &Owner<'_, '_>,
    place: Place,
    path: &PathNode,
) -> Result<Occurrence, AllocError>
    ensures { IfOk result (λ o. seen_occurrence o ≡ removed_of types.now.table (seen_site text.now) (seen_owner owner.now) place (path_tree path.now)) }
{
    let target = removed_home(alloc, types, text, path)?;
    constraint(alloc, owner, place, Strength::Remove, target, None)
}

/// What a rule gives.
fn rule_of(
    alloc: Global,
    types: &Types,
    text: &TextSite<'_, '_, '_>,
    owner: &Owner<'_, '_>,
    rule: &RuleDecl,
) -> Result<Occurrence, AllocError>
    ensures { IfOk result (λ o. seen_occurrence o ≡ rule_kept types.now.table (seen_site text.now) (seen_owner owner.now) (rule_tree rule.now)) }
{
    match rule {
        RuleDecl::Keep { place, kind, expr } => {
            kept(alloc, types, text, owner, *place, *kind, expr)
        }
        RuleDecl::Remove { place, path } => removed(alloc, types, text, owner, *place, path),
    }
}

/// Puts what a rule gives at the end.
pub fn push_rule(
    alloc: Global,
    types: &Types,
    text: &TextSite<'_, '_, '_>,
    owner: &Owner<'_, '_>,
    into: &mut Vec<Occurrence>,
    rule: &RuleDecl,
) -> Result<(), AllocError>
    ensures { OnOk result (map seen_occurrence into.new.items ≡ map seen_occurrence into.old.items ++ rule_kept types.now.table (seen_site text.now) (seen_owner owner.now) (rule_tree rule.now) ∷ []) }
{
    into.push(rule_of(alloc, types, text, owner, rule)?)?;
    Ok(())
}

/// Puts what rules give at the end.
pub(crate) fn push_rules(
    alloc: Global,
    types: &Types,
    text: &TextSite<'_, '_, '_>,
    owner: &Owner<'_, '_>,
    into: &mut Vec<Occurrence>,
    rules: &[RuleDecl],
) -> Result<(), AllocError>
    ensures { OnOk result (map seen_occurrence into.new.items ≡ map seen_occurrence into.old.items ++ map (rule_kept types.now.table (seen_site text.now) (seen_owner owner.now)) (map rule_tree rules.now)) }
{
    for rule in rules {
        push_rule(alloc, types, text, owner, into, rule)?;
    }
    Ok(())
}

/// The relation that a field equals a value, with its paths at their homes. Both sides are known.
fn equal_typed(
    alloc: Global,
    text: &TextSite<'_, '_, '_>,
    place: Place,
    left: Checked,
    right: Checked,
) -> Result<Option<Typed>, AllocError>
    ensures { IfOk result (λ t. (table : Table) (l v : ExprTree) → place ≡ first v → IsChecked table (seen_site text.now).scope l left → IsChecked table (seen_site text.now).scope v right → seen_part t ≡ home_typed table (seen_site text.now) (ExprTree.Relation place RelationSign.Equal l v)) }
{
    let known = related(alloc, place, RelationSign::Equal, left, right)?;
    moved_part(alloc, &text.places, &known.typed)
}

/// The constraint that a field equals a value, which begins at a place. Both are known.
pub(crate) fn equal(
    alloc: Global,
    text: &TextSite<'_, '_, '_>,
    owner: &Owner<'_, '_>,
    place: Place,
    strength: Strength,
    begins: Place,
    left: Checked,
    right: Checked,
) -> Result<Occurrence, AllocError>
    ensures { IfOk result (λ o. (table : Table) (l v : ExprTree) → begins ≡ first v → IsChecked table (seen_site text.now).scope l left → IsChecked table (seen_site text.now).scope v right → seen_occurrence o ≡ equal_kept table (seen_site text.now) (seen_owner owner.now) place strength l v) }
{
    let target = read_home(alloc, &text.places, &left.typed)?;
    let typed = equal_typed(alloc, text, begins, left, right)?;
    constraint(alloc, owner, place, strength, target, typed)
}
