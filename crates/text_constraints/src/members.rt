//! The own constraints of an object, member by member.

ghost use Rattle.std.specs.Prelude.{◌≡◌, ◌++◌, ◌∷◌, [], flat_map, is_some, map, option_map, option_to_list, IfOk, OnOk};
ghost use Rattle.program_texts.specs.composition.SeenParts.{seen_occurrence};
ghost use Rattle.program_texts.specs.composition.SeenScenes.{seen_scene};
ghost use Rattle.dsl_tree.specs.FileTree.{MemberTree};
ghost use Rattle.dsl_tree.specs.Views.{expr_tree, field_tree, rule_tree};
ghost use Rattle.expr_nodes.specs.SeenNames.{seen_it, seen_scope};
ghost use Rattle.program_texts.specs.SeenTexts.{types_in};
ghost use Rattle.expr_nodes.specs.type_heads.Members as told;
ghost use Rattle.program_texts.specs.type_members.Listed.{seen_listed};
ghost use Rattle.program_texts.specs.type_members.Shared.{under_inside};
ghost use Rattle.scene_places.specs.expansion_laws.WorkNodes.{own_within};
ghost use Rattle.program_texts.specs.composition.Expanded.{occurrence_of};
ghost use Rattle.text_constraints.specs.Kept.{seen_owner};
ghost use Rattle.text_constraints.specs.Labelled.{IsLabelled};
ghost use Rattle.text_constraints.specs.OwnTexts.{HasIt, IsTextScope, conditions_kept, initials_kept, it_given, listed_kept, member_kept, name_kept, own_rule_kept, texts_kept};
ghost use Rattle.text_constraints.specs.Sites.{seen_site};

use crate::conditions::push_conditions;
use crate::initials::push_initial;
use crate::rules::{Owner, push_rule, push_rules};
use crate::targets::TextSite;
use dsl_tree::{Expr, FieldDecl, Ident, Member, RuleDecl};
use expr_nodes::{FieldType, It, Scope};
use osc_base::{Path, Place};
use program_texts::{
    Guard, ListedMember, Occurrence, ProgramTexts, TypeId, TypeLabels, list_length, scope_at,
    then_name,
};
use scene_places::{Places, Scene};
use std::alloc::{AllocError, Global};

/// An object of a type, and the scene in which it stands.
#[derive(Clone, Copy)]
pub struct Standing<'a> {
    pub object: &'a Path,
    pub of: TypeId,
    pub scene: &'a Scene,
}

/// Puts what the conditions of the type of a field give at the end, if the type is declared.
fn push_declared(
    alloc: Global,
    texts: &ProgramTexts<'_>,
    text: &TextSite<'_, '_, '_>,
    owner: &Owner<'_, '_>,
    into: &mut Vec<Occurrence>,
    place: Place,
    of: &Option<TypeId>,
) -> Result<(), AllocError>
    ensures { OnOk result (map seen_occurrence into.new.items ≡ map seen_occurrence into.old.items ++ flat_map (conditions_kept (types_in texts.now) (seen_site text.now) (seen_owner owner.now) place) (option_to_list of.now)) }
{
    match of {
        Some(of) => push_conditions(alloc, texts, text, owner, into, place, *of),
        None => Ok(()),
    }
}

/// Puts what the initial value of a field gives at the end, if it has one.
fn push_value(
    alloc: Global,
    texts: &ProgramTexts<'_>,
    text: &TextSite<'_, '_, '_>,
    owner: &Owner<'_, '_>,
    into: &mut Vec<Occurrence>,
    of: &Option<TypeId>,
    decl: &FieldDecl,
) -> Result<(), AllocError>
    ensures { OnOk result (HasIt of.now (field_tree decl.now) (seen_site text.now) → map seen_occurrence into.new.items ≡ map seen_occurrence into.old.items ++ flat_map (initials_kept (types_in texts.now).table (seen_site text.now) (seen_owner owner.now) (is_some decl.now.list)) (option_to_list (option_map expr_tree decl.now.initial))) }
{
    match &decl.initial {
        Some(value) => {
            let is_list = decl.list.is_some();
            push_initial(alloc, texts.types(), text, owner, into, of, is_list, value)
        }
        None => Ok(()),
    }
}

/// Puts what the texts of a field give at the end: the conditions of its type, its `with:`, and its initial value.
fn push_texts(
    alloc: Global,
    texts: &ProgramTexts<'_>,
    text: &TextSite<'_, '_, '_>,
    owner: &Owner<'_, '_>,
    into: &mut Vec<Occurrence>,
    of: &Option<TypeId>,
    decl: &FieldDecl,
) -> Result<(), AllocError>
    ensures { OnOk result (HasIt of.now (field_tree decl.now) (seen_site text.now) → map seen_occurrence into.new.items ≡ map seen_occurrence into.old.items ++ texts_kept (types_in texts.now) (seen_site text.now) (seen_owner owner.now) of.now (field_tree decl.now)) }
{
    push_declared(alloc, texts, text, owner, into, decl.of.place, of)?;
    push_rules(
        alloc,
        texts.types(),
        text,
        owner,
        into,
        decl.rules.as_slice(),
    )?;
    push_value(alloc, texts, text, owner, into, of, decl)
}

/// What `it` is in the texts of a field.
fn it_of(texts: &ProgramTexts<'_>, decl: &FieldDecl) -> Result<Option<It>, AllocError>
    ensures { IfOk result (λ it. option_map seen_it it ≡ it_given (types_in texts.now) (field_tree decl.now)) }
{
    let length = list_length(decl)?;
    match texts.declared_type(decl) {
        Some(of) => Ok(Some(It::Of(FieldType { of, length }))),
        None => Ok(None),
    }
}

/// Puts what one name of a field gives at the end.
fn push_name(
    alloc: Global,
    texts: &ProgramTexts<'_>,
    standing: &Standing<'_>,
    scope: &Scope<'_>,
    under: &[Guard],
    into: &mut Vec<Occurrence>,
    name: &Ident,
    decl: &FieldDecl,
) -> Result<(), AllocError>
    ensures { OnOk result ((seen_scope scope.now).it ≡ it_given (types_in texts.now) (field_tree decl.now) → map seen_occurrence into.new.items ≡ map seen_occurrence into.old.items ++ name_kept (types_in texts.now) (seen_scene standing.now.scene.now).bindings standing.now.object.now (seen_scope scope.now) under.now name.now (field_tree decl.now)) }
{
    let it = then_name(alloc, standing.object, name.text.as_str())?;
    let places = Places {
        object: standing.object,
        it: &it,
        scene: standing.scene,
    };
    let text = TextSite { places, scope };
    let owner = Owner {
        holder: standing.object,
        under,
    };
    let of = texts.declared_type(decl);
    push_texts(alloc, texts, &text, &owner, into, &of, decl)
}

/// Puts what each name of a field gives at the end.
fn push_names(
    alloc: Global,
    texts: &ProgramTexts<'_>,
    standing: &Standing<'_>,
    scope: &Scope<'_>,
    under: &[Guard],
    into: &mut Vec<Occurrence>,
    decl: &FieldDecl,
) -> Result<(), AllocError>
    ensures { OnOk result ((seen_scope scope.now).it ≡ it_given (types_in texts.now) (field_tree decl.now) → map seen_occurrence into.new.items ≡ map seen_occurrence into.old.items ++ flat_map (λ i. name_kept (types_in texts.now) (seen_scene standing.now.scene.now).bindings standing.now.object.now (seen_scope scope.now) under.now i (field_tree decl.now)) decl.now.names) }
{
    for name in decl.names.as_slice() {
        push_name(alloc, texts, standing, scope, under, into, name, decl)?;
    }
    Ok(())
}

/// Puts what a rule of the object gives at the end.
fn push_own_rule(
    alloc: Global,
    texts: &ProgramTexts<'_>,
    standing: &Standing<'_>,
    scope: &Scope<'_>,
    under: &[Guard],
    into: &mut Vec<Occurrence>,
    rule: &RuleDecl,
) -> Result<(), AllocError>
    ensures { OnOk result (map seen_occurrence into.new.items ≡ map seen_occurrence into.old.items ++ own_rule_kept (types_in texts.now).table (seen_scene standing.now.scene.now).bindings standing.now.object.now (seen_scope scope.now) under.now (rule_tree rule.now) ∷ []) }
{
    let places = Places {
        object: standing.object,
        it: standing.object,
        scene: standing.scene,
    };
    let text = TextSite { places, scope };
    let owner = Owner {
        holder: standing.object,
        under,
    };
    push_rule(alloc, texts.types(), &text, &owner, into, rule)
}

/// Appends the constraints that a field of the object gives. The scope is that of the member's text.
/// `inside` is how many of the outermost conditions are met already.
fn push_field(
    alloc: Global,
    texts: &ProgramTexts<'_>,
    standing: &Standing<'_>,
    scope: &Scope<'_>,
    listed: &ListedMember<'_>,
    inside: usize,
    into: &mut Vec<Occurrence>,
    decl: &FieldDecl,
) -> Result<(), AllocError>
    ensures { OnOk result (IsTextScope (types_in texts.now) listed.now.holder (seen_scope scope.now) → map seen_occurrence into.new.items ≡ map seen_occurrence into.old.items ++ member_kept (types_in texts.now) (seen_scene standing.now.scene.now).bindings standing.now.object.now standing.now.of (under_inside inside (seen_listed listed.now)) (MemberTree.Field (field_tree decl.now))) }
{
    let it = it_of(texts, decl)?;
    let under = texts.guards_under(
        alloc,
        standing.object,
        standing.of,
        listed.under_inside(inside),
    )?;
    let own = Scope {
        holder: scope.holder,
        it,
        labels: scope.labels,
        way: scope.way,
    };
    push_names(alloc, texts, standing, &own, under.as_slice(), into, decl)
}

/// Puts what a rule among the object's members gives at the end. The scope is that of the member's text. The member is seen from
/// inside of so many of the conditional subtypes that it is under.
fn push_member_rule(
    alloc: Global,
    texts: &ProgramTexts<'_>,
    standing: &Standing<'_>,
    scope: &Scope<'_>,
    listed: &ListedMember<'_>,
    inside: usize,
    into: &mut Vec<Occurrence>,
    rule: &RuleDecl,
) -> Result<(), AllocError>
    ensures { OnOk result (IsTextScope (types_in texts.now) listed.now.holder (seen_scope scope.now) → map seen_occurrence into.new.items ≡ map seen_occurrence into.old.items ++ member_kept (types_in texts.now) (seen_scene standing.now.scene.now).bindings standing.now.object.now standing.now.of (under_inside inside (seen_listed listed.now)) (MemberTree.Rule (rule_tree rule.now))) }
{
    let under = texts.guards_under(
        alloc,
        standing.object,
        standing.of,
        listed.under_inside(inside),
    )?;
    let own = Scope {
        holder: scope.holder,
        it: None,
        labels: scope.labels,
        way: scope.way,
    };
    push_own_rule(alloc, texts, standing, &own, under.as_slice(), into, rule)
}

/// Appends the constraints that a member of the object gives. The scope is that of the member's text.
/// `inside` is how many of the outermost conditions are met already.
fn push_member(
    alloc: Global,
    texts: &ProgramTexts<'_>,
    standing: &Standing<'_>,
    scope: &Scope<'_>,
    listed: &ListedMember<'_>,
    inside: usize,
    into: &mut Vec<Occurrence>,
) -> Result<(), AllocError>
    ensures { OnOk result (IsTextScope (types_in texts.now) listed.now.holder (seen_scope scope.now) → map seen_occurrence into.new.items ≡ map seen_occurrence into.old.items ++ listed_kept (types_in texts.now) (seen_scene standing.now.scene.now).bindings standing.now.object.now standing.now.of (under_inside inside (seen_listed listed.now))) }
{
    match listed.written.member {
        Member::Field(decl) => {
            push_field(alloc, texts, standing, scope, listed, inside, into, decl)
        }
        Member::Rule(rule) => {
            push_member_rule(alloc, texts, standing, scope, listed, inside, into, rule)
        }
        Member::Do { .. } => Ok(()),
    }
}

/// The labels of the text of a type, and the type.
#[derive(Drop)]
struct TextLabels<'t> {
    holder: TypeId,
    labels: TypeLabels<'t>,
}

/// The labels of the text of a type.
fn text_labels<'t>(
    alloc: Global,
    texts: &'t ProgramTexts<'_>,
    holder: TypeId,
) -> Result<TextLabels<'t>, AllocError>
    ensures { IfOk result (λ l. IsLabelled (types_in texts.entry.now) holder l) }
{
    let labels = texts.labels(alloc, holder)?;
    Ok(TextLabels { holder, labels })
}

/// The labels of the text of a type, given those of the text of some type.
fn labels_for<'t>(
    alloc: Global,
    texts: &'t ProgramTexts<'_>,
    known: TextLabels<'t>,
    holder: TypeId,
) -> Result<TextLabels<'t>, AllocError>
    ensures { IfOk result (λ l. IsLabelled (types_in texts.entry.now) known.entry.holder known.entry → IsLabelled (types_in texts.entry.now) holder l) }
{
    if known.holder == holder {
        return Ok(known);
    }
    text_labels(alloc, texts, holder)
}

/// Appends the constraints that a member of the object gives, given the labels of the member's text.
/// `inside` is how many of the outermost conditions are met already.
fn push_labelled(
    alloc: Global,
    texts: &ProgramTexts<'_>,
    standing: &Standing<'_>,
    labels: &TextLabels<'_>,
    listed: &ListedMember<'_>,
    inside: usize,
    into: &mut Vec<Occurrence>,
) -> Result<(), AllocError>
    ensures { OnOk result (IsLabelled (types_in texts.now) listed.now.holder labels.now → map seen_occurrence into.new.items ≡ map seen_occurrence into.old.items ++ listed_kept (types_in texts.now) (seen_scene standing.now.scene.now).bindings standing.now.object.now standing.now.of (under_inside inside (seen_listed listed.now))) }
{
    let scope = scope_at(labels.holder, None, labels.labels.table(), &[]);
    push_member(alloc, texts, standing, &scope, listed, inside, into)
}

/// Appends the constraints that members of the object give. `inside` is how many of the outermost conditions are met already.
/// Labels that are made for a text serve all members in a row.
fn push_members(
    alloc: Global,
    texts: &ProgramTexts<'_>,
    standing: &Standing<'_>,
    into: &mut Vec<Occurrence>,
    members: &[ListedMember<'_>],
    inside: usize,
) -> Result<(), AllocError>
    ensures { OnOk result (map seen_occurrence into.new.items ≡ map seen_occurrence into.old.items ++ flat_map (λ m. listed_kept (types_in texts.now) (seen_scene standing.now.scene.now).bindings standing.now.object.now standing.now.of (under_inside inside m)) (map seen_listed members.now)) }
{
    let mut labels = text_labels(alloc, texts, standing.of)?;
    for listed in members {
        labels = labels_for(alloc, texts, labels, listed.holder)?;
        push_labelled(alloc, texts, standing, &labels, listed, inside, into)?;
    }
    Ok(())
}

/// Puts what all members of the object give at the end, one part of a row after the other.
fn push_parts(
    alloc: Global,
    texts: &ProgramTexts<'_>,
    standing: &Standing<'_>,
    into: &mut Vec<Occurrence>,
) -> Result<(), AllocError>
    ensures { OnOk result (map seen_occurrence into.new.items ≡ map seen_occurrence into.old.items ++ flat_map (listed_kept (types_in texts.now) (seen_scene standing.now.scene.now).bindings standing.now.object.now standing.now.of) (told.members (types_in texts.now) standing.now.of)) }
{
    let lists = texts.lists();
    let span = lists.span(standing.of);
    for part in lists.front(span.row) {
        push_members(alloc, texts, standing, into, lists.part(part), part.inside)?;
    }
    push_members(alloc, texts, standing, into, lists.own(&span), 0)?;
    Ok(())
}

/// Puts the own constraints of an object with so many steps left at the end.
pub fn push_own(
    alloc: Global,
    texts: &ProgramTexts<'_>,
    standing: &Standing<'_>,
    steps: u32,
    into: &mut Vec<Occurrence>,
) -> Result<(), AllocError>
    ensures { OnOk result (map seen_occurrence into.new.items ≡ map seen_occurrence into.old.items ++ map (occurrence_of (seen_scene standing.now.scene.now).bindings) (own_within steps (types_in texts.now) standing.now.object.now standing.now.of)) }
{
    if steps == 0 {
        return Ok(());
    }
    push_parts(alloc, texts, standing, into)?;
    Ok(())
}
