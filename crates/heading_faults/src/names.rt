//! The faults of names that are declared twice.

ghost use Rattle.std.specs.Prelude.{◌≡◌, ◌||◌, List, ◌∷◌, option_map, None, filter_map, IfOk, OnOk};
ghost use Rattle.std.specs.List.{list_any};
ghost use Rattle.type_members.specs.osc_base.FaultRows.{first_from};
ghost use Rattle.type_members.specs.dsl_tree.FileTree.{DeclarationTree};
ghost use Rattle.type_members.specs.dsl_tree.Views.{declaration_tree};
ghost use Rattle.type_members.specs.name_scope.Declaring.{DeclaredName};
ghost use Rattle.type_members.specs.name_scope.Declaring.{behaviour_name, compound_name};
ghost use Rattle.type_members.specs.type_heads.HeadingFaults.{basic_names, name_declared as name_of, shares_name, twice_rows};
ghost use Rattle.heading_faults.specs.SeenNames.{seen_name, key_of, basic_name, shares_key, HasNames};
ghost use Rattle.heading_faults.specs.Trees.{trees};

use dsl_tree::{CompoundKind, Declaration, Ident, QName};
use indexmap::IndexSet;
use name_scope::{NameKind, with_fault};
use osc_base::{Fault, FaultCode, Place};
use std::alloc::{AllocError, Global};
use type_heads::PlacedDecl;

/// The place of a name that no file declares.
const NOWHERE: Place = Place {
    file: 0,
    line: 0,
    column: 0,
    token: 0,
};

/// A declared name, and where it stands.
#[derive(Clone, Copy)]
pub struct NameDeclared<'a> {
    kind: NameKind,
    owner: Option<&'a str>,
    name: &'a str,
    place: Place,
}

impl<'a> NameDeclared<'a> {
    /// The name of its owner.
    pub fn owner(self) -> Option<&'a str>
        ensures { result ≡ self.entry.owner }
    {
        self.owner
    }
}

/// A name in its space: units have one of their own, and each owner has one.
#[derive(Clone, Copy, PartialEq, Eq, Hash)]
pub struct NameKey<'a> {
    is_unit: bool,
    owner: Option<&'a str>,
    name: &'a str,
}

fn without_owner(kind: NameKind, name: &Ident) -> NameDeclared<'_>
    ensures { seen_name result ≡ record { kind = kind; owner = None; name = name.now.text; place = name.now.place } }
{
    NameDeclared {
        kind,
        owner: None,
        name: name.text.as_str(),
        place: name.place,
    }
}

fn behaviour(name: &QName) -> NameDeclared<'_>
    ensures { seen_name result ≡ behaviour_name name.now.first name.now.second }
{
    match &name.second {
        None => without_owner(NameKind::BehaviourName, &name.first),
        Some(second) => NameDeclared {
            kind: NameKind::BehaviourName,
            owner: Some(name.first.text.as_str()),
            name: second.text.as_str(),
            place: second.place,
        },
    }
}

/// The name of a type with members.
pub fn compound(kind: CompoundKind, name: &QName) -> NameDeclared<'_>
    ensures { seen_name result ≡ compound_name kind name.now }
{
    match kind {
        CompoundKind::Struct | CompoundKind::Actor => {
            without_owner(NameKind::TypeName, &name.first)
        }
        CompoundKind::Action | CompoundKind::Scenario => behaviour(name),
    }
}

/// The name that a declaration declares; an extension declares none.
pub fn name_declared(declaration: &Declaration) -> Option<NameDeclared<'_>>
    ensures { option_map seen_name result ≡ name_of (declaration_tree declaration.now) }
{
    match declaration {
        Declaration::Physical(d) => Some(without_owner(NameKind::TypeName, &d.name)),
        Declaration::Unit(d) => Some(without_owner(NameKind::UnitName, &d.name)),
        Declaration::Enum(d) => Some(without_owner(NameKind::TypeName, &d.name)),
        Declaration::Compound(d) => Some(compound(d.kind, &d.name)),
        Declaration::MemberExtension(_) | Declaration::EnumExtension(_) => None,
    }
}

fn key(name: NameDeclared<'_>) -> NameKey<'_>
    ensures { result ≡ key_of name.entry }
{
    NameKey {
        is_unit: matches!(name.kind, NameKind::UnitName),
        owner: name.owner,
        name: name.name,
    }
}

/// Names that were declared.
#[derive(Drop)]
pub struct NameSet<'a> {
    keys: IndexSet<NameKey<'a>>,
}

impl<'a> NameSet<'a> {
    /// The names of the basic types.
    fn basic(alloc: Global) -> Result<NameSet<'a>, AllocError>
        ensures { IfOk result (λ s. HasNames s.keys.keys basic_names) }
    {
        let mut names = NameSet {
            keys: IndexSet::new(alloc),
        };
        names.meet_basic("string")?;
        names.meet_basic("bool")?;
        names.meet_basic("float")?;
        names.meet_basic("uint")?;
        names.meet_basic("int")?;
        Ok(names)
    }

    /// Adds the name of a basic type.
    fn meet_basic(&mut self, name: &'a str) -> Result<(), AllocError>
        ensures { OnOk result ((other : DeclaredName) → list_any (shares_key other) self.new.keys.keys ≡ (shares_name other (basic_name name.now) || list_any (shares_key other) self.old.keys.keys)) }
    {
        self.meet(NameDeclared {
            kind: NameKind::TypeName,
            owner: None,
            name,
            place: NOWHERE,
        })?;
        Ok(())
    }

    /// Adds a name. The result says whether it was declared before.
    fn meet(&mut self, name: NameDeclared<'a>) -> Result<bool, AllocError>
        ensures before { IfOk result (λ is_met. is_met ≡ list_any (shares_key (seen_name name.entry)) self.old.keys.keys) }
        ensures more { OnOk result ((other : DeclaredName) → list_any (shares_key other) self.new.keys.keys ≡ (shares_name other (seen_name name.entry) || list_any (shares_key other) self.old.keys.keys)) }
    {
        let is_new = self.keys.insert(key(name))?;
        Ok(!is_new)
    }
}

/// A fault of the name that a declaration declares.
fn with_twice<'a>(
    first: Option<Fault>,
    met: &mut NameSet<'a>,
    declaration: &'a Declaration,
) -> Result<Option<Fault>, AllocError>
    ensures { IfOk result (λ f. (earlier : List DeclaredName) (later : List DeclarationTree) → HasNames met.old.keys.keys earlier →
        (now : List DeclaredName) × HasNames met.new.keys.keys now × (first_from first (twice_rows earlier (filter_map name_of (declaration_tree declaration.now ∷ later))) ≡ first_from f (twice_rows now (filter_map name_of later)))) }
{
    match name_declared(declaration) {
        Some(name) => {
            let is_met = met.meet(name)?;
            Ok(with_fault(first, name.place, FaultCode::Twice, is_met))
        }
        None => Ok(first),
    }
}

/// Faults of names that were declared before.
pub fn with_names(
    alloc: Global,
    first: Option<Fault>,
    all: &[PlacedDecl<'_>],
) -> Result<Option<Fault>, AllocError>
    ensures { IfOk result (λ f. f ≡ first_from first (twice_rows basic_names (filter_map name_of (trees all.now)))) }
{
    let mut met = NameSet::basic(alloc)?;
    let mut found = first;
    for placed in all {
        found = with_twice(found, &mut met, placed.declaration)?;
    }
    Ok(found)
}
