//! The types of a program as they are declared.

ghost use Rattle.std.specs.Prelude.{◌≡◌, ◌++◌, map, filter_map, option_copied, option_map, IfOk, OnOk};
ghost use Rattle.name_scope.specs.dsl_tree.Views.{declaration_tree};
ghost use Rattle.name_scope.specs.Declaring.{compound_name as named_compound};
ghost use Rattle.type_heads.specs.DeclaredTypes.{Placed, all_declared, basic_types, type_declared};
ghost use Rattle.type_heads.specs.Seen.{kept_form};
ghost use Rattle.type_heads.specs.Placing.{basic_form, basic_name, seen_placed, seen_type};

use crate::form::OwnForm;
use crate::placed::PlacedDecl;
use name_scope::dsl_tree::{
    CompoundDecl, CompoundKind, Declaration, EnumDecl, Heir, PhysicalDecl, QName,
};
use std::alloc::{AllocError, Global};
use units_si::osc_base::Place;

/// A type that is there without a declaration.
#[derive(Clone, Copy)]
pub enum BasicType {
    Int,
    Uint,
    Float,
    Bool,
    Chars,
}

/// A type as it is declared. A compound has the number of its file, and of its declaration in that file.
#[derive(Clone, Copy)]
pub enum OwnType<'a> {
    Basic(BasicType),
    Physical(&'a PhysicalDecl),
    Enum(&'a EnumDecl),
    Compound {
        file: u32,
        index: u32,
        decl: &'a CompoundDecl,
    },
}

impl BasicType {
    /// Its name.
    fn name(self) -> &'static str
        ensures { result.now ≡ basic_name self }
    {
        match self {
            BasicType::Int => "int",
            BasicType::Uint => "uint",
            BasicType::Float => "float",
            BasicType::Bool => "bool",
            BasicType::Chars => "string",
        }
    }

    /// What it is.
    pub fn form(self) -> OwnForm
        ensures { kept_form result ≡ basic_form self }
    {
        match self {
            BasicType::Int => OwnForm::Int,
            BasicType::Uint => OwnForm::Uint,
            BasicType::Float => OwnForm::Float,
            BasicType::Bool => OwnForm::Truth,
            BasicType::Chars => OwnForm::Chars,
        }
    }
}

impl<'a> OwnType<'a> {
    /// Its name. That of the behaviour `vehicle.drive` is `drive`.
    pub fn name(&self) -> &'a str
        ensures { result.now ≡ (seen_type self.now).head.name }
    {
        match self {
            OwnType::Basic(basic) => basic.name(),
            OwnType::Physical(decl) => decl.name.text.as_str(),
            OwnType::Enum(decl) => decl.name.text.as_str(),
            OwnType::Compound { decl, .. } => compound_name(decl.kind, &decl.name),
        }
    }

    /// The name of the actor that owns it. Only a behaviour has an owner.
    pub fn owner(&self) -> Option<&'a str>
        ensures { option_copied result ≡ (seen_type self.now).head.owner }
    {
        match self {
            OwnType::Basic(_) | OwnType::Physical(_) | OwnType::Enum(_) => None,
            OwnType::Compound { decl, .. } => compound_owner(decl.kind, &decl.name),
        }
    }

    /// Where its name stands. That of a basic type stands nowhere.
    pub fn place(&self) -> Place
        ensures { result ≡ (seen_type self.now).body.place }
    {
        match self {
            OwnType::Basic(_) => Place {
                file: 0,
                line: 0,
                column: 0,
                token: 0,
            },
            OwnType::Physical(decl) => decl.name.place,
            OwnType::Enum(decl) => decl.name.place,
            OwnType::Compound { decl, .. } => compound_place(decl.kind, &decl.name),
        }
    }

    /// What it inherits from, as written.
    pub fn heir(&self) -> Option<&'a Heir>
        ensures { option_copied result ≡ (seen_type self.now).body.heir }
    {
        match self {
            OwnType::Basic(_) | OwnType::Physical(_) | OwnType::Enum(_) => None,
            OwnType::Compound { decl, .. } => decl.heir.as_ref(),
        }
    }
}

fn compound_name(kind: CompoundKind, name: &QName) -> &str
    ensures { result.now ≡ (named_compound kind name.now).name }
{
    match (kind, &name.second) {
        (CompoundKind::Struct | CompoundKind::Actor, _) | (_, None) => name.first.text.as_str(),
        (_, Some(second)) => second.text.as_str(),
    }
}

fn compound_place(kind: CompoundKind, name: &QName) -> Place
    ensures { result ≡ (named_compound kind name.now).place }
{
    match (kind, &name.second) {
        (CompoundKind::Struct | CompoundKind::Actor, _) | (_, None) => name.first.place,
        (_, Some(second)) => second.place,
    }
}

fn compound_owner(kind: CompoundKind, name: &QName) -> Option<&str>
    ensures { option_copied result ≡ (named_compound kind name.now).owner }
{
    match (kind, &name.second) {
        (CompoundKind::Struct | CompoundKind::Actor, _) | (_, None) => None,
        (_, Some(_)) => Some(name.first.text.as_str()),
    }
}

/// The type that a declaration declares. Units and extensions declare none.
fn type_of<'a>(placed: PlacedDecl<'a>) -> Option<OwnType<'a>>
    ensures { option_map seen_type result ≡ type_declared placed.entry.file placed.entry.index (declaration_tree placed.entry.declaration.now) }
{
    match placed.declaration {
        Declaration::Physical(decl) => Some(OwnType::Physical(decl)),
        Declaration::Enum(decl) => Some(OwnType::Enum(decl)),
        Declaration::Compound(decl) => Some(OwnType::Compound {
            file: placed.file,
            index: placed.index,
            decl,
        }),
        Declaration::Unit(_) | Declaration::MemberExtension(_) | Declaration::EnumExtension(_) =>
            None,
    }
}

/// The basic types, then those that declarations declare.
pub fn own_types<'a>(
    alloc: Global,
    placed: &[PlacedDecl<'a>],
) -> Result<Vec<OwnType<'a>>, AllocError>
    ensures { IfOk result (λ all. map seen_type all.items ≡ all_declared (map seen_placed placed.now)) }
{
    let mut all = Vec::new(alloc);
    push_basic(&mut all)?;
    push_declared(&mut all, placed)?;
    Ok(all)
}

fn push_basic(all: &mut Vec<OwnType<'_>>) -> Result<(), AllocError>
    ensures { OnOk result (map seen_type all.new.items ≡ map seen_type all.old.items ++ basic_types) }
{
    for basic in [
        BasicType::Int,
        BasicType::Uint,
        BasicType::Float,
        BasicType::Bool,
        BasicType::Chars,
    ] {
        all.push(OwnType::Basic(basic))?;
    }
    Ok(())
}

fn push_declared<'a>(
    all: &mut Vec<OwnType<'a>>,
    placed: &[PlacedDecl<'a>],
) -> Result<(), AllocError>
    ensures { OnOk result (map seen_type all.new.items ≡ map seen_type all.old.items ++ filter_map (λ (d : Placed). type_declared d.file d.index d.declaration) (map seen_placed placed.now)) }
{
    for declaration in placed {
        if let Some(own) = type_of(*declaration) {
            all.push(own)?;
        }
    }
    Ok(())
}
