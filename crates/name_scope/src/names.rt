ghost use Rattle.std.specs.Prelude.{◌≡◌, ◌≤◌, [], ◌∷◌, ◌++◌, length, take, option_map, IfOk, IfErr, OnOk, OnErr};
ghost use Rattle.name_scope.specs.FileNumbers.{meant_name, dotted_name, import_fault, first_import_fault, with_name, with_imports, same_name, is_meant, first_mention_in};
ghost use Rattle.name_scope.specs.FileNumbers.{import_place as place_of, is_numbered as has_number};
ghost use Rattle.dsl_tree.specs.osc_base.declared.fault.Fault.{Fault};
ghost use Rattle.dsl_tree.specs.osc_base.declared.stop.Stop.{Stop};
ghost use Rattle.name_scope.specs.Wanted.{file_name};

use crate::program::AddStop;
use dsl_tree::osc_base::{Fault, FaultCode, Place, Text};
use dsl_tree::{Ident, Import};
use std::alloc::{AllocError, Global};

/// The most files that a program has, including the library.
pub const MOST_FILES: usize = 64;

/// The name of a file of the program.
#[derive(Drop)]
pub enum FileName {
    Library,
    Named(Text),
}

/// The next file that a program needs: the library, or the file of the given name.
#[derive(Clone, Copy)]
pub enum Wanted<'a> {
    Library,
    Named(&'a str),
}

impl FileName {
    /// The name as callers see it.
    pub fn wanted(&self) -> Wanted<'_>
        ensures { file_name result ≡ self.now }
    {
        match self {
            FileName::Library => Wanted::Library,
            FileName::Named(name) => Wanted::Named(name.as_str()),
        }
    }

    /// The name that is wanted, in memory of its own.
    pub fn of(alloc: Global, wanted: Wanted<'_>) -> Result<FileName, AllocError>
        ensures { IfOk result (λ n. n ≡ file_name wanted.entry) }
    {
        match wanted {
            Wanted::Library => Ok(FileName::Library),
            Wanted::Named(name) => Ok(FileName::Named(Text::copy(alloc, name)?)),
        }
    }
}

/// What an import asks for, if it asks for a file.
pub fn meant(import: &Import) -> Option<Wanted<'_>>
    ensures { option_map file_name result ≡ meant_name import.now }
{
    match import {
        Import::Named { place: _, name } => Some(Wanted::Named(name.as_str())),
        Import::Dotted { names } => dotted(names.as_slice()),
    }
}

fn dotted<'a>(names: &[Ident]) -> Option<Wanted<'a>>
    ensures { option_map file_name result ≡ dotted_name names.now }
{
    match names {
        [first, ..] if first.text.as_str() == "osc" => Some(Wanted::Library),
        _ => None,
    }
}

/// The place of the token after the word `import`.
pub fn import_place(import: &Import) -> Option<Place>
    ensures { result ≡ place_of import.now }
{
    match import {
        Import::Named { place, name: _ } => Some(*place),
        Import::Dotted { names } => match names.as_slice() {
            [first, ..] => Some(first.place),
            [] => None,
        },
    }
}

fn is_same(a: Wanted<'_>, b: Wanted<'_>) -> bool
    ensures { result ≡ same_name (file_name a.entry) (file_name b.entry) }
{
    match (a, b) {
        (Wanted::Library, Wanted::Library) => true,
        (Wanted::Named(a), Wanted::Named(b)) => a == b,
        _ => false,
    }
}

fn is_numbered(wanted: Wanted<'_>, names: &[FileName]) -> bool
    ensures { result ≡ has_number (file_name wanted.entry) names.now }
{
    names.iter().any(|name| is_same(wanted, name.wanted()))
}

/// Whether an import asks for the file.
fn mentions(import: &Import, wanted: Wanted<'_>) -> bool
    ensures { result ≡ is_meant (file_name wanted.entry) (meant_name import.now) }
{
    match meant(import) {
        Some(other) => is_same(wanted, other),
        None => false,
    }
}

/// The place of the first import that asks for the file.
pub fn first_mention(imports: &[Import], wanted: Wanted<'_>) -> Option<Place>
    ensures { result ≡ first_mention_in (file_name wanted.entry) imports.now }
{
    for import in imports {
        if mentions(import, wanted) {
            return import_place(import);
        }
    }
    None
}

/// Gives a name the next number.
pub fn push_name(
    alloc: Global,
    names: &mut Vec<FileName>,
    wanted: Wanted<'_>,
) -> Result<(), AllocError>
    ensures ok { OnOk result (names.new.items ≡ names.old.items ++ file_name wanted.entry ∷ []) }
    ensures err { OnErr result (names.new.items ≡ names.old.items) }
{
    names.push(FileName::of(alloc, wanted)?)?;
    Ok(())
}

/// Gives the file that an import asks for the next number, if it has none.
fn number_import(alloc: Global, names: &mut Vec<FileName>, import: &Import) -> Result<(), AddStop>
    requires { length names.old.items ≤ 64 }
    ensures ok { OnOk result (import_fault names.old.items import.now ≡ None) }
    ensures named { OnOk result (names.new.items ≡ with_name names.old.items (meant_name import.now)) }
    ensures few { length names.new.items ≤ 64 }
    ensures at { IfErr result (λ stop. (f : Fault) → stop ≡ Stop.At f → import_fault names.old.items import.now ≡ Some f) }
    ensures kept { OnErr result (names.new.items ≡ names.old.items) }
{
    let Some(place) = import_place(import) else {
        return Ok(());
    };
    let Some(wanted) = meant(import) else {
        return Err(AddStop::At(Fault {
            place,
            code: FaultCode::MissingImport,
        }));
    };
    if is_numbered(wanted, names) {
        return Ok(());
    }
    if names.len() >= MOST_FILES {
        return Err(AddStop::At(Fault {
            place,
            code: FaultCode::TooManyFiles,
        }));
    }
    push_name(alloc, names, wanted)?;
    Ok(())
}

/// Numbers the files that the imports of a file ask for, up to the first import with a fault.
pub fn number_imports(
    alloc: Global,
    names: &mut Vec<FileName>,
    imports: &[Import],
) -> Result<(), AddStop>
    requires { length names.old.items ≤ 64 }
    ensures ok { OnOk result (first_import_fault names.old.items imports.now ≡ None) }
    ensures named { OnOk result (names.new.items ≡ with_imports names.old.items imports.now) }
    ensures few { length names.new.items ≤ 64 }
    ensures at { IfErr result (λ stop. (f : Fault) → stop ≡ Stop.At f → first_import_fault names.old.items imports.now ≡ Some f) }
    ensures front { take (length names.old.items) names.new.items ≡ names.old.items }
{
    for import in imports {
        number_import(alloc, names, import)?;
    }
    Ok(())
}
