ghost use Rattle.std.specs.Prelude.{◌≡◌, [], ◌∷◌, ◌++◌, ◌⊎◌, ◌<◌, ◌≤◌, Some, length, slice_get, option_map, option_copied, is_some, IfSome, IfOk, IfErr, OnOk, OnErr};
ghost use Rattle.dsl_tree.specs.osc_base.declared.fault.Fault.{Fault};
ghost use Rattle.dsl_tree.specs.osc_base.declared.stop.Stop.{Stop};
ghost use Rattle.dsl_tree.specs.Language.{FollowsGrammar};
ghost use Rattle.dsl_tree.specs.Views.{file_tree};
ghost use Rattle.name_scope.specs.FileNumbers.{name_text, is_library_at, numbered_names, names_before, adding_fault, wanted_name, wanted_mention};
ghost use Rattle.name_scope.specs.Wanted.{file_name};
ghost use Rattle.name_scope.specs.Declaring.{found, IsDeclared};
ghost use Rattle.dsl_tree.specs.osc_base.FaultRows.{IsFault, IsFirst, first_fault};
ghost use Rattle.name_scope.specs.Headings.{heading_rows};
ghost use Rattle.name_scope.specs.FileNumbers.{first_mention as mention_in};
ghost use Rattle.name_scope.specs.Sources.{IsProgram};
ghost use Rattle.std.specs.Prelude.{take as take_front, None, ◌^◌};

use crate::find::find_in;
use crate::headings::first_heading_fault;
use crate::names::{FileName, Wanted, first_mention, number_imports, push_name};
use crate::source::Source;
use crate::{DeclId, NameKind};
use dsl_tree::File;
use dsl_tree::osc_base::{Fault, Place, Stop, Text};
use std::alloc::{AllocError, Global};
use std::marker::Model;

/// Why a file wasn't added: an import of it has a fault, and this is the first; or out of memory.
///
/// The code is `MissingImport` when the import is dotted and its first name isn't `osc`, and `TooManyFiles`
/// when it would bring the 65th file.
pub type AddStop = Stop<Fault>;

/// The files of a program in load order. Contracts see it as the list of the added files.
///
/// The main file is number 0. Files are taken in the order of their numbers; each import of a file that
/// asks for one without a number gives that one the next number.
#[derive(Drop)]
pub struct Program {
    sources: Vec<Source>,
    names: Vec<FileName>,
    alloc: Global,
}

impl Model for Program {
    ghost use Rattle.std.specs.Prelude.{List};
    ghost use Rattle.name_scope.specs.FileNumbers.{AddedFile};
    ghost use Rattle.std.specs.Coded.{codes};
    ghost use Rattle.dsl_tree.specs.contracts.file.File as file_type;

    ghost Value = { List AddedFile };

    ghost coded = { Prim.hlevel (codes, file_type.the_row.coded) };

    ghost use Rattle.name_scope.specs.Sources.{IsProgram};

    ghost view = { λ p. p.sources.items };

    ghost invariant = { λ p. IsProgram p.sources.items p.names.items };
}

impl Program {
    /// A program without files.
    pub fn new(alloc: Global) -> Program
        ensures { result ≡ [] }
    {
        Program {
            sources: Vec::new(alloc),
            names: Vec::new(alloc),
            alloc,
        }
    }

    /// Adds the main file, or the file that is wanted, whose name for the library is `osc`. The tree has to
    /// follow the grammar.
    ///
    /// `At` comes exactly when an import of the file has a fault. If the file isn't added, the program is
    /// unchanged.
    pub fn add_file(&mut self, name: Text, file: File) -> Result<(), AddStop>
        requires next { (self.old ≡ []) ⊎ (option_map name_text (wanted_name self.old) ≡ Some name) }
        requires grammar { FollowsGrammar (file_tree file) }
        ensures added { OnOk result (self.new ≡ self.old ++ record { name = name; file = file } ∷ []) }
        ensures sound { OnOk result (adding_fault self.old (record { name = name; file = file }) ≡ None) }
        ensures fault { IfErr result (λ stop. (f : Fault) → stop ≡ Stop.At f → adding_fault self.old (record { name = name; file = file }) ≡ Some f) }
        ensures kept { OnErr result (self.new ≡ self.old) }
    {
        let count = self.names.len();
        match take(self.alloc, &mut self.names, &mut self.sources, name, file) {
            Ok(()) => Ok(()),
            Err(stop) => {
                self.names.truncate(count);
                Err(stop)
            }
        }
    }

    /// The next file that is numbered and isn't added yet. `None` exactly when every numbered file was added.
    pub fn wanted(&self) -> Option<Wanted<'_>>
        ensures name { option_map file_name result ≡ wanted_name self.now }
        ensures room { IfSome result (λ _. length self.now < 64) }
    {
        let name = self.names.get(self.sources.len())?;
        Some(name.wanted())
    }

    /// The place of the import that asks first for the wanted file: that of its string, or of its first name.
    /// `None` exactly when no file is wanted.
    pub fn wanted_place(&self) -> Option<Place>
        ensures place { result ≡ wanted_mention self.now }
        ensures wanted { is_some result ≡ is_some (wanted_name self.now) }
    {
        let wanted = self.wanted()?;
        place_in(self.sources.as_slice(), wanted)
    }

    /// The first declaration of the name, in load order. Only behaviours have owners. `None` exactly when
    /// nothing of that kind, owner and name is declared. The place of a modifier is that among its file's
    /// modifiers.
    pub fn find(&self, kind: NameKind, owner: Option<&str>, name: &str) -> Option<DeclId>
        ensures first { result ≡ found kind (option_copied owner.entry) name.now self.now }
        ensures there { IfSome result (IsDeclared kind (option_copied owner.entry) name.now self.now) }
    {
        find_in(self.sources.as_slice(), kind, owner, name)
    }

    /// The least fault of names in headings, by file, token and code: `Twice` at a name that is declared
    /// before, `Unknown` at a type, owner, base or extended type that isn't declared. `None` exactly when
    /// there is none.
    pub fn name_faults(&self, _alloc: Global) -> Result<Option<Fault>, AllocError>
        ensures first { IfOk result (λ f. f ≡ first_fault (heading_rows self.now)) }
        ensures least { IfOk result (λ f. IsFirst (IsFault (heading_rows self.now)) f) }
    {
        Ok(first_heading_fault(self.sources.as_slice()))
    }

    /// How many files were added.
    pub fn files(&self) -> u32
        ensures count { result ≡ length self.now }
        ensures few { result ≤ 64 }
    {
        self.sources.len() as u32
    }

    /// The file of that number. `None` exactly when the number isn't below `files`.
    pub fn file(&self, number: u32) -> Option<&File>
        ensures file { option_copied result ≡ option_map (λ f. f.file) (slice_get self.now number) }
        ensures follows { IfSome result (λ f. FollowsGrammar (file_tree f.now)) }
        ensures few { IfSome result (λ f. length f.now.decls < 2 ^ 32) }
        ensures few_modifiers { IfSome result (λ f. length f.now.modifiers < 2 ^ 32) }
    {
        let source = self.sources.get(number as usize)?;
        Some(source.file())
    }

    /// Whether the file of that number is the library. A file of the shelf that is called `osc` isn't.
    pub fn is_library(&self, number: u32) -> bool
        ensures { result ≡ is_library_at self.now number }
    {
        matches!(self.names.get(number as usize), Some(FileName::Library))
    }

    /// The name of the file of that number, `osc` for the library. `None` exactly when the number isn't
    /// below `files`.
    pub fn name(&self, number: u32) -> Option<&str>
        ensures name { option_copied result ≡ option_map (λ f. f.name) (slice_get self.now number) }
        ensures numbered { IfSome result (λ name. option_map name_text (slice_get (numbered_names self.now) number) ≡ Some name.now) }
    {
        let source = self.sources.get(number as usize)?;
        Some(source.name())
    }

    /// The files of the program, in load order.
    pub fn into_files(self) -> Vec<Source>
        ensures { result.items ≡ self }
    {
        let Program { sources, .. } = self;
        sources
    }
}

/// Numbers the files that a file asks for, and adds it.
fn take(
    alloc: Global,
    names: &mut Vec<FileName>,
    sources: &mut Vec<Source>,
    name: Text,
    file: File,
) -> Result<(), AddStop>
    requires program { IsProgram sources.old.items names.old.items }
    requires next { (sources.old.items ≡ []) ⊎ (option_map name_text (wanted_name sources.old.items) ≡ Some name) }
    requires grammar { FollowsGrammar (file_tree file) }
    ensures added { OnOk result (sources.new.items ≡ sources.old.items ++ record { name = name; file = file } ∷ []) }
    ensures program { OnOk result (IsProgram sources.new.items names.new.items) }
    ensures sound { OnOk result (adding_fault sources.old.items (record { name = name; file = file }) ≡ None) }
    ensures fault { IfErr result (λ stop. (f : Fault) → stop ≡ Stop.At f → adding_fault sources.old.items (record { name = name; file = file }) ≡ Some f) }
    ensures kept { OnErr result (sources.new.items ≡ sources.old.items) }
    ensures front { take_front (length names.old.items) names.new.items ≡ names.old.items }
{
    number_main(alloc, names, sources.as_slice(), name.as_str())?;
    number_imports(alloc, names, file.imports.as_slice())?;
    push_source(alloc, sources, name, file)?;
    Ok(())
}

/// Gives the main file its number.
fn number_main(
    alloc: Global,
    names: &mut Vec<FileName>,
    sources: &[Source],
    name: &str,
) -> Result<(), AllocError>
    requires { IsProgram sources.now names.old.items }
    ensures ok { OnOk result (names.new.items ≡ names_before sources.now name.now) }
    ensures few { length names.new.items ≤ 64 }
    ensures front { take_front (length names.old.items) names.new.items ≡ names.old.items }
{
    if sources.is_empty() {
        push_name(alloc, names, Wanted::Named(name))
    } else {
        Ok(())
    }
}

fn push_source(
    alloc: Global,
    sources: &mut Vec<Source>,
    name: Text,
    file: File,
) -> Result<(), AllocError>
    requires { FollowsGrammar (file_tree file) }
    ensures ok { OnOk result (sources.new.items ≡ sources.old.items ++ record { name = name; file = file } ∷ []) }
    ensures err { OnErr result (sources.new.items ≡ sources.old.items) }
{
    sources.push(Source::new(alloc, name, file)?)?;
    Ok(())
}

/// The place of the first import of the files that asks for one.
fn place_in(sources: &[Source], wanted: Wanted<'_>) -> Option<Place>
    ensures { result ≡ mention_in (file_name wanted.entry) sources.now }
{
    for source in sources {
        if let Some(place) = first_mention(source.file().imports.as_slice(), wanted) {
            return Some(place);
        }
    }
    None
}
