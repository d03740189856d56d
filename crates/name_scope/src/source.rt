ghost use Rattle.std.specs.Prelude.{◌≡◌, ℕ, ◌<◌, ◌^◌, length, option_copied, IfOk};
ghost use Rattle.dsl_tree.specs.Language.{FollowsGrammar};
ghost use Rattle.dsl_tree.specs.Views.{file_tree};
ghost use Rattle.name_scope.specs.Declaring.{declares, first_place, place_in_file};

use crate::NameKind;
use crate::table::{DeclTable, NameTable};
use dsl_tree::File;
use dsl_tree::osc_base::Text;
use std::alloc::{AllocError, Global};
use std::marker::Model;

/// An added file, with the tables of the names that it declares.
#[derive(Drop)]
pub struct Source {
    name: Text,
    file: File,
    table: DeclTable,
    modifiers: NameTable,
}

impl Model for Source {
    ghost use Rattle.name_scope.specs.FileNumbers.{AddedFile};
    ghost use Rattle.std.specs.Coded.{codes};
    ghost use Rattle.dsl_tree.specs.contracts.file.File as file_type;

    ghost Value = { AddedFile };

    ghost coded = { Prim.hlevel (codes, file_type.the_row.coded) };

    ghost use Rattle.name_scope.specs.Sources.{IsSource};

    ghost view = { λ s. record { name = s.name; file = s.file } };

    ghost invariant = { λ s. IsSource s.table s.modifiers s.file };
}

impl Source {
    /// The file with its tables.
    pub fn new(alloc: Global, name: Text, file: File) -> Result<Source, AllocError>
        requires { FollowsGrammar (file_tree file) }
        ensures { IfOk result (λ s. s ≡ record { name = name; file = file }) }
    {
        let table = DeclTable::of(alloc, file.decls.as_slice())?;
        let modifiers = NameTable::of(alloc, file.modifiers.as_slice())?;
        Ok(Source {
            name,
            file,
            table,
            modifiers,
        })
    }

    /// The name by which the file was fetched.
    pub fn name(&self) -> &str
        ensures { result.now ≡ self.now.name }
    {
        self.name.as_str()
    }

    /// The file.
    pub fn file(&self) -> &File
        ensures file { result.now ≡ self.now.file }
        ensures follows { FollowsGrammar (file_tree self.now.file) }
        ensures few { length self.now.file.decls < 2 ^ 32 }
        ensures few_modifiers { length self.now.file.modifiers < 2 ^ 32 }
    {
        &self.file
    }

    /// The name by which the file was fetched, and the file.
    pub fn into_parts(self) -> (Text, File)
        ensures name { result.0 ≡ self.name }
        ensures file { result.1 ≡ self.file }
        ensures follows { FollowsGrammar (file_tree self.file) }
    {
        let Source { name, file, .. } = self;
        (name, file)
    }

    /// The place of the first declaration of the name in this file.
    pub fn find(&self, kind: NameKind, owner: Option<&str>, name: &str) -> Option<u32>
        ensures { result ≡ first_place (declares kind (option_copied owner.entry) name.now) 0 self.now.file.decls }
    {
        self.table.get(kind, owner, name)
    }

    /// The place of the first modifier or declaration of the name in this file.
    pub fn place(&self, kind: NameKind, owner: Option<&str>, name: &str) -> Option<u32>
        ensures { result ≡ place_in_file kind (option_copied owner.entry) name.now self.now.file }
    {
        match (kind, owner) {
            (NameKind::ModifierName, None) => self.modifiers.get(name),
            (NameKind::ModifierName, Some(_)) => None,
            (NameKind::TypeName | NameKind::UnitName | NameKind::BehaviourName, _) => {
                self.find(kind, owner, name)
            }
        }
    }
}
