ghost use Rattle.std.specs.Prelude.{◌≡◌, ◌≤◌, IfOk, IfErr, length};
ghost use Rattle.name_scope.specs.Library.{library_source};
ghost use Rattle.name_scope.specs.Wanted.{file_name};
ghost use Rattle.name_scope.specs.declared.names.FileName.{FileName};
ghost use Rattle.program_load.specs.Loading.{source_limit};
ghost use Rattle.program_load.specs.Steps.{HasTree, HasFile, HasNoTree, HasNoFile, CountsFile};

use crate::source::{FileStop, fetch_source};
use dsl_lexer::{LexStop, lex};
use dsl_parser::{ParseStop, parse};
use dsl_tree::File;
use name_scope::{Wanted, library_text};
use outside_io::Shelf;
use std::alloc::Global;

/// The tree of the source of file number `number`.
fn read(alloc: Global, number: u32, source: &[u8]) -> Result<File, FileStop>
    requires { length source.now ≤ source_limit }
    ensures read { IfOk result (HasTree number source.now) }
    ensures stops { IfErr result (HasNoTree number source.now) }
{
    let tokens = match lex(alloc, number, source) {
        Ok(tokens) => tokens,
        Err(LexStop::At(fault)) => return Err(FileStop::At(fault)),
        Err(LexStop::Memory) => return Err(FileStop::Memory),
    };
    match parse(alloc, &tokens) {
        Ok(file) => Ok(file),
        Err(ParseStop::At(fault)) => Err(FileStop::At(fault)),
        Err(ParseStop::Memory) => Err(FileStop::Memory),
    }
}

/// The tree of the library as file number `number`.
fn read_library(alloc: Global, number: u32) -> Result<File, FileStop>
    ensures read { IfOk result (HasTree number library_source) }
    ensures stops { IfErr result (HasNoTree number library_source) }
{
    read(alloc, number, library_text().as_bytes())
}

/// The tree of the shelf's file of this name as file number `number`.
fn read_named<H: Shelf>(
    alloc: Global,
    shelf: &mut H,
    number: u32,
    name: &str,
) -> Result<File, FileStop>
    ensures read { IfOk result (HasFile (H.files shelf.old) (FileName.Named name.now) number) }
    ensures stops { IfErr result (HasNoFile (H.files shelf.old) (FileName.Named name.now) number) }
    ensures counts { CountsFile result (H.faults shelf.old) (H.faults shelf.new) }
    ensures files_kept { H.files shelf.new ≡ H.files shelf.old }
{
    let source = fetch_source(alloc, shelf, name)?;
    read(alloc, number, source.as_slice())
}

/// The tree of the file of this name as file number `number`.
pub fn read_file<H: Shelf>(
    alloc: Global,
    shelf: &mut H,
    number: u32,
    wanted: Wanted<'_>,
) -> Result<File, FileStop>
    ensures read { IfOk result (HasFile (H.files shelf.old) (file_name wanted.entry) number) }
    ensures stops { IfErr result (HasNoFile (H.files shelf.old) (file_name wanted.entry) number) }
    ensures counts { CountsFile result (H.faults shelf.old) (H.faults shelf.new) }
    ensures files_kept { H.files shelf.new ≡ H.files shelf.old }
{
    match wanted {
        Wanted::Library => read_library(alloc, number),
        Wanted::Named(name) => read_named(alloc, shelf, number, name),
    }
}
