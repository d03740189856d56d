//! The files that were read, and the program that they are.

use command_words::{Request, Source, read_words};
use name_scope::{Program, library_text};
use osc_base::Row;
use outside_io::{MemoryShelf, ReadStop, Shelf, read_all};
use program_load::{LoadStop, load};
use std::alloc::{AllocError, Global};

/// The longest file that is kept, in bytes.
const LONGEST: usize = 16_777_216;

/// The source that the words name.
pub fn source_in(alloc: Global, words: &[String]) -> Result<Option<Source<'_>>, AllocError> {
    match read_words(alloc, words)? {
        Request::Generate(asked) => Ok(Some(asked.source)),
        Request::Check(asked) => Ok(Some(asked.source)),
        Request::Export(asked) => Ok(Some(asked.source)),
        Request::Verify(asked) => Ok(Some(asked.source)),
        Request::Flat(asked) => Ok(Some(asked.source)),
        _ => Ok(None),
    }
}

/// The program that the words name, if all its files are kept.
pub fn program_of(
    alloc: Global,
    words: &[String],
    kept: &mut MemoryShelf,
) -> Result<Option<Program>, AllocError> {
    match source_in(alloc, words)? {
        Some(source) => load_kept(alloc, source.file, kept),
        None => Ok(None),
    }
}

/// The program of a main file, if all its files are kept.
pub fn load_kept(
    alloc: Global,
    main: &str,
    kept: &mut MemoryShelf,
) -> Result<Option<Program>, AllocError> {
    match load(alloc, kept, main) {
        Ok(program) => Ok(Some(program)),
        Err(LoadStop::Memory) => Err(AllocError),
        Err(_) => Ok(None),
    }
}

/// The bytes of the file of this name, if they are kept; of the library for `osc`.
pub fn source_of(
    alloc: Global,
    name: &str,
    kept: &mut MemoryShelf,
) -> Result<Option<Row<u8>>, AllocError> {
    match kept.fetch(name) {
        Ok(true) => {}
        Ok(false) if name == "osc" => return library(alloc),
        _ => return Ok(None),
    }
    match read_all(alloc, kept, LONGEST) {
        Ok(source) => Ok(Some(source)),
        Err(ReadStop::Memory) => Err(AllocError),
        Err(_) => Ok(None),
    }
}

fn library(alloc: Global) -> Result<Option<Row<u8>>, AllocError> {
    let source = Vec::from_slice(alloc, library_text().as_bytes())?;
    Ok(Some(Row::of(source)))
}

/// The bytes of a file that may be kept.
pub fn bytes_of(source: &Option<Row<u8>>) -> Option<&[u8]> {
    match source {
        Some(source) => Some(source.as_slice()),
        None => None,
    }
}
