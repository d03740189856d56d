ghost use Rattle.std.specs.Prelude.{◌≡◌, ◌≤◌, ◌↔◌, [], IsErr, is_some, unwrap_or, IfOk, OnOk, OnErr, Contains, length, drop, map, position};
ghost use Rattle.std.specs.Str.{bytes_eq};
ghost use Rattle.outside_io.specs.Files.{bytes_at, file_named, file_of, Takes};
ghost use Rattle.outside_io.specs.Memory.{after_call, after_fault, read_count};

use crate::{NamedBytes, Shelf, ShelfFault};
use osc_base::Row;
use std::alloc::{AllocError, Global};
use std::marker::Model;

/// A shelf in memory, for tests and for callers that have the bytes at hand.
///
/// Its calls are numbered from 0, and a call whose number is among those given fails. A call passes at most the given
/// number of bytes. If two files have one name, the first counts.
#[derive(Debug, Drop)]
pub struct MemoryShelf {
    files: Row<NamedBytes>,
    most: usize,
    failing: Row<u64>,
    fetched: Option<usize>,
    taken: usize,
    calls: u64,
    faults: u64,
}

impl Model for MemoryShelf {
    ghost use Rattle.outside_io.specs.Memory.{ShelfState};

    ghost Value = { ShelfState };

    ghost use Rattle.outside_io.specs.ShelfFields.{state_of, IsConsistent};

    ghost view = { state_of };

    ghost invariant = { IsConsistent };
}

impl MemoryShelf {
    /// A shelf of these files, on which nothing is fetched yet. A call passes at most `most` bytes, and the calls
    /// whose numbers are in `failing` fail.
    pub fn new(files: Row<NamedBytes>, most: usize, failing: Row<u64>) -> MemoryShelf
        requires { 1 ≤ most }
        ensures { result ≡ record { files = files; most = most; failing = failing; left = []; calls = 0; faults = 0 } }
    {
        MemoryShelf {
            files,
            most,
            failing,
            fetched: None,
            taken: 0,
            calls: 0,
            faults: 0,
        }
    }

    /// A shelf of copies of these files, each given by its name and its bytes; `most` and `failing` are as in `new`.
    pub fn of(
        alloc: Global,
        files: &[(&str, &[u8])],
        most: usize,
        failing: &[u64],
    ) -> Result<MemoryShelf, AllocError>
        requires { 1 ≤ most }
        ensures { IfOk result (λ shelf. shelf ≡ record {
          files = map file_of files.now;
          most = most;
          failing = failing.now;
          left = [];
          calls = 0;
          faults = 0;
        }) }
    {
        let mut row = Row::new(alloc);
        for (name, bytes) in files {
            row.push(NamedBytes::copy(alloc, name, bytes)?)?;
        }
        let failing = Row::of(Vec::from_slice(alloc, failing)?);
        Ok(MemoryShelf::new(row, most, failing))
    }

    /// Numbers a call, and fails it if its number is among those that fail.
    fn begin(&mut self) -> Result<(), ShelfFault>
        ensures fails { IsErr result ↔ Contains self.old.failing self.old.calls }
        ensures ok { OnOk result (self.new ≡ after_call self.old self.old.left) }
        ensures err { OnErr result (self.new ≡ after_fault self.old) }
        ensures never_falls { self.old.faults ≤ self.new.faults }
    {
        let call = self.calls;
        self.calls = call.saturating_add(1);
        if self.failing.as_slice().contains(&call) {
            self.fetched = None;
            self.taken = 0;
            self.faults = self.faults.saturating_add(1);
            return Err(ShelfFault);
        }
        Ok(())
    }
}

impl Shelf for MemoryShelf {
    ghost use Rattle.std.specs.Prelude.{Some};
    ghost use Rattle.outside_io.specs.Memory.{ShelfState};

    ghost files = { λ (s : ShelfState). Some s.files };

    ghost left = { λ (s : ShelfState). Some s.left };

    ghost faults = { λ (s : ShelfState). s.faults };

    fn fetch(&mut self, name: &str) -> Result<bool, ShelfFault>
        ensures fails { IsErr result ↔ Contains self.old.failing self.old.calls }
        ensures found { IfOk result (λ found. found ≡ is_some (file_named self.old.files name.now)) }
        ensures after { IfOk result (λ _. self.new ≡ after_call self.old (unwrap_or (file_named self.old.files name.now) [])) }
        ensures after_fault { OnErr result (self.new ≡ after_fault self.old) }
        ensures never_falls { self.old.faults ≤ self.new.faults }
    {
        self.begin()?;
        self.taken = 0;
        let place = place_of(self.files.as_slice(), name);
        self.fetched = place;
        Ok(place.is_some())
    }

    fn read(&mut self, piece: &mut [u8]) -> Result<usize, ShelfFault>
        ensures fails { IsErr result ↔ Contains self.old.failing self.old.calls }
        ensures takes { IfOk result (λ count. Takes self.old.left count piece.new (Some self.new.left)) }
        ensures count { IfOk result (λ count. count ≡ read_count self.old (length piece.old)) }
        ensures after { IfOk result (λ count. self.new ≡ after_call self.old (drop count self.old.left)) }
        ensures after_fault { OnErr result (self.new ≡ after_fault self.old) }
        ensures never_falls { self.old.faults ≤ self.new.faults }
    {
        self.begin()?;
        let bytes = file_at(self.files.as_slice(), self.fetched);
        let left = &bytes[self.taken..];
        let count = piece.len().min(self.most).min(left.len());
        piece[..count].copy_from_slice(&left[..count]);
        self.taken += count;
        Ok(count)
    }

    ghost tells_all = { λ _ told. told };
}

/// The place of the first file of this name.
fn place_of(files: &[NamedBytes], name: &str) -> Option<usize>
    ensures { result ≡ position (λ (file : NamedBytes). bytes_eq file.name name.now) files.now }
{
    files.iter().position(|file| file.name.as_str() == name)
}

/// The bytes of the file at this place.
fn file_at(files: &[NamedBytes], place: Option<usize>) -> &[u8]
    ensures { result.now ≡ bytes_at files.now place }
{
    match place.and_then(|place| files.get(place)) {
        Some(file) => file.bytes.as_slice(),
        None => &[],
    }
}
