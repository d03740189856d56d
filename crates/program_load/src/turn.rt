ghost use Rattle.std.specs.Prelude.{◌≡◌, ◌⊎◌, [], ◌∷◌, ◌++◌, None, Some, option_map, IfOk, IfErr, OnOk};
ghost use Rattle.dsl_tree.specs.Language.{FollowsGrammar};
ghost use Rattle.dsl_tree.specs.Views.{file_tree};
ghost use Rattle.name_scope.specs.FileNumbers.{name_text, wanted_name, wanted_mention, adding_fault};
ghost use Rattle.name_scope.specs.Wanted.{file_name};
ghost use Rattle.program_load.specs.Outcome.{Counts};
ghost use Rattle.program_load.specs.Steps.{Takes, Stops, IsUnadded, missing_refusal};

use crate::read::read_file;
use crate::source::FileStop;
use crate::stop::{LoadStop, Refusal};
use dsl_tree::File;
use name_scope::{AddStop, Program, Wanted};
use osc_base::{Fault, FaultCode, Text};
use outside_io::Shelf;
use std::alloc::{AllocError, Global};

/// The text of a name, `osc` for the library.
fn text_of<'a>(wanted: Wanted<'a>) -> &'a str
    ensures { result.now ≡ name_text (file_name wanted.entry) }
{
    match wanted {
        Wanted::Library => "osc",
        Wanted::Named(name) => name,
    }
}

/// Why no program is loaded when the file whose turn it is isn't there.
fn missing(alloc: Global, program: &Program) -> Result<Refusal, AllocError>
    ensures { IfOk result (λ stop. stop ≡ missing_refusal program.now (wanted_mention program.now)) }
{
    let Some(place) = program.wanted_place() else {
        return Ok(Refusal::Missing);
    };
    let name = program.name(place.file).unwrap_or("");
    Ok(Refusal::Faulty {
        file: Text::copy(alloc, name)?,
        fault: Fault {
            place,
            code: FaultCode::MissingImport,
        },
    })
}

/// Adds the file whose turn it is, under its name.
fn add(alloc: Global, program: &mut Program, name: Text, file: File) -> Result<(), LoadStop>
    requires turn { (program.old ≡ []) ⊎ (option_map name_text (wanted_name program.old) ≡ Some name) }
    requires grammar { FollowsGrammar (file_tree file) }
    ensures added { OnOk result (program.new ≡ program.old ++ record { name = name; file = file } ∷ []) }
    ensures sound { OnOk result (adding_fault program.old (record { name = name; file = file }) ≡ None) }
    ensures unadded { IfErr result (IsUnadded program.old (record { name = name; file = file })) }
{
    let copy = Text::copy(alloc, name.as_str())?;
    match program.add_file(name, file) {
        Ok(()) => Ok(()),
        Err(AddStop::At(fault)) => Err(LoadStop::At(Refusal::Faulty { file: copy, fault })),
        Err(AddStop::Memory) => Err(LoadStop::Memory),
    }
}

/// Takes the file whose turn it is into the program.
pub fn take_file<H: Shelf>(
    alloc: Global,
    shelf: &mut H,
    program: &mut Program,
    wanted: Wanted<'_>,
) -> Result<(), LoadStop>
    requires turn { (program.old ≡ []) ⊎ (wanted_name program.old ≡ Some (file_name wanted)) }
    ensures takes { OnOk result (Takes (H.files shelf.old) program.old (file_name wanted.entry) program.new) }
    ensures stops { IfErr result (Stops (H.files shelf.old) program.old (file_name wanted.entry)) }
    ensures counts { Counts result (H.faults shelf.old) (H.faults shelf.new) }
    ensures files_kept { H.files shelf.new ≡ H.files shelf.old }
{
    let name = Text::copy(alloc, text_of(wanted))?;
    match read_file(alloc, shelf, program.files(), wanted) {
        Ok(file) => add(alloc, program, name, file),
        Err(FileStop::Missing) => Err(LoadStop::At(missing(alloc, program)?)),
        Err(FileStop::Long) => Err(LoadStop::At(Refusal::Long(name))),
        Err(FileStop::At(fault)) => Err(LoadStop::At(Refusal::Faulty { file: name, fault })),
        Err(FileStop::Shelf) => Err(LoadStop::Shelf(name)),
        Err(FileStop::Memory) => Err(LoadStop::Memory),
    }
}
