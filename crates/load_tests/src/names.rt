ghost use Rattle.std.specs.Prelude.{◌≡◌, option_map, IfOk};
ghost use Rattle.dsl_tree.specs.Language.{FollowsGrammar};
ghost use Rattle.dsl_tree.specs.Views.{file_tree};
ghost use Rattle.name_scope.specs.FileNumbers.{name_text, wanted_name};

use dsl_tree::{CompoundDecl, CompoundKind, Declaration, File, Ident, Import, QName};
use name_scope::{AddStop, DeclId, NameKind, Program, Wanted, library_text};
use osc_base::{Fault, FaultCode, Place, Row, Text};
use std::alloc::{AllocError, Global};
use std::test::Fail;

fn place(file: u32, line: u32, column: u32, token: u32) -> Place {
    Place {
        file,
        line,
        column,
        token,
    }
}

fn ident(alloc: Global, place: Place, text: &str) -> Result<Ident, AllocError>
    ensures { IfOk result (λ i. i ≡ record { place = place; text = text.now }) }
{
    let text = Text::copy(alloc, text)?;
    Ok(Ident { place, text })
}

/// `import "IMPORT"`, and `scenario top` in the second line.
fn linked(alloc: Global, file: u32, import: &str) -> Result<File, AllocError>
    ensures { IfOk result (λ f. FollowsGrammar (file_tree f)) }
{
    let mut imports = Row::new(alloc);
    imports.push(Import::Named {
        place: place(file, 1, 8, 1),
        name: Text::copy(alloc, import)?,
    })?;
    let name = QName {
        first: ident(alloc, place(file, 2, 10, 4), "top")?,
        second: None,
    };
    let mut decls = Row::new(alloc);
    decls.push(Declaration::Compound(CompoundDecl {
        place: place(file, 2, 1, 3),
        kind: CompoundKind::Scenario,
        name,
        heir: None,
        members: Row::new(alloc),
    }))?;
    Ok(File {
        imports,
        modifiers: Row::new(alloc),
        decls,
        end: place(file, 3, 1, 6),
    })
}

/// `import osc.standard` alone.
fn with_library(alloc: Global) -> Result<File, AllocError>
    ensures { IfOk result (λ f. FollowsGrammar (file_tree f)) }
{
    let mut names = Row::new(alloc);
    names.push(ident(alloc, place(0, 1, 8, 1), "osc")?)?;
    names.push(ident(alloc, place(0, 1, 12, 3), "standard")?)?;
    let mut imports = Row::new(alloc);
    imports.push(Import::Dotted { names })?;
    Ok(File {
        imports,
        modifiers: Row::new(alloc),
        decls: Row::new(alloc),
        end: place(0, 2, 1, 5),
    })
}

/// The name of the file that is wanted.
fn wanted_text(alloc: Global, program: &Program) -> Result<Option<Text>, AllocError>
    ensures { IfOk result (λ t. t ≡ option_map name_text (wanted_name program.now)) }
{
    match program.wanted() {
        None => Ok(None),
        Some(Wanted::Library) => Ok(Some(Text::copy(alloc, "osc")?)),
        Some(Wanted::Named(name)) => Ok(Some(Text::copy(alloc, name)?)),
    }
}

fn added(outcome: Result<(), AddStop>) -> Result<(), &'static str> {
    match outcome {
        Ok(()) => Ok(()),
        Err(AddStop::At(_)) => Err("an import has a fault"),
        Err(AddStop::Memory) => Err("memory is missing"),
    }
}

#[test]
fn files_that_import_each_other(rt: HostRuntime) -> Result<(), Fail> {
    let alloc = rt.alloc();
    let mut program = Program::new(alloc);
    assert_eq!(rt; program.wanted_place(), None);
    added(program.add_file(Text::copy(alloc, "a.osc")?, linked(alloc, 0, "b.osc")?))?;
    assert_eq!(rt; program.wanted_place(), Some(place(0, 1, 8, 1)));
    assert_eq!(rt; program.name_faults(alloc)?, None);
    let Some(name) = wanted_text(alloc, &program)? else {
        return Err("no file is wanted".into());
    };
    assert_eq!(rt; name.as_str(), "b.osc");
    added(program.add_file(name, linked(alloc, 1, "a.osc")?))?;
    assert!(rt; program.wanted().is_none());
    assert_eq!(rt; program.files(), 2);
    assert!(rt; program.file(1).is_some());
    assert!(rt; program.file(2).is_none());
    assert_eq!(rt; program.name(1).unwrap_or(""), "b.osc");
    let top = program.find(NameKind::BehaviourName, None, "top");
    assert_eq!(rt; top, Some(DeclId { file: 0, index: 0 }));
    assert_eq!(rt;
        program.find(NameKind::BehaviourName, Some("top"), "top"),
        None
    );
    let twice = Fault {
        place: place(1, 2, 10, 4),
        code: FaultCode::Twice,
    };
    assert_eq!(rt; program.name_faults(alloc)?, Some(twice));
    Ok(())
}

#[test]
fn the_library_is_wanted(rt: HostRuntime) -> Result<(), Fail> {
    let alloc = rt.alloc();
    let mut program = Program::new(alloc);
    added(program.add_file(Text::copy(alloc, "osc")?, with_library(alloc)?))?;
    assert!(rt; matches!(program.wanted(), Some(Wanted::Library)));
    assert_eq!(rt; program.wanted_place(), Some(place(0, 1, 8, 1)));
    assert_eq!(rt; library_text().lines().count(), 18);
    Ok(())
}
