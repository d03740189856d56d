//! The declaration of a scenario.

ghost use Rattle.std.specs.Prelude.{◌≡◌, option_copied};
ghost use Rattle.std.specs.List.{slice_get};
ghost use Rattle.std.specs.Option.{option_map};
ghost use Rattle.dsl_tree.specs.Views.{compound_tree, declaration_tree, file_tree};
ghost use Rattle.named_scenario.specs.Declarations.{as_scenario, declaration_at, scenario_declared};

use dsl_tree::{CompoundDecl, CompoundKind, Declaration, File};
use name_scope::{DeclId, NameKind, Program};

/// The first action or scenario of that owner and name, if it is a scenario.
pub fn declared_scenario<'a>(
    program: &'a Program,
    owner: Option<&str>,
    name: &str,
) -> Option<&'a CompoundDecl>
    ensures { option_map (λ c. compound_tree c.now) result ≡ scenario_declared program.now (option_copied owner.entry) name.now }
{
    let id = program.find(NameKind::BehaviourName, owner, name)?;
    as_scenario(declaration_at(program, id)?)
}

fn declaration_at(program: &Program, id: DeclId) -> Option<&Declaration>
    ensures { option_map (λ d. declaration_tree d.now) result ≡ declaration_at program.now id }
{
    declaration_in(program.file(id.file)?, id.index)
}

fn declaration_in(file: &File, index: u32) -> Option<&Declaration>
    ensures { option_map (λ d. declaration_tree d.now) result
        ≡ slice_get (file_tree file.now).decls index }
{
    file.decls.as_slice().get(index as usize)
}

fn as_scenario(declaration: &Declaration) -> Option<&CompoundDecl>
    ensures { option_map (λ c. compound_tree c.now) result ≡ as_scenario (declaration_tree declaration.now) }
{
    match declaration {
        Declaration::Compound(compound) if compound.kind == CompoundKind::Scenario => Some(
            compound,
        ),
        _ => None,
    }
}
