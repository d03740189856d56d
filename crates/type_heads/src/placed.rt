//! All declarations of a program, in load order.

ghost use Rattle.std.specs.Prelude.{◌≡◌, ◌+◌, ◌<◌, ◌^◌, ◌++◌, length, map, IfOk, OnOk};
ghost use Rattle.name_scope.specs.dsl_tree.Views.{declaration_tree};
ghost use Rattle.type_heads.specs.DeclaredTypes.{placed, placed_in, program_of};
ghost use Rattle.type_heads.specs.Placing.{placed_after, seen_placed};

use name_scope::Program;
use name_scope::dsl_tree::Declaration;
use std::alloc::{AllocError, Global};

/// A declaration, the number of its file, and its number there.
#[derive(Clone, Copy)]
pub struct PlacedDecl<'a> {
    pub file: u32,
    pub index: u32,
    pub declaration: &'a Declaration,
}

/// All declarations of a program.
pub fn placed_decls(alloc: Global, program: &Program) -> Result<Vec<PlacedDecl<'_>>, AllocError>
    ensures { IfOk result (λ all. map seen_placed all.items ≡ placed (program_of program.now)) }
{
    let mut all = Vec::new(alloc);
    for number in 0..program.files() {
        push_file(&mut all, program, number)?;
    }
    Ok(all)
}

/// Puts the declarations of the file of that number at the end.
fn push_file<'a>(
    all: &mut Vec<PlacedDecl<'a>>,
    program: &'a Program,
    number: u32,
) -> Result<(), AllocError>
    ensures { OnOk result (map seen_placed all.new.items ++ placed_after (number + 1) program.now ≡ map seen_placed all.old.items ++ placed_after number program.now) }
{
    match program.file(number) {
        Some(file) => push_decls(all, number, file.decls.as_slice()),
        None => Ok(()),
    }
}

/// Puts the declarations of a file at the end.
fn push_decls<'a>(
    all: &mut Vec<PlacedDecl<'a>>,
    file: u32,
    decls: &'a [Declaration],
) -> Result<(), AllocError>
    requires { length decls.now < 2 ^ 32 }
    ensures { OnOk result (map seen_placed all.new.items ≡ map seen_placed all.old.items ++ placed_in file 0 (map declaration_tree decls.now)) }
{
    let mut index: u32 = 0;
    for declaration in decls {
        all.push(PlacedDecl {
            file,
            index,
            declaration,
        })?;
        index += 1;
    }
    Ok(())
}
