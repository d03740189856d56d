//! The library among the files of a program.

ghost use Rattle.std.specs.Prelude.{◌≡◌, None};
ghost use Rattle.type_members.specs.name_scope.Declaring.{first_place};
ghost use Rattle.type_members.specs.name_scope.FileNumbers.{is_library as is_library_name, numbered_names, wanted_name};

use type_heads::Program;

/// The number of the library's file, if it is one of the program's.
pub(crate) fn library_of(program: &Program) -> Option<u32>
    requires whole { wanted_name program.now ≡ None }
    ensures { result ≡ first_place is_library_name 0 (numbered_names program.now) }
{
    for number in 0..program.files() {
        if program.is_library(number) {
            return Some(number);
        }
    }
    None
}
