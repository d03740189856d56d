//! Arguments by their names.

ghost use Rattle.std.specs.Prelude.{◌≡◌, map, option_map};
ghost use Rattle.composition.specs.Expansion as expansions;
ghost use Rattle.dsl_tree.specs.Views.{argument_tree};
ghost use Rattle.program_calls.specs.SeenModifiers.{seen_value};
ghost use Rattle.program_calls.specs.Named.{has_name};

use dsl_tree::{Argument, Expr};

/// Whether an argument has the name.
fn is_named(argument: &Argument, name: &str) -> bool
    ensures { result ≡ has_name name.now (argument_tree argument.now) }
{
    match &argument.name {
        Some(own) => own.text.as_str() == name,
        None => false,
    }
}

/// The value of the first argument of that name.
pub fn argument_named<'a>(arguments: &'a [Argument], name: &str) -> Option<&'a Expr>
    ensures { option_map seen_value result ≡ expansions.argument_named name.now (map argument_tree arguments.entry.now) }
{
    for argument in arguments {
        if is_named(argument, name) {
            return Some(&argument.value);
        }
    }
    None
}
