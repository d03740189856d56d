//! The types of the library.

ghost use Rattle.std.specs.Prelude.{◌≡◌, false};
ghost use Rattle.std.specs.Option.{option_map_or};
ghost use Rattle.composition.specs.type_heads.Table.{is_kind_of as kind_of};
ghost use Rattle.program_calls.specs.LibraryTypes.{is_library_drive, is_library_vehicle};

use expr_nodes::{TypeId, Types};

/// Whether a type is the one found or inherits from it.
fn is_kind_of_found(types: &Types, found: Option<TypeId>, of: TypeId) -> bool
    ensures { result ≡ option_map_or (λ b. kind_of types.now.table.heads b of) found false }
{
    match found {
        Some(base) => types.is_kind_of(base, of),
        None => false,
    }
}

/// Whether a type is the library's `vehicle` or inherits from it.
pub fn is_vehicle(types: &Types, has_library: bool, of: TypeId) -> bool
    ensures { result ≡ is_library_vehicle types.now.table.heads has_library of }
{
    has_library && is_kind_of_found(types, types.named(None, "vehicle"), of)
}

/// Whether a type is the library's `vehicle.drive` or inherits from it.
pub fn is_drive(types: &Types, has_library: bool, of: TypeId) -> bool
    ensures { result ≡ is_library_drive types.now.table.heads has_library of }
{
    has_library && is_kind_of_found(types, types.named(Some("vehicle"), "drive"), of)
}
