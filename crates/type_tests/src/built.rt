pub use member_tests::PARTS;
use member_tests::loaded;
use name_scope::Program;
use std::alloc::{AllocError, Global};
use type_build::build_types;
use type_model::Types;

/// The types of a program, if it has no fault.
fn types_of(alloc: Global, program: &Program) -> Result<Option<Types>, AllocError> {
    match build_types(alloc, program) {
        Ok(types) => Ok(Some(types)),
        Err(_) => Ok(None),
    }
}

/// The types of the program of one file, if it has no fault.
pub fn built(alloc: Global, source: &str) -> Result<Option<Types>, AllocError> {
    match loaded(alloc, source)? {
        Some(program) => types_of(alloc, &program),
        None => Ok(None),
    }
}
