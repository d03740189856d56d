use crate::arguments::argument_help;
use crate::kinds::kind_help;
use crate::program_names::Declared;
use dsl_tree::QName;
use mistake_cases::{Help, View, case_help};
use std::alloc::{AllocError, Global};

/// What is said of a fault, where the program declares these names, and this is the type around the place. `None` if no case
/// is known that the fault is one of.
pub fn mistake_help<'a>(
    alloc: Global,
    view: &View<'a>,
    names: &[Declared<'a>],
    around: Option<&'a QName>,
) -> Result<Option<Help>, AllocError> {
    match typed_help(alloc, view, names, around)? {
        Some(help) => Ok(Some(help)),
        None => case_help(alloc, view),
    }
}

/// What is said of arguments and of units.
fn typed_help<'a>(
    alloc: Global,
    view: &View<'a>,
    names: &[Declared<'a>],
    around: Option<&'a QName>,
) -> Result<Option<Help>, AllocError> {
    match kind_help(alloc, view, names, around)? {
        Some(help) => Ok(Some(help)),
        None => argument_help(alloc, view),
    }
}
