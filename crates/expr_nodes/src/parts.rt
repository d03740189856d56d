//! Parts of an expression that may have a fault.

use crate::Typed;
use type_model::{Boxed, Fault};

/// What is known of a part: its first fault, and its typed form, unless it has a fault.
#[derive(Drop)]
pub struct Checked {
    pub fault: Option<Fault>,
    pub typed: Option<Boxed<Typed>>,
}
