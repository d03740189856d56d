//! The forms in which a run leaves the tool.

ghost use Rattle.std.specs.Prelude.{◌≡◌, IfOk};
ghost use Rattle.run_exports.specs.FormText.{form_text};

use crate::browser::page;
use crate::lanes::xodr;
use crate::road::Road;
use crate::storyboard::xosc;
use crate::table::csv;
use osc_base::Text;
use run_check::Run;
use std::alloc::{AllocError, Global};

/// A form in which a run leaves the tool.
#[derive(Clone, Copy)]
pub enum Form {
    /// A table of comma separated values.
    Csv,
    /// A file in ASAM OpenSCENARIO XML 1.1.
    Xosc,
    /// The road, as a file in ASAM OpenDRIVE 1.6.
    Xodr,
    /// A page for a browser.
    Html,
}

/// The form in which a run is written, and what that takes besides the run.
#[derive(Clone, Copy)]
pub struct Style<'a> {
    pub form: Form,
    pub road: Road,
    /// The path of the vehicle that is left to a simulation; empty if there is none.
    pub left: &'a str,
}

/// A run in such a form. Out of memory is the only error.
pub fn run_in_form(alloc: Global, run: &Run, style: Style<'_>) -> Result<Text, AllocError>
    ensures { IfOk result (λ text. text ≡ form_text style.entry.form style.entry.road style.entry.left.now run.now) }
{
    match style.form {
        Form::Csv => csv(alloc, run),
        Form::Xosc => xosc(alloc, run, style.road, style.left),
        Form::Xodr => xodr(alloc, style.road),
        Form::Html => page(alloc, run),
    }
}
