//! Scenes and runs of a scenario: what may be there, what a run lists, and when it is an instance
//! of its scenario.
#![tactic(auto)]

mod asked;
mod clause;
mod guard;
mod homes;
mod lists;
mod part;
mod paths;
mod queries;
mod run;
mod scene;
mod setting;
mod sorts;
mod source;
mod spot;

pub use clause::Clause;
pub use cond_inherit::Condition;
pub use expr_nodes::Compare;
pub use guard::Guard;
pub use keep_rules::path_index::{HasPath, PathIndex};
pub use part::{Binding, Content, ModifierSpot, Occurrence, Spot};
pub use run::{Choice, Held, Run, Span, Trace, Value};
pub use scene::Scene;
pub use setting::Setting;
pub use source::Source;
pub use spot::{ChoiceSpot, PhaseKind, PhaseSpot, ValueRange, ValueSpot};
