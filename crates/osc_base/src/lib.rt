//! What every layer of `osc` speaks of: texts, rows, boxes, places, faults, paths and samples, marks
//! and modifiers, and what the slots and rules of a flat form are called.
//!
//! `Text`, `Row` and `Boxed` are a `String`, a `Vec` and a `Box` that contracts see as what they
//! hold, so that trees of them are plain data and a contract can say that two of them are equal.
#![tactic(auto)]

mod boxed;
mod euclid;
mod fault;
mod fraction;
mod listing;
mod mark;
mod modifier;
mod path;
mod path_read;
mod relation;
mod row;
mod sample;
mod stop;
mod text;

pub use boxed::Boxed;
pub use euclid::{gcd, least_common_multiple};
pub use fault::{Fault, FaultCode, Place};
pub use fraction::Fraction;
pub use listing::{RuleName, SlotName};
pub use mark::{Mark, Strength};
pub use modifier::{Kind, Moment};
pub use path::{Path, Step};
pub use relation::{Quantity, Rate, Reading, Relation, Side};
pub use row::Row;
pub use sample::{Sample, SampleSlots};
pub use stop::Stop;
pub use text::Text;
