//! The first fault of the members of types.
#![tactic(auto)]

mod conditions;
mod declared;
mod depends;
mod depends_on;
mod dos;
mod fields;
mod initial;
mod labels;
mod members;
mod name_places;
mod names;
mod near_depended;
mod row_facts;

pub use members::first_member_fault;
