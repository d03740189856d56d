//! Tests of records: their text, how it is checked, where it stops being a record's, and the records that the search writes.
#![tactic(auto)]

#[cfg(test)]
mod accepted;
#[cfg(test)]
mod answers;
#[cfg(test)]
mod bad_lines;
#[cfg(test)]
mod faults;
#[cfg(test)]
mod refused;
#[cfg(test)]
mod rows;
#[cfg(test)]
mod searched;
#[cfg(test)]
mod short;
#[cfg(test)]
mod written;
