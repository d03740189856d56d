//! Tests of what is read from outside: shelves and sinks, texts, words, and tokens.
#![tactic(auto)]

#[cfg(test)]
mod io;
#[cfg(test)]
mod texts;
#[cfg(test)]
mod tokens;
#[cfg(test)]
mod words;
