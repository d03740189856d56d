//! What the words after the program's name ask for, and the texts that help with them.
#![tactic(auto)]

mod commands;
mod explain;
mod parse;
mod requests;
mod shared;
mod texts;

pub use requests::{
    CheckWords, ExportForm, ExportWords, FlatWords, GenerateWords, MakeWords, MigrateWords,
    Request, Setting, Source, VerifyWords, read_words,
};
pub use texts::{
    check_help, export_help, flat_help, general_help, generate_help, make_help, migrate_help,
    verify_help, version_text,
};
