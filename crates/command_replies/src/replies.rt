ghost use Rattle.std.specs.Prelude.{◌≡◌, IfOk};
ghost use Rattle.command_replies.specs.Replies.{done, failed_shelf, fault_of, long_file, missing_file, no_line, not_instance, open_cuts, refused_source, text_refused, words_refused};

use crate::reply::Reply;
use crate::status::Status;
use osc_base::{Fault, Text};
use program_load::Refusal;
use std::alloc::{AllocError, Global};

/// What was asked for.
pub fn done(text: Text) -> Reply
    ensures { result ≡ done text }
{
    Reply::of(Status::Done, text)
}

/// The words ask for nothing that is known.
pub fn words_refused(alloc: Global) -> Result<Reply, AllocError>
    ensures { IfOk result (λ reply. reply ≡ words_refused) }
{
    Ok(Reply::of(Status::WordsRefused, Text::copy(alloc, "words\n")?))
}

/// The source has this fault, in the file of this name.
pub fn fault(alloc: Global, file: &str, fault: Fault) -> Result<Reply, AllocError>
    ensures { IfOk result (λ reply. reply ≡ fault_of file.now fault) }
{
    let (code, line, column) = (fault.code.number(), fault.place.line, fault.place.column);
    Ok(Reply::of(
        Status::SourceRefused,
        Text::of(format!(in alloc; "fault {code} {file}:{line}:{column}\n")?),
    ))
}

/// The run is no instance: the word of the clause that fails, the path at which it fails, and a space and
/// a place of the source, or nothing.
pub fn not_instance(
    alloc: Global,
    clause: &str,
    path: &str,
    place: &str,
) -> Result<Reply, AllocError>
    ensures { IfOk result (λ reply. reply ≡ not_instance clause.now path.now place.now) }
{
    Ok(Reply::of(
        Status::Refuted,
        Text::of(format!(in alloc; "no {clause} {path}{place}\n")?),
    ))
}

/// The first line of a record that isn't accepted, counted from 1.
pub fn no_line(alloc: Global, line: u64) -> Result<Reply, AllocError>
    ensures { IfOk result (λ reply. reply ≡ no_line line) }
{
    let text = Text::of(format!(in alloc; "no {line}\n")?);
    Ok(Reply::of(Status::Refuted, text))
}

/// Every line of a record is accepted, and with so many cuts it leaves something open.
pub fn open_cuts(alloc: Global, cuts: u64) -> Result<Reply, AllocError>
    ensures { IfOk result (λ reply. reply ≡ open_cuts cuts) }
{
    let text = Text::of(format!(in alloc; "open {cuts}\n")?);
    Ok(Reply::of(Status::Undecided, text))
}

/// The text of a file isn't what it should be: it is no `json`, or differs at this JSON pointer.
pub fn text_refused(alloc: Global, what: &str) -> Result<Reply, AllocError>
    ensures { IfOk result (λ reply. reply ≡ text_refused what.now) }
{
    Ok(Reply::of(
        Status::TextRefused,
        Text::of(format!(in alloc; "text {what}\n")?),
    ))
}

/// There is no file of the name.
pub fn missing_file(alloc: Global, name: &str) -> Result<Reply, AllocError>
    ensures { IfOk result (λ reply. reply ≡ missing_file name.now) }
{
    Ok(Reply::of(
        Status::FileUnusable,
        Text::of(format!(in alloc; "missing {name}\n")?),
    ))
}

/// The file is longer than its limit.
pub fn long_file(alloc: Global, name: &str) -> Result<Reply, AllocError>
    ensures { IfOk result (λ reply. reply ≡ long_file name.now) }
{
    Ok(Reply::of(
        Status::FileUnusable,
        Text::of(format!(in alloc; "long {name}\n")?),
    ))
}

/// The shelf failed at the file.
pub fn failed_shelf(alloc: Global, name: &str) -> Result<Reply, AllocError>
    ensures { IfOk result (λ reply. reply ≡ failed_shelf name.now) }
{
    Ok(Reply::of(
        Status::FileUnusable,
        Text::of(format!(in alloc; "shelf {name}\n")?),
    ))
}

/// The source files of this main file are refused.
pub fn refused_source(alloc: Global, main: &str, refusal: &Refusal) -> Result<Reply, AllocError>
    ensures { IfOk result (λ reply. reply ≡ refused_source main.now refusal.now) }
{
    match refusal {
        Refusal::Missing => missing_file(alloc, main),
        Refusal::Long(name) => long_file(alloc, name.as_str()),
        Refusal::Faulty { file, fault: first } => fault(alloc, file.as_str(), *first),
    }
}
