//! What is answered about a run that was checked.

ghost use Rattle.std.specs.Prelude.{◌≡◌, IfOk};
ghost use Rattle.run_answers.specs.Checks.{verdict};
ghost use Rattle.run_answers.specs.Verdicts.{clause_word, place_text};

use command_replies::{Reply, done, not_instance};
use instance_check::{Clause, Wrong};
use name_scope::Program;
use osc_base::{Place, Text};
use std::alloc::{AllocError, Global};

/// The reply `yes` if nothing is wrong; else the `no` line of what is wrong with a run of a scenario of
/// the program.
pub fn verdict(alloc: Global, program: &Program, wrong: Option<Wrong>) -> Result<Reply, AllocError>
    ensures { IfOk result (λ reply. reply ≡ verdict program.now wrong) }
{
    match wrong {
        Some(wrong) => no_line(alloc, program, &wrong),
        None => Ok(done(Text::copy(alloc, "yes\n")?)),
    }
}

/// The `no` line of what is wrong.
pub fn no_line(alloc: Global, program: &Program, wrong: &Wrong) -> Result<Reply, AllocError>
    ensures { IfOk result (λ reply. reply ≡ verdict program.now (Some wrong.now)) }
{
    let path = wrong.path.text(alloc)?;
    let place = place_text(alloc, program, wrong.place)?;
    not_instance(
        alloc,
        clause_word(wrong.clause),
        path.as_str(),
        place.as_str(),
    )
}

/// The word of a clause.
fn clause_word(clause: Clause) -> &'static str
    ensures { result.now ≡ clause_word clause }
{
    match clause {
        Clause::Listed => "listed",
        Clause::End => "end",
        Clause::Bounds => "bounds",
        Clause::Hard => "hard",
        Clause::Default => "default",
        Clause::Arranged => "arranged",
        Clause::Modifier => "modifier",
        Clause::Motion => "motion",
    }
}

/// A space and `FILE:LINE:COLUMN`, or nothing if there is no place.
fn place_text(alloc: Global, program: &Program, place: Option<Place>) -> Result<Text, AllocError>
    ensures { IfOk result (λ text. text ≡ place_text program.now place) }
{
    match place {
        Some(place) => text_of_place(alloc, program, place),
        None => Text::copy(alloc, ""),
    }
}

/// A space and `FILE:LINE:COLUMN`.
fn text_of_place(alloc: Global, program: &Program, place: Place) -> Result<Text, AllocError>
    ensures { IfOk result (λ text. text ≡ place_text program.now (Some place)) }
{
    let file = program.name(place.file).unwrap_or("");
    let (line, column) = (place.line, place.column);
    Ok(Text::of(format!(in alloc; " {file}:{line}:{column}")?))
}
