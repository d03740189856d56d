//! What is answered of the run in a file.

ghost use Rattle.std.specs.Prelude.{◌≡◌, IfOk};
ghost use Rattle.command_replies.specs.Replies.{done};
ghost use Rattle.command_replies.specs.Shelves.{AnswersOrFails, CountsOnce};
ghost use Rattle.run_texts.specs.composition.SeenScenes.{seen_scene};
ghost use Rattle.outside_io.specs.Files.{SomeFiles};
ghost use Rattle.run_answers.specs.Checks.{Checks, verdict};
ghost use Rattle.run_answers.specs.Exports.{Exports, export_verdict};
ghost use Rattle.run_answers.specs.Migrations.{Migrates};
ghost use Rattle.instance_check.specs.run_check.Answers.{first_wrong};
ghost use Rattle.instance_check.specs.run_check.RunText.{run_text};
ghost use Rattle.instance_check.specs.run_values.Frames.{IsCheckable};

use crate::found::FoundRun;
use crate::run_files::load_run;
use crate::verdicts::{no_line, verdict};
use command_replies::{Reply, done};
use instance_check::{Scene, Wrong, write_run};
use name_scope::Program;
use outside_io::Shelf;
use run_exports::{Style, run_in_form};
use run_texts::Run;
use std::alloc::{AllocError, Global};

/// What `check` replies about a scene of the program, and the file of a run.
pub fn check<H: Shelf>(
    alloc: Global,
    program: &Program,
    scene: &Scene,
    file: &str,
    shelf: &mut H,
) -> Result<Reply, AllocError>
    requires { IsCheckable (seen_scene scene.now) }
    ensures reply { IfOk result (λ reply. SomeFiles (H.files shelf.old) (λ texts.
        AnswersOrFails (Checks texts file.now program.now (seen_scene scene.now)) file.now (H.faults shelf.old) (H.faults shelf.new) reply)) }
    ensures counted { CountsOnce (H.faults shelf.old) (H.faults shelf.new) }
    ensures files_kept { H.files shelf.new ≡ H.files shelf.old }
{
    match load_run(alloc, file, shelf)? {
        FoundRun::Run(run) => check_run(alloc, program, scene, &run),
        FoundRun::Refused(reply) => Ok(reply),
    }
}

/// What `export` replies about a scene of the program, and the file of a run.
pub fn export<H: Shelf>(
    alloc: Global,
    program: &Program,
    scene: &Scene,
    file: &str,
    style: Style<'_>,
    shelf: &mut H,
) -> Result<Reply, AllocError>
    requires { IsCheckable (seen_scene scene.now) }
    ensures reply { IfOk result (λ reply. SomeFiles (H.files shelf.old) (λ texts.
        AnswersOrFails (Exports style.entry.form style.entry.road style.entry.left.now texts file.now program.now (seen_scene scene.now)) file.now (H.faults shelf.old) (H.faults shelf.new) reply)) }
    ensures counted { CountsOnce (H.faults shelf.old) (H.faults shelf.new) }
    ensures files_kept { H.files shelf.new ≡ H.files shelf.old }
{
    match load_run(alloc, file, shelf)? {
        FoundRun::Run(run) => export_run(alloc, program, scene, &run, style),
        FoundRun::Refused(reply) => Ok(reply),
    }
}

/// What `migrate` replies to the file of a run.
pub fn migrate<H: Shelf>(alloc: Global, file: &str, shelf: &mut H) -> Result<Reply, AllocError>
    ensures reply { IfOk result (λ reply. SomeFiles (H.files shelf.old) (λ texts.
        AnswersOrFails (Migrates texts file.now) file.now (H.faults shelf.old) (H.faults shelf.new) reply)) }
    ensures counted { CountsOnce (H.faults shelf.old) (H.faults shelf.new) }
    ensures files_kept { H.files shelf.new ≡ H.files shelf.old }
{
    match load_run(alloc, file, shelf)? {
        FoundRun::Run(run) => written(alloc, &run),
        FoundRun::Refused(reply) => Ok(reply),
    }
}

/// Whether the run is an instance of the scene.
fn check_run(
    alloc: Global,
    program: &Program,
    scene: &Scene,
    run: &Run,
) -> Result<Reply, AllocError>
    requires { IsCheckable (seen_scene scene.now) }
    ensures { IfOk result (λ reply. reply ≡ verdict program.now (first_wrong (seen_scene scene.now) run.now)) }
{
    let wrong = instance_check::check(alloc, scene, run)?;
    verdict(alloc, program, wrong)
}

/// The run in a form if it is an instance of the scene; else what is wrong with it.
fn export_run(
    alloc: Global,
    program: &Program,
    scene: &Scene,
    run: &Run,
    style: Style<'_>,
) -> Result<Reply, AllocError>
    requires { IsCheckable (seen_scene scene.now) }
    ensures { IfOk result (λ reply. reply ≡ export_verdict style.entry.form style.entry.road style.entry.left.now program.now run.now (first_wrong (seen_scene scene.now) run.now)) }
{
    let wrong = instance_check::check(alloc, scene, run)?;
    exported(alloc, program, run, style, wrong)
}

/// The run in a form if nothing is wrong with it; else the `no` line.
fn exported(
    alloc: Global,
    program: &Program,
    run: &Run,
    style: Style<'_>,
    wrong: Option<Wrong>,
) -> Result<Reply, AllocError>
    ensures { IfOk result (λ reply. reply ≡ export_verdict style.entry.form style.entry.road style.entry.left.now program.now run.now wrong) }
{
    match wrong {
        Some(wrong) => no_line(alloc, program, &wrong),
        None => Ok(done(run_in_form(alloc, run, style)?)),
    }
}

/// The text of the run.
fn written(alloc: Global, run: &Run) -> Result<Reply, AllocError>
    ensures { IfOk result (λ reply. reply ≡ done (run_text run.now)) }
{
    let text = write_run(alloc, run)?;
    Ok(done(text))
}
