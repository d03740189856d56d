use command_replies::Reply;
use run_texts::Run;

/// What is found in the file of a run.
#[derive(Drop)]
pub enum FoundRun {
    /// The run.
    Run(Run),
    /// There is no run, or the shelf failed: the reply.
    Refused(Reply),
}
