use flat_forms::Run;
use seeded_search::Record;

/// What a search for a run of a scene finds.
#[derive(Drop)]
pub enum Finding {
    /// An instance of the scene.
    Run(Run),
    /// A refutation: the scene has no instance.
    Refutation(Record),
    /// The record of a search that made all its cuts before it found one or the other.
    Undecided(Record),
}
