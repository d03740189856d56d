use command_replies::Reply;
use program_scenes::Scene;

/// What is found for the word of a scenario.
#[derive(Drop)]
pub enum FoundScene {
    /// The program isn't refused, and this is the scenario's scene.
    Scene(Scene),
    /// The program is refused, with this reply.
    Refused(Reply),
}
