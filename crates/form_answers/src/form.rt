ghost use Rattle.std.specs.Prelude.{IfOk};
ghost use Rattle.run_answers.specs.composition.SeenScenes.{seen_scene};
ghost use Rattle.run_answers.specs.field_flatten.Exactness.{IsExpanded};
ghost use Rattle.form_answers.specs.Lists.{Lists};

use flat_listing::listing;
use name_scope::Program;
use run_answers::{Reply, Scene, done};
use scene_search::{bounds, rule_names, slot_names};
use std::alloc::{AllocError, Global};

/// Lists the flat form of a scene of a program: each slot with its ends, and each rule by its name. No rule is made. Out of
/// memory is the only error.
pub fn flat(alloc: Global, program: &Program, scene: &Scene) -> Result<Reply, AllocError>
    requires { IsExpanded (seen_scene scene.now) }
    ensures { IfOk result (Lists program.now (seen_scene scene.now)) }
{
    let slots = slot_names(alloc, scene)?;
    let ends = bounds(alloc, scene)?;
    let rules = rule_names(alloc, scene)?;
    let text = listing(
        alloc,
        program,
        slots.as_slice(),
        ends.pairs.as_slice(),
        rules.as_slice(),
    )?;
    Ok(done(text))
}
