//! The works in a work.

ghost use Rattle.std.specs.Prelude.{◌≡◌, ◌++◌, ◌∷◌, [], map, IfOk, OnOk};
ghost use Rattle.scene_expansion.specs.composition.SeenParts.{seen_binding};
ghost use Rattle.scene_expansion.specs.expansion_laws.Works as works;
ghost use Rattle.scene_expansion.specs.expansion_laws.Works.{actor_works, parts_of, root_works};
ghost use Rattle.scene_expansion.specs.expansion_laws.WorkNodes.{node_of, root_node};
ghost use Rattle.osc_base.specs.Paths as paths;
ghost use Rattle.scene_expansion.specs.SeenWorks.{seen_call, seen_work};
ghost use Rattle.program_texts.specs.SeenTexts.{types_in};

use crate::calls::push_dos;
use crate::copies::{copy_bindings, copy_guards};
use crate::fields::push_fields;
use crate::within::Within;
use osc_base::{Path, Row};
use program_texts::{ProgramTexts, TypeId, then_name};
use scene_expansion::{Binding, Call, PathIndex, Work};
use std::alloc::{AllocError, Global};

/// Puts what an object holds beside an actor of its own at the end.
fn push_parts<'p>(
    alloc: Global,
    texts: &ProgramTexts<'p>,
    into: &mut Vec<Work<'p>>,
    within: &Within<'_>,
) -> Result<(), AllocError>
    ensures { OnOk result (map seen_work into.new.items ≡ map seen_work into.old.items ++ works.object_works within.now.steps (types_in texts.now) within.now.object.now within.now.of within.now.guards.now (map seen_binding within.now.bindings.now)) }
{
    push_fields(alloc, texts, into, within)?;
    push_dos(alloc, texts, into, within)
}

/// What an object holds with one step fewer.
fn object_parts<'p>(
    alloc: Global,
    texts: &ProgramTexts<'p>,
    within: &Within<'_>,
) -> Result<Vec<Work<'p>>, AllocError>
    ensures { IfOk result (λ ws. map seen_work ws.items ≡ parts_of (types_in texts.now) (works.Work.Object within.now.steps within.now.object.now within.now.of within.now.guards.now (map seen_binding within.now.bindings.now))) }
{
    let mut into = Vec::new(alloc);
    if within.steps == 0 {
        return Ok(into);
    }
    let inner = Within {
        steps: within.steps - 1,
        object: within.object,
        of: within.of,
        guards: within.guards,
        bindings: within.bindings,
        bound: within.bound,
    };
    push_parts(alloc, texts, &mut into, &inner)?;
    Ok(into)
}

/// The object that an invocation makes.
fn invoked_object<'p>(
    alloc: Global,
    steps: u32,
    call: &Call,
    of: TypeId,
    bindings: &[Binding],
) -> Result<Vec<Work<'p>>, AllocError>
    ensures { IfOk result (λ ws. map seen_work ws.items ≡ works.Work.Object steps call.now.path of call.now.guards (map seen_binding bindings.now) ∷ []) }
{
    let mut into = Vec::new(alloc);
    let guards = copy_guards(alloc, call.guards.as_slice())?;
    let bindings = copy_bindings(alloc, bindings)?;
    into.push(Work::Object {
        steps,
        path: call.path.copy(alloc)?,
        of,
        guards,
        bindings,
    })?;
    Ok(into)
}

/// The works in a work, in order.
pub fn parts<'p>(
    alloc: Global,
    texts: &ProgramTexts<'p>,
    work: &Work<'p>,
) -> Result<Vec<Work<'p>>, AllocError>
    ensures { IfOk result (λ ws. map seen_work ws.items ≡ parts_of (types_in texts.now) (seen_work work.now)) }
{
    match work {
        Work::Object {
            steps,
            path,
            of,
            guards,
            bindings,
        } => {
            let bindings = bindings.as_slice();
            let bound = PathIndex::of(alloc, bindings)?;
            let within = Within {
                steps: *steps,
                object: path,
                of: *of,
                guards: guards.as_slice(),
                bindings,
                bound: &bound,
            };
            object_parts(alloc, texts, &within)
        }
        Work::Invoke {
            steps,
            call,
            of,
            bindings,
            ..
        } => invoked_object(alloc, *steps, call, *of, bindings.as_slice()),
        Work::Value { .. } | Work::Comp { .. } | Work::Wait { .. } => Ok(Vec::new(alloc)),
    }
}

/// The path of the named scenario.
fn root_path(alloc: Global) -> Path
    ensures { result ≡ paths.root }
{
    Path {
        steps: Row::new(alloc),
    }
}

/// The named scenario as a work, but for its parts.
pub fn root<'p>(alloc: Global, texts: &ProgramTexts<'p>, of: TypeId) -> Result<Work<'p>, AllocError>
    ensures { IfOk result (λ w. node_of (types_in texts.now) (seen_work w) ≡ root_node (types_in texts.now) of) }
{
    Ok(Work::Object {
        steps: texts.types().count(),
        path: root_path(alloc),
        of,
        guards: Row::new(alloc),
        bindings: Row::new(alloc),
    })
}

/// Puts the actor that an owned scenario has by itself at the end.
fn push_actor<'p>(
    alloc: Global,
    texts: &ProgramTexts<'p>,
    into: &mut Vec<Work<'p>>,
    of: TypeId,
) -> Result<(), AllocError>
    ensures { OnOk result (map seen_work into.new.items ≡ map seen_work into.old.items ++ actor_works (types_in texts.now) of) }
{
    let Some(owner) = texts.types().owner(of) else {
        return Ok(());
    };
    into.push(Work::Object {
        steps: texts.types().count(),
        path: then_name(alloc, &root_path(alloc), "actor")?,
        of: owner,
        guards: Row::new(alloc),
        bindings: Row::new(alloc),
    })?;
    Ok(())
}

/// The works in the named scenario, with an actor of its own if it is owned.
pub fn root_parts<'p>(
    alloc: Global,
    texts: &ProgramTexts<'p>,
    of: TypeId,
) -> Result<Vec<Work<'p>>, AllocError>
    ensures { IfOk result (λ ws. map seen_work ws.items ≡ root_works (types_in texts.now) of) }
{
    let mut into = Vec::new(alloc);
    let steps = texts.types().count();
    if steps == 0 {
        return Ok(into);
    }
    push_actor(alloc, texts, &mut into, of)?;
    push_root(alloc, texts, &mut into, steps - 1, of)?;
    Ok(into)
}

/// Puts what the named scenario holds beside its own actor at the end.
fn push_root<'p>(
    alloc: Global,
    texts: &ProgramTexts<'p>,
    into: &mut Vec<Work<'p>>,
    steps: u32,
    of: TypeId,
) -> Result<(), AllocError>
    ensures { OnOk result (map seen_work into.new.items ≡ map seen_work into.old.items ++ works.object_works steps (types_in texts.now) paths.root of [] []) }
{
    let path = root_path(alloc);
    let bindings: &[Binding] = &[];
    let bound = PathIndex::of(alloc, bindings)?;
    let within = Within {
        steps,
        object: &path,
        of,
        guards: &[],
        bindings,
        bound: &bound,
    };
    push_parts(alloc, texts, into, &within)
}
