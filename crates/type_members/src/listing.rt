//! The members that come down from a type through its conditional subtypes.

ghost use Rattle.std.specs.Prelude.{◌≡◌, ◌++◌, [], ◌∷◌, flat_map, map, not, slice_index_or, IfOk, OnOk};
ghost use Rattle.type_heads.specs.Bodied.{seen_body, seen_written};
ghost use Rattle.type_heads.specs.Members.{body};
ghost use Rattle.type_members.specs.Listed.{seen_listed};
ghost use Rattle.type_members.specs.Listing.{Way, deeper as deeper_under, kept, listed_within, member_in, pending, task_members, way_of};

use crate::{ListedMember, Subtypes};
use std::alloc::{AllocError, Global};
use type_heads::{Body, Row, TypeId, WrittenMember};

/// What of a type is left to be listed: all that comes down from it, in at most so many steps through conditional
/// subtypes, or the members of its extensions.
#[derive(Clone, Copy)]
enum Stage {
    All(u32),
    Extensions,
}

/// A type that is left to be listed, and the conditional subtypes that its members are under.
#[derive(Drop)]
struct Task {
    of: TypeId,
    under: Row<TypeId>,
    stage: Stage,
}

/// What members that come down are listed by: the bodies, the conditional subtypes of each type, the type itself
/// and those that it inherits from, and the conditional subtypes that are skipped.
#[derive(Drop)]
pub struct Descent<'b, 'a> {
    pub bodies: &'b [Body<'a>],
    pub subtypes: &'b Subtypes,
    pub line: &'b [TypeId],
    pub skipped: &'b [TypeId],
}

/// Puts members at the end of a list.
fn push_members<'a>(
    alloc: Global,
    into: &mut Vec<ListedMember<'a>>,
    members: &[WrittenMember<'a>],
    holder: TypeId,
    under: &[TypeId],
) -> Result<(), AllocError>
    ensures { OnOk result (map seen_listed into.new.items ≡ map seen_listed into.old.items ++ map (member_in holder under.now) (map seen_written members.now)) }
{
    for written in members {
        let under = Row::of(Vec::from_slice(alloc, under)?);
        into.push(ListedMember {
            written: *written,
            holder,
            under,
        })?;
    }
    Ok(())
}

/// Puts the members of the declaration of a type at the end.
fn push_own<'a>(
    alloc: Global,
    into: &mut Vec<ListedMember<'a>>,
    bodies: &[Body<'a>],
    of: TypeId,
    under: &[TypeId],
) -> Result<(), AllocError>
    ensures { OnOk result (map seen_listed into.new.items ≡ map seen_listed into.old.items ++ map (member_in of under.now) (body (map seen_body bodies.now) of).own) }
{
    match bodies.get(of.0 as usize) {
        Some(body) => push_members(alloc, into, body.own.as_slice(), of, under),
        None => Ok(()),
    }
}

/// Puts the members of the extensions of a type at the end.
fn push_more<'a>(
    alloc: Global,
    into: &mut Vec<ListedMember<'a>>,
    bodies: &[Body<'a>],
    of: TypeId,
    under: &[TypeId],
) -> Result<(), AllocError>
    ensures { OnOk result (map seen_listed into.new.items ≡ map seen_listed into.old.items ++ map (member_in of under.now) (body (map seen_body bodies.now) of).more) }
{
    match bodies.get(of.0 as usize) {
        Some(body) => push_members(alloc, into, body.more.as_slice(), of, under),
        None => Ok(()),
    }
}

/// Puts the members of the extensions of a type on top.
fn push_extensions(
    alloc: Global,
    tasks: &mut Vec<Task>,
    of: TypeId,
    under: &[TypeId],
) -> Result<(), AllocError>
    ensures { OnOk result ((w : Way) → pending w tasks.new.items ≡ map (member_in of under.now) (body w.bodies of).more ++ pending w tasks.old.items) }
{
    let under = Row::of(Vec::from_slice(alloc, under)?);
    let stage = Stage::Extensions;
    tasks.push(Task { of, under, stage })?;
    Ok(())
}

impl<'b, 'a> Descent<'b, 'a> {
    /// What members are under that come from a conditional subtype.
    fn deeper(&self, alloc: Global, under: &[TypeId], of: TypeId) -> Result<Row<TypeId>, AllocError>
        ensures { IfOk result (λ types. types ≡ deeper_under (way_of self.now) under.now of) }
    {
        let mut types = Vec::from_slice(alloc, under)?;
        if !self.line.contains(&of) {
            types.push(of)?;
        }
        Ok(Row::of(types))
    }

    /// Puts a conditional subtype on top, if it isn't skipped.
    fn push_subtype(
        &self,
        alloc: Global,
        tasks: &mut Vec<Task>,
        steps: u32,
        under: &[TypeId],
        of: TypeId,
    ) -> Result<(), AllocError>
        ensures { OnOk result (pending (way_of self.now) tasks.new.items ≡ flat_map (λ c. listed_within steps (way_of self.now) (deeper_under (way_of self.now) under.now c) c) (kept (way_of self.now) (of ∷ [])) ++ pending (way_of self.now) tasks.old.items) }
    {
        if self.skipped.contains(&of) {
            return Ok(());
        }
        let under = self.deeper(alloc, under, of)?;
        let stage = Stage::All(steps);
        tasks.push(Task { of, under, stage })?;
        Ok(())
    }

    /// Puts conditional subtypes on top, so that the first is the topmost.
    fn push_subtypes(
        &self,
        alloc: Global,
        tasks: &mut Vec<Task>,
        steps: u32,
        under: &[TypeId],
        subtypes: &[TypeId],
    ) -> Result<(), AllocError>
        ensures { OnOk result (pending (way_of self.now) tasks.new.items ≡ flat_map (λ c. listed_within steps (way_of self.now) (deeper_under (way_of self.now) under.now c) c) (kept (way_of self.now) subtypes.now) ++ pending (way_of self.now) tasks.old.items) }
    {
        let mut left = subtypes.len();
        while left > 0 {
            left -= 1;
            self.push_subtype(alloc, tasks, steps, under, subtypes[left])?;
        }
        Ok(())
    }

    /// Puts what comes after the members of a type on top.
    fn push_below(
        &self,
        alloc: Global,
        tasks: &mut Vec<Task>,
        steps: u32,
        under: &[TypeId],
        of: TypeId,
    ) -> Result<(), AllocError>
        ensures { OnOk result (pending (way_of self.now) tasks.new.items ≡ (flat_map (λ c. listed_within steps (way_of self.now) (deeper_under (way_of self.now) under.now c) c) (kept (way_of self.now) (slice_index_or self.now.subtypes.now of [])) ++ map (member_in of under.now) (body (way_of self.now).bodies of).more) ++ pending (way_of self.now) tasks.old.items) }
    {
        push_extensions(alloc, tasks, of, under)?;
        let subtypes = self.subtypes.of(of);
        self.push_subtypes(alloc, tasks, steps, under, subtypes)
    }

    /// Does a task.
    fn step(
        &self,
        alloc: Global,
        into: &mut Vec<ListedMember<'a>>,
        tasks: &mut Vec<Task>,
        task: Task,
    ) -> Result<(), AllocError>
        ensures { OnOk result (map seen_listed into.new.items ++ pending (way_of self.now) tasks.new.items ≡ map seen_listed into.old.items ++ (task_members (way_of self.now) task ++ pending (way_of self.now) tasks.old.items)) }
    {
        let Task { of, under, stage } = task;
        let under = under.as_slice();
        match stage {
            Stage::All(0) => Ok(()),
            Stage::All(steps) => {
                push_own(alloc, into, self.bodies, of, under)?;
                self.push_below(alloc, tasks, steps - 1, under, of)?;
                Ok(())
            }
            Stage::Extensions => push_more(alloc, into, self.bodies, of, under),
        }
    }

    /// Lists the members that come down from a type, in at most so many steps through conditional subtypes.
    pub fn list(
        &self,
        alloc: Global,
        into: &mut Vec<ListedMember<'a>>,
        steps: u32,
        of: TypeId,
    ) -> Result<(), AllocError>
        ensures { OnOk result (map seen_listed into.new.items ≡ map seen_listed into.old.items ++ listed_within steps (way_of self.now) [] of) }
    {
        let mut tasks = Vec::new(alloc);
        let under = Row::new(alloc);
        let stage = Stage::All(steps);
        tasks.push(Task { of, under, stage })?;
        for _step in 0..u64::MAX {
            let Some(task) = tasks.pop() else {
                return Ok(());
            };
            self.step(alloc, into, &mut tasks, task)?;
        }
        // so many steps are never taken
        Err(AllocError)
    }
}
