//! Under which conditions the members of an object are there.

ghost use Rattle.std.specs.Prelude.{◌≡◌, map, option_map, IfOk, OnOk};
ghost use Rattle.program_calls.specs.type_heads.Conditions.{condition};
ghost use Rattle.program_calls.specs.cond_inherit.Conditions as conds;
ghost use Rattle.program_calls.specs.cond_inherit.SubtypeConditions.{condition_at, seen_condition};
ghost use Rattle.program_calls.specs.composition.Givens.{guards_under};
ghost use Rattle.program_texts.specs.Asked.{IsGathered};
ghost use Rattle.program_texts.specs.SeenConditions.{conditions_after, conditions_of_field, guard_of};
ghost use Rattle.program_texts.specs.SeenTexts.{types_in};

use crate::asked::AskedConditions;
use crate::texts::ProgramTexts;
use osc_base::{Path, Row, Text};
use program_calls::{Condition, Guard, TypeId, Types};
use scene_texts::then_name;
use std::alloc::{AllocError, Global};

impl<'a> ProgramTexts<'a> {
    /// The condition of a type, if it is a conditional subtype.
    fn condition(&self, alloc: Global, of: TypeId) -> Result<Option<Condition>, AllocError>
        ensures { IfOk result (λ c. option_map seen_condition c ≡ condition (types_in self.now) of) }
    {
        let found = told_condition(alloc, self.types, of)?;
        Ok(found)
    }

    /// Gathers the conditions of conditional subtypes in an object of a type, each after those that its own field is
    /// under.
    #[cycle(conditions)]
    fn gather(
        &self,
        alloc: Global,
        into: &mut AskedConditions,
        steps: u32,
        of: TypeId,
        under: &[TypeId],
    ) -> Result<(), AllocError>
        ensures { OnOk result (IsGathered (types_in self.now) of into.old into.new (conds.conditions_within steps (types_in self.now) of under.now)) }
    {
        if steps == 0 {
            return Ok(());
        }
        for subtype in under {
            self.gather_subtype(alloc, into, steps - 1, of, *subtype)?;
        }
        Ok(())
    }

    /// Gathers the condition of one of them, if it has one, after those that its field is under. One that was gathered
    /// with as many steps gives nothing more.
    #[cycle(conditions)]
    fn gather_subtype(
        &self,
        alloc: Global,
        into: &mut AskedConditions,
        steps: u32,
        of: TypeId,
        subtype: TypeId,
    ) -> Result<(), AllocError>
        ensures { OnOk result (IsGathered (types_in self.now) of into.old into.new (conditions_after steps (types_in self.now) of subtype)) }
    {
        if into.is_done(subtype, steps) {
            return Ok(());
        }
        let Some(condition) = self.condition(alloc, subtype)? else {
            return Ok(());
        };
        self.gather_field(alloc, into, steps, of, condition.field.as_str())?;
        into.finish(subtype, steps, condition)
    }

    /// Gathers the conditions that a field is under.
    #[cycle(conditions)]
    fn gather_field(
        &self,
        alloc: Global,
        into: &mut AskedConditions,
        steps: u32,
        of: TypeId,
        name: &str,
    ) -> Result<(), AllocError>
        ensures { OnOk result (IsGathered (types_in self.now) of into.old into.new (conditions_of_field steps (types_in self.now) of name.now)) }
    {
        match self.field(of, name) {
            Some(field) => self.gather(alloc, into, steps, of, field.under),
            None => Ok(()),
        }
    }

    /// The conditions under which a member of an object of a type is there, given the conditional subtypes that the member
    /// is under.
    fn conditions(
        &self,
        alloc: Global,
        of: TypeId,
        under: &[TypeId],
    ) -> Result<Vec<Condition>, AllocError>
        ensures { IfOk result (λ cs. map seen_condition cs.items ≡ conds.conditions (types_in self.now) of under.now) }
    {
        let mut asked = AskedConditions::new(alloc);
        self.gather(alloc, &mut asked, self.types.count(), of, under)?;
        Ok(asked.kept)
    }

    /// The conditions on the object at a path of a type for members that are under conditional subtypes.
    pub fn guards_under(
        &self,
        alloc: Global,
        object: &Path,
        of: TypeId,
        under: &[TypeId],
    ) -> Result<Row<Guard>, AllocError>
        ensures { IfOk result (λ gs. gs ≡ guards_under (types_in self.now) object.now of under.now) }
    {
        let conditions = self.conditions(alloc, of, under)?;
        guards_of(alloc, object, conditions.as_slice())
    }
}

/// What is told of the condition of a type.
fn told_condition(alloc: Global, types: &Types, of: TypeId) -> Result<Option<Condition>, AllocError>
    ensures { IfOk result (λ c. option_map seen_condition c ≡ condition_at types.now of) }
{
    let Some((field, value)) = types.condition(of) else {
        return Ok(None);
    };
    let field = Text::copy(alloc, field)?;
    Ok(Some(Condition {
        field,
        value,
        subtype: of,
    }))
}

/// The guard of a condition on an object.
fn guard(alloc: Global, object: &Path, condition: &Condition) -> Result<Guard, AllocError>
    ensures { IfOk result (λ g. g ≡ guard_of object.now (seen_condition condition.now)) }
{
    Ok(Guard::Value {
        path: then_name(alloc, object, condition.field.as_str())?,
        value: condition.value,
    })
}

/// The guards of conditions on an object.
fn guards_of(
    alloc: Global,
    object: &Path,
    conditions: &[Condition],
) -> Result<Row<Guard>, AllocError>
    ensures { IfOk result (λ gs. gs ≡ map (guard_of object.now) (map seen_condition conditions.now)) }
{
    let mut guards = Row::new(alloc);
    for condition in conditions {
        guards.push(guard(alloc, object, condition)?)?;
    }
    Ok(guards)
}
