//! Names with what may stand after them.

ghost use Rattle.dsl_cursor.specs.Words.{Part, read, Gives, enum_member as member_forest};

use crate::signs::Sign::Mark;
use crate::stop::Stop;
use crate::tokens::Cursor;
use dsl_tree::{Ident, MarkKind};
use std::alloc::Global;

/// The member after the name of an enum, if there is one.
#[tactic(auto, using(crate::proofs::ReadSteps::read_step))]
pub fn enum_member(alloc: Global, tokens: &mut Cursor<'_>) -> Result<Option<Ident>, Stop>
    ensures { Gives member_forest (read Part.EnumMember tokens.old) result tokens.new }
{
    match tokens.take(Mark(MarkKind::Bang)) {
        Some(_) => Ok(Some(tokens.expect_name(alloc)?)),
        None => Ok(None),
    }
}
