//! The behaviours of actors.

ghost use Rattle.std.specs.Prelude.{◌≡◌, length};
ghost use Rattle.composition.specs.type_heads.Table.{line_within};
ghost use Rattle.composition.specs.Calls.{owned_behaviour as owned_by};
ghost use Rattle.program_calls.specs.SeenCallees.{owned_along, owned_at};

use expr_nodes::{TypeId, Types};

/// The behaviour of that name that a type owns.
fn owned_here(types: &Types, name: &str, owner: TypeId) -> Option<TypeId>
    ensures { result ≡ owned_at types.now.table.heads name.now owner }
{
    types.named(Some(types.name(owner)), name)
}

/// The first behaviour of that name that a type or one of its bases owns. The type is the first of the line.
fn owned_on_line(types: &Types, name: &str, of: Option<TypeId>) -> Option<TypeId>
    ensures { result ≡ owned_along types.now.table.heads name.now (line_within (length types.now.table.heads) types.now.table.heads of) }
{
    let mut at = of;
    let mut steps = types.count();
    while steps > 0
        && let Some(owner) = at
    {
        if let Some(found) = owned_here(types, name, owner) {
            return Some(found);
        }
        at = types.base(owner);
        steps -= 1;
    }
    None
}

/// The behaviour of that name that the actor or the nearest of its bases owns.
pub fn owned_behaviour(types: &Types, name: &str, actor: TypeId) -> Option<TypeId>
    ensures { result ≡ owned_by types.now.table.heads name.now actor }
{
    match owned_here(types, name, actor) {
        Some(found) => Some(found),
        None => owned_on_line(types, name, types.base(actor)),
    }
}
