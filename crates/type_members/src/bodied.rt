//! The conditions under which types inherit.

ghost use Rattle.std.specs.Prelude.{◌≡◌, cond, map, option_copied, None};
ghost use Rattle.type_heads.specs.Bodied.{seen_body};
ghost use Rattle.type_heads.specs.Members.{heir_condition as condition_of, is_conditional as conditional};
ghost use Rattle.type_heads.specs.Table.{base};

use type_heads::{Body, Heads, HeirCondition, TypeId};

/// The condition under which a conditional subtype inherits.
pub fn heir_condition<'a>(bodies: &[Body<'a>], of: TypeId) -> Option<&'a HeirCondition>
    ensures { option_copied result ≡ condition_of (map seen_body bodies.now) of }
{
    let body = bodies.get(of.0 as usize)?;
    body.heir?.condition.as_ref()
}

/// Whether a type is a conditional subtype.
pub fn is_conditional(bodies: &[Body<'_>], of: TypeId) -> bool
    ensures { result ≡ conditional (map seen_body bodies.now) of }
{
    heir_condition(bodies, of).is_some()
}

/// The type that a conditional subtype inherits from.
pub fn conditional_base(heads: &Heads, bodies: &[Body<'_>], of: TypeId) -> Option<TypeId>
    ensures { result ≡ cond (conditional (map seen_body bodies.now) of) (base heads.now of) None }
{
    if heir_condition(bodies, of).is_some() {
        heads.base(of)
    } else {
        None
    }
}
