//! Nodes without parts.

ghost use Rattle.std.specs.Prelude.{◌≡◌, None, Some, IfOk};
ghost use Rattle.dsl_tree.specs.ExprTree.{ExprTree};
ghost use Rattle.expr_typing.specs.type_heads.Table.{Table};
ghost use Rattle.expr_nodes.specs.Scope.{Scope as Names};
ghost use Rattle.expr_nodes.specs.Checks.{IsChecked};
ghost use Rattle.expr_nodes.specs.Seen.{seen, seen_part};
ghost use Rattle.expr_nodes.specs.SeenNames.{seen_scope};

use dsl_tree::{Digits, Ident};
use expr_nodes::{Checked, Scope, Typed, Types};
use expr_typing::{literals, meanings, others, physical};
use osc_base::{Boxed, Place};
use std::alloc::{AllocError, Global};

/// An expression without a fault.
fn faultless(alloc: Global, typed: Typed) -> Result<Checked, AllocError>
    ensures fault { IfOk result (λ c. c.fault ≡ None) }
    ensures typed { IfOk result (λ c. seen_part c.typed ≡ Some (seen typed)) }
{
    Ok(Checked {
        fault: None,
        typed: Some(Boxed::new(alloc, typed)?),
    })
}

/// A number without a unit.
pub(crate) fn number(alloc: Global, digits: &Digits) -> Result<Checked, AllocError>
    ensures { IfOk result (λ c. (table : Table) (sc : Names) → IsChecked table sc (ExprTree.Number digits.now) c) }
{
    literals::number(alloc, digits)
}

/// `true` or `false`.
pub(crate) fn truth(alloc: Global, place: Place, value: bool) -> Result<Checked, AllocError>
    ensures { IfOk result (λ c. (table : Table) (sc : Names) → IsChecked table sc (ExprTree.Truth place value) c) }
{
    faultless(alloc, literals::truth(place, value))
}

/// A text.
pub(crate) fn text(
    alloc: Global,
    types: &Types,
    place: Place,
    text: &str,
) -> Result<Checked, AllocError>
    ensures { IfOk result (λ c. (sc : Names) → IsChecked types.now.table sc (ExprTree.Chars place text.now) c) }
{
    faultless(alloc, literals::text(types, place, text))
}

/// A number with a unit.
pub(crate) fn physical_number(
    alloc: Global,
    types: &Types,
    digits: &Digits,
    unit: &str,
) -> Result<Checked, AllocError>
    ensures { IfOk result (λ c. (sc : Names) → IsChecked types.now.table sc (ExprTree.Physical digits.now unit.now) c) }
{
    physical::physical(alloc, types, digits, unit)
}

/// `it`.
pub(crate) fn it(
    alloc: Global,
    types: &Types,
    scope: &Scope<'_>,
    place: Place,
) -> Result<Checked, AllocError>
    ensures { IfOk result (λ c. IsChecked types.now.table (seen_scope scope.now) (ExprTree.It place) c) }
{
    others::it(alloc, types, scope, place)
}

/// `actor`.
pub(crate) fn actor(
    alloc: Global,
    types: &Types,
    scope: &Scope<'_>,
    place: Place,
) -> Result<Checked, AllocError>
    ensures { IfOk result (λ c. IsChecked types.now.table (seen_scope scope.now) (ExprTree.Actor place) c) }
{
    others::actor(alloc, types, scope, place)
}

/// A name.
pub(crate) fn name(
    alloc: Global,
    types: &Types,
    scope: &Scope<'_>,
    name: &Ident,
) -> Result<Checked, AllocError>
    ensures { IfOk result (λ c. IsChecked types.now.table (seen_scope scope.now) (ExprTree.Name name.now) c) }
{
    meanings::name(alloc, types, scope, name)
}

/// A member of an enum, with the enum before it.
pub(crate) fn enum_name(
    alloc: Global,
    types: &Types,
    of: &Ident,
    member: &Ident,
) -> Result<Checked, AllocError>
    ensures { IfOk result (λ c. (sc : Names) → IsChecked types.now.table sc (ExprTree.EnumName of.now member.now) c) }
{
    others::enum_name(alloc, types, of, member)
}
