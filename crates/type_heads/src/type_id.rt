use std::marker::Model;

/// The number of a type: the basic types `int`, `uint`, `float`, `bool` and `string` come first, then the
/// declared ones in load order.
#[derive(Debug, Clone, Copy, PartialEq, Eq)]
pub struct TypeId(pub u32);

impl Model for TypeId {
    ghost use Rattle.std.specs.Prelude.{ℕ};

    ghost Value = { ℕ };

    ghost view = { λ t. t.0 };

    ghost inverse = { λ n. record { 0 = n } };
}
