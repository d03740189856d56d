//! The law of what is told of conditions.

ghost use Rattle.std.specs.Prelude.{◌≡◌, ℕ, filter_map};
ghost use Rattle.type_model.specs.type_heads.Conditions.{condition};
ghost use Rattle.type_model.specs.type_heads.Members.{subtypes};
ghost use Rattle.type_model.specs.type_heads.Told.{told};
ghost use Rattle.type_model.specs.type_heads.Types.{Types};
ghost use Rattle.cond_inherit.specs.SubtypeConditions.{conditions_on};

/// What is told of the conditions on a type are the conditions of its conditional subtypes, in load order.
pub fn tell_conditions()
    ensures { (ts : Types) (b : ℕ) → conditions_on (told ts) b ≡ filter_map (condition ts) (subtypes ts.table.heads ts.bodies b) }
{}
