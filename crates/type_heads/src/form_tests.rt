//! Tests of what a type is.

ghost use Rattle.std.specs.Prelude.{◌≡◌};
ghost use Rattle.type_heads.specs.Seen.{seen_form};
ghost use Rattle.type_heads.specs.Table.{same_compound as is_same};
ghost use Rattle.type_heads.specs.Table.{is_compound, is_struct, is_actor, is_scenario, is_behaviour, is_object, has_members, is_enum};
ghost use Rattle.type_heads.specs.HeadingFaults.{is_physical};

use crate::Form;
use name_scope::dsl_tree::CompoundKind;

fn same_compound(a: CompoundKind, b: CompoundKind) -> bool
    ensures { result ≡ is_same a b }
{
    a == b
}

impl<'a> Form<'a> {
    /// Whether it is a type with members of that kind.
    pub fn is_compound(self, kind: CompoundKind) -> bool
        ensures { result ≡ is_compound kind (seen_form self.entry) }
    {
        match self {
            Form::Compound(own) => same_compound(kind, own),
            Form::Int
            | Form::Uint
            | Form::Float
            | Form::Truth
            | Form::Chars
            | Form::Physical(_)
            | Form::Enum(_) => false,
        }
    }

    /// Whether it is an actor.
    pub fn is_actor(self) -> bool
        ensures { result ≡ is_actor (seen_form self.entry) }
    {
        self.is_compound(CompoundKind::Actor)
    }

    /// Whether it is a scenario.
    pub fn is_scenario(self) -> bool
        ensures { result ≡ is_scenario (seen_form self.entry) }
    {
        self.is_compound(CompoundKind::Scenario)
    }

    /// Whether it is an action or a scenario.
    pub fn is_behaviour(self) -> bool
        ensures { result ≡ is_behaviour (seen_form self.entry) }
    {
        self.is_compound(CompoundKind::Action) || self.is_scenario()
    }

    /// Whether what a field of this type holds is an object.
    pub fn is_object(self) -> bool
        ensures { result ≡ is_object (seen_form self.entry) }
    {
        self.is_compound(CompoundKind::Struct) || self.is_actor()
    }

    /// Whether it is a type with members.
    pub fn has_members(self) -> bool
        ensures { result ≡ has_members (seen_form self.entry) }
    {
        self.is_object() || self.is_behaviour()
    }

    /// Whether it is an enum.
    pub fn is_enum(self) -> bool
        ensures { result ≡ is_enum (seen_form self.entry) }
    {
        matches!(self, Form::Enum(_))
    }

    /// Whether it is a physical type.
    pub fn is_physical(self) -> bool
        ensures { result ≡ is_physical (seen_form self.entry) }
    {
        matches!(self, Form::Physical(_))
    }
}
