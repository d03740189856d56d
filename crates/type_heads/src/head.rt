ghost use Rattle.std.specs.Prelude.{◌≡◌, ◌&&◌, bytes_eq, option_copied};
ghost use Rattle.type_heads.specs.Seen.{seen_form, kept_form};
ghost use Rattle.name_scope.specs.Declaring.{same_owner};

use crate::form::OwnForm;
use crate::{Form, TypeId};
use std::marker::Model;
use units_si::osc_base::Text;

/// The head of a type: its name, the actor that owns it, what it is, and the type that it inherits from.
#[derive(Drop)]
pub struct Head {
    name: Text,
    owner: Option<Text>,
    form: OwnForm,
    base: Option<TypeId>,
}

impl Model for Head {
    ghost use Rattle.type_heads.specs.Table.{TypeHead};

    ghost Value = { TypeHead };

    ghost use Rattle.type_heads.specs.Seen.{kept_form};

    ghost view = { λ h. record { name = h.name; owner = h.owner; form = kept_form h.form; base = h.base } };
}

impl Head {
    /// A head of these parts.
    pub fn new(name: Text, owner: Option<Text>, form: OwnForm, base: Option<TypeId>) -> Head
        ensures { result ≡ record { name = name; owner = owner; form = kept_form form; base = base } }
    {
        Head {
            name,
            owner,
            form,
            base,
        }
    }

    /// Its name. That of the behaviour `vehicle.drive` is `drive`.
    pub fn name(&self) -> &str
        ensures { result.now ≡ self.now.name }
    {
        self.name.as_str()
    }

    /// The name of the actor that owns it. Only a behaviour has an owner.
    pub fn owner(&self) -> Option<&str>
        ensures { option_copied result ≡ self.now.owner }
    {
        match &self.owner {
            Some(owner) => Some(owner.as_str()),
            None => None,
        }
    }

    /// What it is.
    pub fn form(&self) -> Form<'_>
        ensures { seen_form result ≡ self.now.form }
    {
        self.form.get()
    }

    /// The type that it inherits from.
    pub fn base(&self) -> Option<TypeId>
        ensures { result ≡ self.now.base }
    {
        self.base
    }

    /// Whether it has that owner and that name.
    pub fn is_named(&self, owner: Option<&str>, name: &str) -> bool
        ensures { result ≡ same_owner self.now.owner (option_copied owner.entry) && bytes_eq self.now.name name.now }
    {
        self.has_owner(owner) && self.name() == name
    }

    fn has_owner(&self, owner: Option<&str>) -> bool
        ensures { result ≡ same_owner self.now.owner (option_copied owner.entry) }
    {
        match (self.owner(), owner) {
            (None, None) => true,
            (Some(own), Some(other)) => own == other,
            (None, Some(_)) | (Some(_), None) => false,
        }
    }
}
