//! The fields of one type.

ghost use Rattle.std.specs.Prelude.{◌≡◌, find, option_map, slice_get};
ghost use Rattle.program_fields.specs.SeenFields.{has_name, seen_field};
ghost use Rattle.program_fields.specs.Tables.{fields_in};

use crate::fields::TypeField;
use crate::parts::first_part;
use crate::tables::ProgramFields;
use type_members::Span;

/// The fields of a type of the program, name by name: those of the members that stand at a place.
#[derive(Clone, Copy)]
pub struct FieldsOf<'l, 'a> {
    pub(crate) fields: &'l ProgramFields<'a>,
    pub(crate) span: Span,
}

impl<'l, 'a> FieldsOf<'l, 'a> {
    /// The field of that number, counted from 0.
    pub fn at(&self, number: usize) -> Option<TypeField<'a>>
        ensures { option_map seen_field result ≡ slice_get (fields_in self.now) number }
    {
        let mut left = number;
        for part in self.fields.front(&self.span) {
            let count = self.fields.part_len(part);
            if left < count {
                return self.fields.part_field(part, left);
            }
            left -= count;
        }
        self.fields.part_field(&first_part(&self.span), left)
    }

    /// The first field of that name.
    pub fn named(&self, name: &str) -> Option<TypeField<'a>>
        ensures { option_map seen_field result ≡ find (has_name name.now) (fields_in self.now) }
    {
        for part in self.fields.front(&self.span) {
            match self.fields.part_named(part, name) {
                Some(found) => return Some(found),
                None => continue,
            }
        }
        self.fields.part_named(&first_part(&self.span), name)
    }
}
