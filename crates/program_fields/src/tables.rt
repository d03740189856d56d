//! The fields and the `do` of each type.

ghost use Rattle.std.specs.Prelude.{◌≡◌, map};
ghost use Rattle.type_members.specs.Listed.{seen_row};
ghost use Rattle.program_fields.specs.Parts.{facts_of};
ghost use Rattle.program_fields.specs.RowFacts.{row_facts};

use crate::field_row::FieldRow;
use crate::field_rows::field_rows;
use crate::fields::{TypeDo, TypeField};
use crate::gathered::push_all;
use crate::parts::first_part;
use crate::views::FieldsOf;
use dsl_tree::osc_base::Row;
use std::alloc::{AllocError, Global};
use type_heads::TypeId;
use type_members::{MemberLists, Part, Span};

/// The fields and the `do` of each type, given its members. Types share what is worked out of a row of members.
#[derive(Drop)]
pub struct ProgramFields<'a> {
    pub(crate) lists: &'a MemberLists<'a>,
    rows: Vec<FieldRow<'a>>,
    ghost rows_are: { map row_facts rows.items ≡ map facts_of (map seen_row lists.now.rows.items) },
}

impl<'a> ProgramFields<'a> {
    ghost use Rattle.std.specs.Prelude.{[], option_map, slice_get, slice_index_or, IfOk};
    ghost use Rattle.type_heads.specs.Members.{fields_among};
    ghost use Rattle.type_members.specs.Listed.{lists_of};
    ghost use Rattle.program_fields.specs.SeenFields.{first_do_in, seen_do, seen_field};
    ghost use Rattle.program_fields.specs.Tables.{all_fronts, fields_in, lists_in, members_at, rows_in};

    /// The fields and the `do` of each type.
    pub fn build(alloc: Global, lists: &'a MemberLists<'a>) -> Result<ProgramFields<'a>, AllocError>
        ensures { IfOk result (λ fields. lists_in fields ≡ lists_of lists.entry.now) }
    {
        let rows = field_rows(alloc, lists.rows())?;
        Ok(ProgramFields { lists, rows })
    }

    /// The members of each type.
    pub fn lists(&self) -> &'a MemberLists<'a>
        ensures { result.now ≡ self.now.lists.now }
    {
        self.lists
    }

    /// The fields of a type.
    pub fn of(&self, of: TypeId) -> FieldsOf<'_, 'a>
        ensures { fields_in result ≡ fields_among (slice_index_or (lists_in self.now) of []) }
    {
        FieldsOf {
            fields: self,
            span: self.lists.span(of),
        }
    }

    /// The fields of a type, put down name by name.
    pub fn listed(&self, alloc: Global, of: TypeId) -> Result<Row<TypeField<'a>>, AllocError>
        ensures { IfOk result (λ fields. map seen_field fields ≡ fields_among (slice_index_or (lists_in self.now) of [])) }
    {
        let span = self.lists.span(of);
        let mut fields = Vec::new(alloc);
        for part in self.front(&span) {
            push_all(&mut fields, self.lists.part(part), part.inside)?;
        }
        push_all(&mut fields, self.lists.own(&span), 0)?;
        Ok(Row::of(fields))
    }

    /// The parts in front of the row of a place.
    pub(crate) fn front(&self, span: &Span) -> &[Part]
        ensures { result.now ≡ slice_index_or (all_fronts self.now) span.now.row [] }
    {
        self.lists.front(span.row)
    }

    /// The row of that number.
    pub(crate) fn row(&self, number: usize) -> Option<&FieldRow<'a>>
        ensures { option_map (λ r. row_facts r.now) result ≡ option_map facts_of (slice_get (rows_in self.now) number) }
    {
        self.rows.get(number)
    }

    /// The `do` of a type, its own or an inherited one.
    pub fn the_do(&self, of: TypeId) -> Option<TypeDo<'a>>
        ensures { option_map seen_do result ≡ first_do_in (slice_index_or (lists_in self.now) of []) }
    {
        self.do_at(self.lists.span(of))
    }

    /// The `do` of each type.
    pub fn all_dos(&self, alloc: Global) -> Result<Vec<Option<TypeDo<'a>>>, AllocError>
        ensures { IfOk result (λ all. map (option_map seen_do) all.items ≡ map first_do_in (lists_in self.now)) }
    {
        let mut all = Vec::new(alloc);
        for span in self.lists.spans() {
            all.push(self.do_at(*span))?;
        }
        Ok(all)
    }

    /// The `do` among the members that stand there.
    pub fn do_at(&self, span: Span) -> Option<TypeDo<'a>>
        ensures { option_map seen_do result ≡ first_do_in (members_at self.now span) }
    {
        for part in self.front(&span) {
            match self.part_do(part) {
                Some(found) => return Some(found),
                None => continue,
            }
        }
        self.part_do(&first_part(&span))
    }
}
