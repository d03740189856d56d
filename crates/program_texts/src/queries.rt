//! What is asked of the types of a program.

ghost use Rattle.std.specs.Prelude.{◌≡◌, map, option_copied, option_map, IfOk, IfSome};
ghost use Rattle.program_calls.specs.composition.SceneFaults.{named_scenario};
ghost use Rattle.program_calls.specs.composition.Expanded as expanded;
ghost use Rattle.dsl_tree.specs.Views.{field_tree};
ghost use Rattle.program_calls.specs.type_heads.Members.{body, declared_type};
ghost use Rattle.program_calls.specs.type_heads.Members as told;
ghost use Rattle.program_calls.specs.type_heads.Told.{told as all_told};
ghost use Rattle.program_calls.specs.type_heads.Table.{form};
ghost use Rattle.program_calls.specs.type_heads.Table as table;
ghost use Rattle.program_fields.specs.type_members.Listed.{lists_of};
ghost use Rattle.program_calls.specs.SeenLabels.{do_labels as do_labels_of, seen_labels};
ghost use Rattle.program_texts.specs.OwnLabels.{seen_type_labels};
ghost use Rattle.program_texts.specs.Ranges.{object_kind};
ghost use Rattle.program_fields.specs.SeenFields.{seen_do, seen_field};
ghost use Rattle.program_fields.specs.Tables.{fields_in};
ghost use Rattle.program_texts.specs.SeenTexts.{types_in, types_with};

use crate::labels::{TypeLabels, own_labels};
use crate::texts::ProgramTexts;
use dsl_tree::{FieldDecl, HeirCondition};
use osc_base::{Place, Row};
use program_calls::{LabelTable, TypeId, TypeKind, Types, do_labels, no_labels};
use program_fields::{FieldsOf, MemberLists, ProgramFields, TypeDo, TypeField, heir_condition};
use program_members::ProgramMembers;
use std::alloc::{AllocError, Global};

/// The place of what no file declares.
const NOWHERE: Place = Place {
    file: 0,
    line: 0,
    column: 0,
    token: 0,
};

impl<'a> ProgramTexts<'a> {
    /// The texts of a program with these types and members. Both are those of one program.
    pub fn of(
        alloc: Global,
        types: &'a Types,
        members: &'a ProgramMembers<'a>,
    ) -> Result<ProgramTexts<'a>, AllocError>
        requires built { types.now ≡ all_told (types_with members.now types.now.table) }
        ensures { IfOk result (λ texts. types_in texts ≡ types_with members.entry.now types.entry.now.table) }
    {
        let fields = ProgramFields::build(alloc, &members.lists)?;
        let labels = own_labels(alloc, types, &fields)?;
        Ok(ProgramTexts {
            types,
            library: members.library,
            bodies: members.bodies.as_slice(),
            fields,
            labels,
        })
    }

    /// The types.
    pub fn types(&self) -> &'a Types
        ensures { result.now.table ≡ (types_in self.now).table }
    {
        self.types
    }

    /// The fields of a type, name by name.
    pub fn fields(&self, alloc: Global, of: TypeId) -> Result<Row<TypeField<'a>>, AllocError>
        ensures { IfOk result (λ fs. map seen_field fs ≡ told.fields (types_in self.now) of) }
    {
        self.fields.listed(alloc, of)
    }

    /// The fields of a type, found by name and by number.
    pub fn fields_of(&self, of: TypeId) -> FieldsOf<'_, 'a>
        ensures { fields_in result ≡ told.fields (types_in self.now) of }
    {
        self.fields.of(of)
    }

    /// The `do` of a type, its own or an inherited one.
    pub fn the_do(&self, of: TypeId) -> Option<TypeDo<'a>>
        ensures { option_map seen_do result ≡ told.the_do (types_in self.now) of }
    {
        self.fields.the_do(of)
    }

    /// The labels of the `do` of a type, its own or an inherited one.
    pub fn labels(&self, alloc: Global, of: TypeId) -> Result<TypeLabels<'_>, AllocError>
        ensures { IfOk result (λ labels. seen_type_labels labels ≡ do_labels_of (types_in self.now) of) }
    {
        match self.own_labels(of) {
            Some(table) => Ok(TypeLabels::Own(table)),
            None => {
                let table = self.made_labels(alloc, of)?;
                Ok(TypeLabels::Inherited(table))
            }
        }
    }

    /// The labels of a `do` of a type that stands in its own text.
    fn own_labels(&self, of: TypeId) -> Option<&LabelTable>
        ensures { IfSome result (λ table. seen_labels table.now ≡ do_labels_of (types_in self.now) of) }
    {
        match self.labels.get(of.0 as usize) {
            Some(table) => table.as_ref(),
            None => None,
        }
    }

    /// The labels of the `do` of a type, made anew.
    fn made_labels(&self, alloc: Global, of: TypeId) -> Result<LabelTable, AllocError>
        ensures { IfOk result (λ table. seen_labels table ≡ do_labels_of (types_in self.now) of) }
    {
        match self.the_do(of) {
            Some(found) => do_labels(alloc, self.types, TypeId(found.holder), found.phase),
            None => no_labels(alloc),
        }
    }

    /// The members of each type, in order.
    pub fn lists(&self) -> &'a MemberLists<'a>
        ensures { lists_of result.now ≡ (types_in self.now).members }
    {
        self.fields.lists()
    }

    /// The place of the name of a type.
    pub fn place(&self, of: TypeId) -> Place
        ensures { result ≡ (body (types_in self.now).bodies of).place }
    {
        match self.bodies.get(of.0 as usize) {
            Some(body) => body.place,
            None => NOWHERE,
        }
    }

    /// The condition under which a type inherits, as written.
    pub fn heir_condition(&self, of: TypeId) -> Option<&'a HeirCondition>
        ensures { option_copied result ≡ told.heir_condition (types_in self.now).bodies of }
    {
        heir_condition(self.bodies, of)
    }

    /// The field of that name of a type.
    pub fn field(&self, of: TypeId, name: &str) -> Option<TypeField<'a>>
        ensures { option_map seen_field result ≡ told.field (types_in self.now) of name.now }
    {
        self.fields.of(of).named(name)
    }

    /// The type of a field, or of the elements of a list.
    pub fn declared_type(&self, decl: &FieldDecl) -> Option<TypeId>
        ensures { result ≡ declared_type (types_in self.now) (field_tree decl.now) }
    {
        self.types.named(None, decl.of.text.as_str())
    }

    /// Whether what a field of the type holds is an object.
    pub fn is_object(&self, of: TypeId) -> bool
        ensures { result ≡ table.is_object (form (types_in self.now).table.heads of) }
    {
        is_object_kind(self.types.kind(of))
    }

    /// The scenario of that name, with its owner if it has one.
    pub fn scenario(&self, owner: Option<&str>, name: &str) -> Option<TypeId>
        ensures { result ≡ named_scenario (types_in self.now) (option_copied owner.entry) name.now }
    {
        let found = self.types.named(owner, name)?;
        match self.types.kind(found) {
            TypeKind::Scenario => Some(found),
            _ => None,
        }
    }

    /// Whether the type is the library's `vehicle` or inherits from it.
    pub fn is_vehicle(&self, of: TypeId) -> bool
        ensures { result ≡ expanded.is_vehicle (types_in self.now) of }
    {
        program_calls::is_vehicle(self.types, self.library.is_some(), of)
    }
}

/// Whether a type of that kind has objects.
fn is_object_kind(kind: TypeKind) -> bool
    ensures { result ≡ object_kind kind }
{
    match kind {
        TypeKind::Struct | TypeKind::Actor => true,
        TypeKind::Int
        | TypeKind::Uint
        | TypeKind::Float
        | TypeKind::Bool
        | TypeKind::Chars
        | TypeKind::Physical(_)
        | TypeKind::Enum
        | TypeKind::Action
        | TypeKind::Scenario => false,
    }
}
