//! The names of fields, each with the member that declares it.

ghost use Rattle.std.specs.Prelude.{◌≡◌, ◌++◌, [], ◌∷◌, length, map, IfOk, OnOk};
ghost use Rattle.dsl_tree.specs.Views.{member_tree};
ghost use Rattle.type_members.specs.Listed.{seen_listed};
ghost use Rattle.program_fields.specs.Parts.{all_ends, spots_from, spots_in, with_number};
ghost use Rattle.program_fields.specs.SeenSpots.{seen_spot};

use dsl_tree::{Ident, Member};
use std::alloc::{AllocError, Global};
use type_members::ListedMember;
use type_tables::HasName;

/// A field of a row of members: its name, and the number of the member that declares it.
#[derive(Clone, Copy)]
pub(crate) struct FieldSpot<'a> {
    pub(crate) name: &'a Ident,
    pub(crate) member: usize,
}

impl HasName for FieldSpot<'_> {
    ghost name_of = { λ s. s.name.now.text };

    fn own_name(&self) -> &str {
        self.name.text.as_str()
    }
}

/// Fields that are put down, and how many there were after each member.
#[derive(Drop)]
pub(crate) struct EndedSpots<'a> {
    pub(crate) spots: Vec<FieldSpot<'a>>,
    pub(crate) ends: Vec<usize>,
}

/// Puts names at the end that the member of that number declares.
fn push_names<'a>(
    into: &mut Vec<FieldSpot<'a>>,
    names: &'a [Ident],
    member: usize,
) -> Result<(), AllocError>
    ensures { OnOk result (map seen_spot into.new.items ≡ map seen_spot into.old.items ++ map (with_number member) names.entry.now) }
{
    for name in names {
        into.push(FieldSpot { name, member })?;
    }
    Ok(())
}

/// Puts the fields of a member at the end.
fn push_spots<'a>(
    into: &mut Vec<FieldSpot<'a>>,
    member: &'a Member,
    number: usize,
) -> Result<(), AllocError>
    ensures { OnOk result (map seen_spot into.new.items ≡ map seen_spot into.old.items ++ spots_in number (member_tree member.entry.now)) }
{
    match member {
        Member::Field(decl) => push_names(into, decl.names.as_slice(), number),
        Member::Rule(_) | Member::Do { .. } => Ok(()),
    }
}

impl<'a> EndedSpots<'a> {
    fn new(alloc: Global) -> Result<EndedSpots<'a>, AllocError>
        ensures spots { IfOk result (λ f. f.spots.items ≡ []) }
        ensures ends { IfOk result (λ f. f.ends.items ≡ 0 ∷ []) }
    {
        Ok(EndedSpots {
            spots: Vec::new(alloc),
            ends: vec![in alloc; 0]?,
        })
    }

    /// Puts the fields of the member of that number at the end.
    fn push(&mut self, member: &'a Member, number: usize) -> Result<(), AllocError>
        ensures spots { OnOk result (map seen_spot self.new.spots.items ≡ map seen_spot self.old.spots.items ++ spots_in number (member_tree member.entry.now)) }
        ensures ends { OnOk result (self.new.ends.items ≡ self.old.ends.items ++ length self.new.spots.items ∷ []) }
    {
        push_spots(&mut self.spots, member, number)?;
        self.ends.push(self.spots.len())?;
        Ok(())
    }
}

/// The fields among members.
pub(crate) fn ended_spots<'a>(
    alloc: Global,
    members: &[ListedMember<'a>],
) -> Result<EndedSpots<'a>, AllocError>
    ensures spots { IfOk result (λ f. map seen_spot f.spots.items ≡ spots_from 0 (map seen_listed members.now)) }
    ensures ends { IfOk result (λ f. f.ends.items ≡ all_ends (map seen_listed members.now)) }
{
    let mut fields = EndedSpots::new(alloc)?;
    let mut number: usize = 0;
    for listed in members {
        fields.push(listed.written.member, number)?;
        number += 1;
    }
    Ok(fields)
}
