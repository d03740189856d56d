//! The bodies of types: their members as written, and those of their extensions.

ghost use Rattle.std.specs.Prelude.{◌≡◌, ◌++◌, flat_map, map, IfOk, OnOk};
ghost use Rattle.name_scope.specs.dsl_tree.Views.{member_tree};
ghost use Rattle.type_heads.specs.DeclaredTypes.{written_from};
ghost use Rattle.type_heads.specs.Placing.{seen_type};
ghost use Rattle.type_heads.specs.Bodied.{all_bodies, bodies_grouped, body_grouped, members_placed, seen_body, seen_written};
ghost use Rattle.type_heads.specs.Gathered.{AreGathered, all_of};

use crate::TypeId;
use crate::declarations::Declarations;
use crate::names::next_place;
use crate::own_type::OwnType;
use crate::placed::PlacedDecl;
use name_scope::dsl_tree::{Declaration, Heir, Member};
use std::alloc::{AllocError, Global};
use units_si::osc_base::{Place, Row};

/// A member as written: the numbers of its file, of its declaration there, and of the member in that.
#[derive(Clone, Copy)]
pub struct WrittenMember<'a> {
    pub file: u32,
    pub declaration: u32,
    pub index: u32,
    pub member: &'a Member,
}

/// The body of a type: where its name stands, what it inherits from as written, the members of its declaration, and
/// those of its extensions in load order.
#[derive(Drop)]
pub struct Body<'a> {
    pub place: Place,
    pub heir: Option<&'a Heir>,
    pub own: Row<WrittenMember<'a>>,
    pub more: Row<WrittenMember<'a>>,
}

/// Puts the members of a declaration at the end. More of them than a `u32` counts are out of memory.
fn push_members<'a>(
    written: &mut Vec<WrittenMember<'a>>,
    file: u32,
    declaration: u32,
    members: &'a [Member],
) -> Result<(), AllocError>
    ensures { OnOk result (map seen_written written.new.items ≡ map seen_written written.old.items ++ written_from file declaration 0 (map member_tree members.now)) }
{
    let mut index: u32 = 0;
    for member in members {
        written.push(WrittenMember {
            file,
            declaration,
            index,
            member,
        })?;
        index = next_place(index)?;
    }
    Ok(())
}

fn push_extension<'a>(
    written: &mut Vec<WrittenMember<'a>>,
    placed: PlacedDecl<'a>,
) -> Result<(), AllocError>
    ensures { OnOk result (map seen_written written.new.items ≡ map seen_written written.old.items ++ members_placed placed.entry) }
{
    match placed.declaration {
        Declaration::MemberExtension(decl) => push_members(
            written,
            placed.file,
            placed.index,
            decl.members.as_slice(),
        ),
        Declaration::Physical(_)
        | Declaration::Unit(_)
        | Declaration::Enum(_)
        | Declaration::Compound(_)
        | Declaration::EnumExtension(_) => Ok(()),
    }
}

/// The members of extensions.
fn more_members<'a>(
    alloc: Global,
    extensions: &[PlacedDecl<'a>],
) -> Result<Row<WrittenMember<'a>>, AllocError>
    ensures { IfOk result (λ members. map seen_written members ≡ flat_map members_placed extensions.now) }
{
    let mut written = Vec::new(alloc);
    for placed in extensions {
        push_extension(&mut written, *placed)?;
    }
    Ok(Row::of(written))
}

/// The members of a declaration.
fn own_members<'a>(alloc: Global, own: &OwnType<'a>) -> Result<Row<WrittenMember<'a>>, AllocError>
    ensures { IfOk result (λ members. map seen_written members ≡ (seen_type own.now).body.own) }
{
    let mut written = Vec::new(alloc);
    if let OwnType::Compound { file, index, decl } = own {
        push_members(&mut written, *file, *index, decl.members.as_slice())?;
    }
    Ok(Row::of(written))
}

/// The body of a type with these extensions.
fn own_body<'a>(
    alloc: Global,
    own: &OwnType<'a>,
    extensions: &[PlacedDecl<'a>],
) -> Result<Body<'a>, AllocError>
    ensures { IfOk result (λ body. seen_body body ≡ body_grouped extensions.now (seen_type own.now)) }
{
    let members = own_members(alloc, own)?;
    let more = more_members(alloc, extensions)?;
    Ok(Body {
        place: own.place(),
        heir: own.heir(),
        own: members,
        more,
    })
}

/// The bodies of all types.
pub fn bodies<'a>(
    alloc: Global,
    declarations: &Declarations<'a>,
) -> Result<Vec<Body<'a>>, AllocError>
    requires { AreGathered declarations.now }
    ensures { IfOk result (λ bodies. map seen_body bodies.items ≡ all_bodies (all_of declarations.now)) }
{
    own_bodies(alloc, declarations)
}

fn own_bodies<'a>(
    alloc: Global,
    declarations: &Declarations<'a>,
) -> Result<Vec<Body<'a>>, AllocError>
    requires { AreGathered declarations.now }
    ensures { IfOk result (λ bodies. map seen_body bodies.items ≡ bodies_grouped declarations.now.added.items 0 (map seen_type declarations.now.types.items)) }
{
    let mut bodies = Vec::new(alloc);
    let mut number: u32 = 0;
    for own in declarations.types.as_slice() {
        let extensions = declarations.extensions(TypeId(number));
        bodies.push(own_body(alloc, own, extensions)?)?;
        number += 1;
    }
    Ok(bodies)
}
