//! Rows of members as they are made, and where the members of types stand in them.

ghost use Rattle.std.specs.Prelude.{◌≡◌, ◌<◌, ℕ, [], ◌∷◌, Some, length, map, IfOk, OnOk};
ghost use Rattle.type_heads.specs.Bodied.{seen_body};
ghost use Rattle.type_heads.specs.Members.{members_of};
ghost use Rattle.type_heads.specs.Table.{all_types};
ghost use Rattle.type_members.specs.Ancestry.{HasEnd};
ghost use Rattle.type_members.specs.Cutting.{AreBare};
ghost use Rattle.type_members.specs.Listed.{AreSubtypes, seen_row};
ghost use Rattle.type_members.specs.Origins.{IsFirstRow};
ghost use Rattle.type_members.specs.RowEnds.{AreRows, IsAt, own_part};
ghost use Rattle.type_members.specs.Shared.{fronts_in, members_at, parts_from};

use crate::along::push_part;
use crate::bare::bare_types;
use crate::fronts::{Origin, depth_of, front_from, origin_of};
use crate::heirs::Heirs;
use crate::holes::Holes;
use crate::places::{Places, Span, standing_in};
use crate::rows::{MemberRow, RowEnd, Start, go_on_with_heirs, row_of};
use crate::{ListedMember, Subtypes};
use std::alloc::{AllocError, Global};
use type_heads::{Body, Heads, TypeId};

/// Rows of members, where the members of each type stand in them, and those that come down through each conditional subtype.
#[derive(Drop)]
pub struct PlacedRows<'a> {
    pub rows: Vec<MemberRow<'a>>,
    places: Places,
    holes: Holes,
}

/// A row of some members that begins with a type, and starts there.
fn row_at<'a>(
    alloc: Global,
    rows: &[MemberRow<'a>],
    start: Option<Start>,
    members: Vec<ListedMember<'a>>,
    of: TypeId,
    depth: usize,
) -> Result<MemberRow<'a>, AllocError>
    ensures start { IfOk result (λ row. row.start ≡ start) }
    ensures front { IfOk result (λ row. row.front.items ≡ parts_from (fronts_in rows.now) start) }
    ensures members { IfOk result (λ row. row.members.items ≡ members.entry.items) }
    ensures ends { IfOk result (λ row. row.ends.items ≡ record { of = of; len = length members.entry.items; depth = depth } ∷ []) }
{
    let front = match &start {
        Some(start) => front_from(alloc, rows, start)?,
        None => Vec::new(alloc),
    };
    let len = members.len();
    let ends = vec![in alloc; RowEnd { of, len, depth }]?;
    Ok(MemberRow {
        start,
        front,
        members,
        ends,
    })
}

impl<'a> PlacedRows<'a> {
    /// No rows, for so many types.
    fn new(alloc: Global, count: u32) -> Result<PlacedRows<'a>, AllocError>
        ensures { IfOk result (λ placed. placed.rows.items ≡ []) }
    {
        Ok(PlacedRows {
            rows: Vec::new(alloc),
            places: Places::new(alloc, count)?,
            holes: Holes::new(alloc, count)?,
        })
    }

    /// A row that begins with a type, and has what the type has beside the members of its base.
    fn row_beside(
        &self,
        alloc: Global,
        heads: &Heads,
        bodies: &[Body<'a>],
        subtypes: &Subtypes,
        start: Option<Start>,
        of: TypeId,
        depth: usize,
    ) -> Result<MemberRow<'a>, AllocError>
        requires subtypes { AreSubtypes heads.now (map seen_body bodies.now) subtypes.now }
        requires ended { depth < length heads.now → HasEnd heads.now (Some of) depth }
        ensures start { IfOk result (λ row. row.start ≡ start) }
        ensures front { IfOk result (λ row. row.front.items ≡ parts_from (fronts_in self.now.rows.items) start) }
        ensures members { IfOk result (λ row. seen_row row ≡ own_part heads.now (map seen_body bodies.now) of) }
        ensures ends { IfOk result (λ row. row.ends.items ≡ record { of = of; len = length row.members.items; depth = depth } ∷ []) }
    {
        let mut members = Vec::new(alloc);
        push_part(alloc, &mut members, heads, bodies, subtypes, of, depth)?;
        row_at(alloc, self.rows.as_slice(), start, members, of, depth)
    }

    /// A row that begins with a type. It has all members of the type, if it isn't known where those of its base stand.
    fn first_row(
        &self,
        alloc: Global,
        heads: &Heads,
        bodies: &[Body<'a>],
        subtypes: &Subtypes,
        bare: &[bool],
        of: TypeId,
        depth: usize,
    ) -> Result<MemberRow<'a>, AllocError>
        requires subtypes { AreSubtypes heads.now (map seen_body bodies.now) subtypes.now }
        requires bare { AreBare (map seen_body bodies.now) subtypes.now bare.now }
        requires rows { AreRows heads.now (map seen_body bodies.now) self.now.rows.items }
        requires ended { depth < length heads.now → HasEnd heads.now (Some of) depth }
        ensures { IfOk result (IsFirstRow heads.now (map seen_body bodies.now) self.now.rows.items of) }
    {
        let rows = self.rows.as_slice();
        let origin = origin_of(
            alloc,
            heads,
            bodies,
            subtypes,
            rows,
            &self.places,
            &self.holes,
            bare,
            of,
        )?;
        match origin {
            Origin::Nowhere => {
                let row = self.row_beside(alloc, heads, bodies, subtypes, None, of, depth)?;
                Ok(row)
            }
            Origin::Beside(start) => {
                let row = self.row_beside(alloc, heads, bodies, subtypes, Some(start), of, depth)?;
                Ok(row)
            }
            Origin::Within(start) => {
                let row = row_at(alloc, rows, Some(start), Vec::new(alloc), of, depth)?;
                Ok(row)
            }
            Origin::Unknown => {
                let row = row_of(alloc, heads, bodies, subtypes, of)?;
                Ok(row)
            }
        }
    }

    /// Makes a row that begins with a type.
    fn push_from(
        &mut self,
        alloc: Global,
        heads: &Heads,
        bodies: &[Body<'a>],
        subtypes: &Subtypes,
        heirs: &[Option<TypeId>],
        bare: &[bool],
        of: TypeId,
    ) -> Result<(), AllocError>
        requires subtypes { AreSubtypes heads.now (map seen_body bodies.now) subtypes.now }
        requires bare { AreBare (map seen_body bodies.now) subtypes.now bare.now }
        requires rows { AreRows heads.now (map seen_body bodies.now) self.old.rows.items }
        ensures { OnOk result (AreRows heads.now (map seen_body bodies.now) self.new.rows.items) }
    {
        let depth = depth_of(heads, self.rows.as_slice(), &self.places, of);
        let mut row = self.first_row(alloc, heads, bodies, subtypes, bare, of, depth)?;
        go_on_with_heirs(alloc, &mut row, heads, bodies, subtypes, heirs, of, depth)?;
        let number = self.rows.len();
        self.places.put(number, row.ends.as_slice());
        self.holes.put(number, row.members.as_slice());
        self.rows.push(row)?;
        Ok(())
    }

    /// Makes a row of the members of a type alone, and says where they stand.
    fn push_alone(
        &mut self,
        alloc: Global,
        heads: &Heads,
        bodies: &[Body<'a>],
        subtypes: &Subtypes,
        of: TypeId,
    ) -> Result<Span, AllocError>
        requires subtypes { AreSubtypes heads.now (map seen_body bodies.now) subtypes.now }
        requires rows { AreRows heads.now (map seen_body bodies.now) self.old.rows.items }
        ensures rows { OnOk result (AreRows heads.now (map seen_body bodies.now) self.new.rows.items) }
        ensures place { IfOk result (λ span. IsAt heads.now (map seen_body bodies.now) self.new.rows.items of span) }
        ensures kept { OnOk result ((t : ℕ) (s : Span) → IsAt heads.now (map seen_body bodies.now) self.old.rows.items t s → IsAt heads.now (map seen_body bodies.now) self.new.rows.items t s) }
    {
        let row = row_of(alloc, heads, bodies, subtypes, of)?;
        let span = Span {
            row: self.rows.len(),
            len: row.members.len(),
        };
        self.rows.push(row)?;
        Ok(span)
    }

    /// Where the members of a type stand. If its place isn't known, they get a row of their own.
    pub fn span_of(
        &mut self,
        alloc: Global,
        heads: &Heads,
        bodies: &[Body<'a>],
        subtypes: &Subtypes,
        of: TypeId,
    ) -> Result<Span, AllocError>
        requires subtypes { AreSubtypes heads.now (map seen_body bodies.now) subtypes.now }
        requires rows { AreRows heads.now (map seen_body bodies.now) self.old.rows.items }
        ensures rows { OnOk result (AreRows heads.now (map seen_body bodies.now) self.new.rows.items) }
        ensures place { IfOk result (λ span. IsAt heads.now (map seen_body bodies.now) self.new.rows.items of span) }
        ensures kept { OnOk result ((t : ℕ) (s : Span) → IsAt heads.now (map seen_body bodies.now) self.old.rows.items t s → IsAt heads.now (map seen_body bodies.now) self.new.rows.items t s) }
    {
        match standing_in(self.rows.as_slice(), &self.places, of) {
            Some(at) => Ok(at.span),
            None => self.push_alone(alloc, heads, bodies, subtypes, of),
        }
    }

    /// Rows of the members of all types.
    pub fn of(
        alloc: Global,
        heads: &Heads,
        bodies: &[Body<'a>],
        subtypes: &Subtypes,
    ) -> Result<PlacedRows<'a>, AllocError>
        requires { AreSubtypes heads.now (map seen_body bodies.now) subtypes.now }
        ensures { IfOk result (λ placed. AreRows heads.now (map seen_body bodies.now) placed.rows.items) }
    {
        let made = Heirs::of(alloc, heads, bodies)?;
        let order = made.order.as_slice();
        let bare = bare_types(alloc, heads, bodies, subtypes, order)?;
        let bare = bare.as_slice();
        let heirs = made.heirs.as_slice();
        let mut placed = PlacedRows::new(alloc, heads.count())?;
        for of in order {
            placed.push_from(alloc, heads, bodies, subtypes, heirs, bare, *of)?;
        }
        Ok(placed)
    }
}

/// Where the members of each type stand in rows.
pub fn all_spans<'a>(
    placed: &mut PlacedRows<'a>,
    alloc: Global,
    heads: &Heads,
    bodies: &[Body<'a>],
    subtypes: &Subtypes,
) -> Result<Vec<Span>, AllocError>
    requires subtypes { AreSubtypes heads.now (map seen_body bodies.now) subtypes.now }
    requires rows { AreRows heads.now (map seen_body bodies.now) placed.old.rows.items }
    ensures rows { OnOk result (AreRows heads.now (map seen_body bodies.now) placed.new.rows.items) }
    ensures lists { IfOk result (λ spans. map (members_at (fronts_in placed.new.rows.items) (map seen_row placed.new.rows.items)) spans.items ≡ map (members_of heads.now (map seen_body bodies.now)) (all_types heads.now)) }
{
    let mut spans = Vec::new(alloc);
    for number in 0..heads.count() {
        let span = placed.span_of(alloc, heads, bodies, subtypes, TypeId(number))?;
        spans.push(span)?;
    }
    Ok(spans)
}
