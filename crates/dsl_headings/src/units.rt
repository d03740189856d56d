//! Declarations of physical types and units.

ghost use Rattle.std.specs.Prelude.{◌≡◌, ◌≢◌, ◌∷◌};
ghost use Rattle.dsl_cursor.specs.Words.{[], Ok, Err, IfOk, IfErr, Memory, Part, nil, sub, read, in_row, Gives, rule_at, rest_at, IsRow};
ghost use Rattle.dsl_headings.specs.Words.{digits, optional_dash, IsUnitNext, IsUnitMore, written_tail};
ghost use Rattle.dsl_tree.specs.WrittenFile as written;
ghost use Rattle.dsl_headings.specs.Units as rest;

use dsl_cursor::Sign::{self, Mark, Word};
use dsl_cursor::{Cursor, Repeated, Stop, row_from, row_of};
use dsl_tree::osc_base::{Place, Row};
use dsl_tree::{BasePart, Digits, Ident, MarkKind, PhysicalDecl, Signed, UnitDecl, WordKind};
use std::alloc::Global;

#[tactic(auto, using(dsl_cursor::proofs::ReadSteps::read_step))]
fn dash(tokens: &mut Cursor<'_>) -> Option<Place>
    ensures { read Part.OptionalDash tokens.old ≡ Ok (optional_dash result, tokens.new) }
{
    tokens.take(Mark(MarkKind::Dash))
}

fn with_dash(dash: Option<Place>, number: Digits) -> Signed
    ensures { written.signed result ≡ sub (optional_dash dash) (digits number nil) }
{
    match dash {
        Some(place) => Signed {
            place,
            minus: true,
            number,
        },
        None => Signed {
            place: number.place,
            minus: false,
            number,
        },
    }
}

#[tactic(auto, using(dsl_cursor::proofs::ReadSteps::read_step))]
fn signed(tokens: &mut Cursor<'_>) -> Result<Signed, Stop>
    ensures { Gives written.signed (read Part.Signed tokens.old) result tokens.new }
{
    let dash = dash(tokens);
    let number = tokens.expect_number()?;
    Ok(with_dash(dash, number))
}

#[tactic(auto, using(dsl_cursor::proofs::ReadSteps::read_step))]
fn base(alloc: Global, tokens: &mut Cursor<'_>) -> Result<BasePart, Stop>
    ensures { Gives written.base (read Part.Base tokens.old) result tokens.new }
{
    let name = tokens.expect_base_name(alloc)?;
    tokens.expect(Mark(MarkKind::Colon))?;
    let dash = dash(tokens);
    let exponent = with_dash(dash, tokens.expect_exponent()?);
    Ok(BasePart { name, exponent })
}

/// The closing bracket and the line end.
pub fn bracket_and_line_end(tokens: &mut Cursor<'_>) -> Result<(), Stop>
    ensures { Gives (λ ended. written.bases_end) (in_row read (rule_at Part.UnitTail 0) tokens.old) result tokens.new }
{
    tokens.expect(Mark(MarkKind::CloseRound))?;
    tokens.expect(Sign::Newline)?;
    Ok(())
}

/// The bases of a physical type after its first one.
struct MoreBases;

impl Repeated for MoreBases {
    type Tree = BasePart;

    ghost tail = { Part.BasesTail };

    ghost rest = { written.bases_tail };

    #[tactic(auto, using(crate::proofs::Steps::step_bases_tail, dsl_cursor::proofs::Lengths::lengths))]
    fn next(alloc: Global, tokens: &mut Cursor<'_>) -> Result<Option<BasePart>, Stop> {
        if tokens.take(Mark(MarkKind::Comma)).is_none() {
            return Ok(None);
        }
        Ok(Some(base(alloc, tokens)?))
    }
}

fn bases_of_type(alloc: Global, tokens: &mut Cursor<'_>) -> Result<Row<BasePart>, Stop>
    ensures { Gives written.type_bases (in_row read (rest_at Part.Declaration 0 5) tokens.old) result tokens.new }
{
    let first = base(alloc, tokens)?;
    let bases = row_from::<MoreBases>(alloc, first, tokens)?;
    bracket_and_line_end(tokens)?;
    Ok(bases)
}

/// `type NAME is SI(BASES)` and the line end.
pub fn type_declaration(alloc: Global, tokens: &mut Cursor<'_>) -> Result<PhysicalDecl, Stop>
    ensures { Gives written.type_declaration (in_row read (rule_at Part.Declaration 0) tokens.old) result tokens.new }
{
    let place = tokens.expect(Word(WordKind::TypeWord))?;
    let name = tokens.expect_name(alloc)?;
    tokens.expect(Word(WordKind::IsWord))?;
    tokens.expect(Sign::Si)?;
    tokens.expect(Mark(MarkKind::OpenRound))?;
    let bases = bases_of_type(alloc, tokens)?;
    Ok(PhysicalDecl { place, name, bases })
}

/// What stands after the bases of a unit.
#[derive(Drop)]
struct UnitEnd {
    factor: Option<Signed>,
    offset: Option<Signed>,
}

fn offset_rest(tokens: &mut Cursor<'_>) -> Result<Signed, Stop>
    ensures { Gives written.offset_rest (in_row read (rest_at Part.UnitMore 2 1) tokens.old) result tokens.new }
{
    tokens.expect(Mark(MarkKind::Colon))?;
    let offset = signed(tokens)?;
    bracket_and_line_end(tokens)?;
    Ok(offset)
}

#[tactic(auto, using(dsl_cursor::proofs::ReadSteps::read_step))]
fn factor_tail(tokens: &mut Cursor<'_>) -> Result<Option<Signed>, Stop>
    ensures { Gives written.factor_tail (read Part.FactorTail tokens.old) result tokens.new }
{
    if tokens.begins(Mark(MarkKind::CloseRound)) {
        bracket_and_line_end(tokens)?;
        return Ok(None);
    }
    tokens.expect(Mark(MarkKind::Comma))?;
    tokens.expect(Sign::Offset)?;
    Ok(Some(offset_rest(tokens)?))
}

fn factor_rest(tokens: &mut Cursor<'_>) -> Result<UnitEnd, Stop>
    ensures { Gives rest.written_factor_rest (in_row read (rest_at Part.UnitMore 1 1) tokens.old) result tokens.new }
{
    tokens.expect(Mark(MarkKind::Colon))?;
    let factor = Some(signed(tokens)?);
    let offset = factor_tail(tokens)?;
    Ok(UnitEnd { factor, offset })
}

/// What stands after a base of a unit: another base, or the end of the declaration.
#[derive(Drop)]
enum UnitNext {
    Base(BasePart),
    End(UnitEnd),
}

/// What stands after a comma.
#[tactic(auto, using(crate::proofs::Steps::step_unit_more, dsl_cursor::proofs::Lengths::lengths))]
fn unit_more(alloc: Global, tokens: &mut Cursor<'_>) -> Result<UnitNext, Stop>
    ensures { IsUnitMore tokens.old result tokens.new }
{
    if tokens.begins_base_name() {
        return Ok(UnitNext::Base(base(alloc, tokens)?));
    }
    if tokens.take(Sign::Factor).is_some() {
        return Ok(UnitNext::End(factor_rest(tokens)?));
    }
    tokens.expect(Sign::Offset)?;
    let offset = Some(offset_rest(tokens)?);
    Ok(UnitNext::End(UnitEnd {
        factor: None,
        offset,
    }))
}

#[tactic(auto, using(crate::proofs::Steps::step_unit_tail, dsl_cursor::proofs::Lengths::lengths))]
fn unit_next(alloc: Global, tokens: &mut Cursor<'_>) -> Result<UnitNext, Stop>
    ensures { IsUnitNext tokens.old result tokens.new }
{
    if tokens.begins(Mark(MarkKind::CloseRound)) {
        bracket_and_line_end(tokens)?;
        return Ok(UnitNext::End(UnitEnd {
            factor: None,
            offset: None,
        }));
    }
    tokens.expect(Mark(MarkKind::Comma))?;
    match unit_more(alloc, tokens)? {
        UnitNext::Base(base) => Ok(UnitNext::Base(base)),
        UnitNext::End(end) => Ok(UnitNext::End(end)),
    }
}

/// The bases of a unit, and what stands after them.
#[derive(Drop)]
struct UnitBases {
    bases: Row<BasePart>,
    end: UnitEnd,
}

/// The bases of a unit from this one on, and what stands after them.
fn unit_rest(alloc: Global, first: BasePart, tokens: &mut Cursor<'_>) -> Result<UnitBases, Stop>
    ensures ok { IfOk result (λ unit. IsRow Part.UnitTail (written_tail unit.end) (first ∷ []) unit.bases tokens.old tokens.new) }
    ensures err { IfErr result (λ e. e ≢ Memory → read Part.UnitTail tokens.old ≡ Err e) }
{
    let mut bases = row_of(alloc, first)?;
    'bases: loop {
        let next = unit_next(alloc, tokens)?;
        match next {
            UnitNext::Base(base) => bases.push(base)?,
            UnitNext::End(end) => return Ok(UnitBases { bases, end }),
        }
    }
}

fn bases_of_unit(alloc: Global, tokens: &mut Cursor<'_>) -> Result<UnitBases, Stop>
    ensures { Gives rest.written_unit_bases (in_row read (rest_at Part.Declaration 1 7) tokens.old) result tokens.new }
{
    let first = base(alloc, tokens)?;
    let unit = unit_rest(alloc, first, tokens)?;
    Ok(unit)
}

/// A unit after its own name.
#[derive(Drop)]
struct UnitName {
    of: Ident,
    unit: UnitBases,
}

fn unit_of(alloc: Global, tokens: &mut Cursor<'_>) -> Result<UnitName, Stop>
    ensures { Gives rest.written_unit_of (in_row read (rest_at Part.Declaration 1 2) tokens.old) result tokens.new }
{
    tokens.expect(Word(WordKind::OfWord))?;
    let of = tokens.expect_name(alloc)?;
    tokens.expect(Word(WordKind::IsWord))?;
    tokens.expect(Sign::Si)?;
    tokens.expect(Mark(MarkKind::OpenRound))?;
    let unit = bases_of_unit(alloc, tokens)?;
    Ok(UnitName { of, unit })
}

/// `unit NAME of OF is SI(BASES, factor: F, offset: O)` and the line end.
pub fn unit_declaration(alloc: Global, tokens: &mut Cursor<'_>) -> Result<UnitDecl, Stop>
    ensures { Gives written.unit_declaration (in_row read (rule_at Part.Declaration 1) tokens.old) result tokens.new }
{
    let place = tokens.expect(Word(WordKind::UnitWord))?;
    let name = tokens.expect_name(alloc)?;
    let UnitName { of, unit } = unit_of(alloc, tokens)?;
    let UnitBases { bases, end } = unit;
    let UnitEnd { factor, offset } = end;
    Ok(UnitDecl {
        place,
        name,
        of,
        bases,
        factor,
        offset,
    })
}
