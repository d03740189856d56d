use crate::{Ident, Signed};
use osc_base::{Place, Row};

/// A base of a physical type or unit with its exponent, as `m: 1` or `s: -2`. The number of the
/// exponent is whole and at most 9; a minus may stand before it.
#[derive(Drop)]
pub struct BasePart {
    pub name: Ident,
    pub exponent: Signed,
}

/// `type NAME is SI(BASES)`, with one base or more. The place is that of `type`.
#[derive(Drop)]
pub struct PhysicalDecl {
    pub place: Place,
    pub name: Ident,
    pub bases: Row<BasePart>,
}

/// `unit NAME of OF is SI(BASES, factor: F, offset: O)`, with one base or more. Either of factor
/// and offset may be missing. The place is that of `unit`.
#[derive(Drop)]
pub struct UnitDecl {
    pub place: Place,
    pub name: Ident,
    pub of: Ident,
    pub bases: Row<BasePart>,
    pub factor: Option<Signed>,
    pub offset: Option<Signed>,
}
