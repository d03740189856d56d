use crate::{Digits, Ident, QName};
use osc_base::{Place, Row};

/// A member of an enum, and the whole number that is written after it.
#[derive(Drop)]
pub struct EnumItem {
    pub name: Ident,
    pub number: Option<Digits>,
}

/// `enum NAME: [ITEMS]`, with one item or more. The place is that of `enum`.
#[derive(Drop)]
pub struct EnumDecl {
    pub place: Place,
    pub name: Ident,
    pub items: Row<EnumItem>,
}

/// `extend NAME: [ITEMS]`, with one item or more. The place is that of `extend`.
#[derive(Drop)]
pub struct EnumExtension {
    pub place: Place,
    pub name: QName,
    pub items: Row<EnumItem>,
}
