use crate::{
    CompoundDecl, EnumDecl, EnumExtension, Ident, MemberExtension, ModifierDecl, PhysicalDecl,
    UnitDecl,
};
use osc_base::{Place, Row, Text};

/// A source file: its imports, then its modifiers, then its declarations. `end` is where the file
/// ends.
///
/// The types of trees also hold values that no tokens spell, such as empty `items`. What their
/// descriptions say of a tree is said of one that tokens spell.
#[derive(Drop)]
pub struct File {
    pub imports: Row<Import>,
    pub modifiers: Row<ModifierDecl>,
    pub decls: Row<Declaration>,
    pub end: Place,
}

/// `import "a.osc"` or `import osc.standard`.
///
/// The place of `Named` is that of the string, and `name` the text between its quotes. `Dotted` has
/// one name or more, with points between them.
#[derive(Drop)]
pub enum Import {
    Named { place: Place, name: Text },
    Dotted { names: Row<Ident> },
}

/// One declaration or extension of a file.
#[derive(Drop)]
pub enum Declaration {
    Physical(PhysicalDecl),
    Unit(UnitDecl),
    Enum(EnumDecl),
    Compound(CompoundDecl),
    MemberExtension(MemberExtension),
    EnumExtension(EnumExtension),
}
