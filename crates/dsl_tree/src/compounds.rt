use crate::{Expr, Ident, Phase, QName, RuleDecl};
use osc_base::{Place, Row};

/// The value that a conditional subtype asks for: `true`, `a` or `colour!red`. The place of `Truth`
/// is that of its word.
#[derive(Drop)]
pub enum ConditionValue {
    Truth { place: Place, value: bool },
    Name(Ident),
    EnumName { of: Ident, member: Ident },
}

/// `(FIELD == VALUE)` after the base of a conditional subtype.
#[derive(Drop)]
pub struct HeirCondition {
    pub field: Ident,
    pub value: ConditionValue,
}

/// `inherits BASE`, and the condition after it.
#[derive(Drop)]
pub struct Heir {
    pub base: QName,
    pub condition: Option<HeirCondition>,
}

/// The words with which a type with members begins.
#[derive(Clone, Copy, PartialEq, Eq)]
pub enum CompoundKind {
    Struct,
    Actor,
    Action,
    Scenario,
}

/// A declaration of a type with members: `struct`, `actor`, `action` or `scenario`. The place is that
/// of this word.
///
/// The name of a struct or actor has no owner. Empty `members` stand for a line without a block.
#[derive(Drop)]
pub struct CompoundDecl {
    pub place: Place,
    pub kind: CompoundKind,
    pub name: QName,
    pub heir: Option<Heir>,
    pub members: Row<Member>,
}

/// `extend NAME:` and a block of one member or more. The place is that of `extend`.
#[derive(Drop)]
pub struct MemberExtension {
    pub place: Place,
    pub name: QName,
    pub members: Row<Member>,
}

/// A member of a type. The place of `Do` is that of the word `do`.
#[derive(Drop)]
pub enum Member {
    Field(FieldDecl),
    Rule(RuleDecl),
    Do { place: Place, phase: Phase },
}

/// `NAMES: list of OF = INITIAL with:` and a block of rules.
///
/// There is one name or more. `list` is the place of the word `list`, if it is there. Empty `rules`
/// stand for a line without a block.
#[derive(Drop)]
pub struct FieldDecl {
    pub names: Row<Ident>,
    pub list: Option<Place>,
    pub of: Ident,
    pub initial: Option<Expr>,
    pub rules: Row<RuleDecl>,
}
