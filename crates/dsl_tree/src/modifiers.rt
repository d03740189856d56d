use crate::{Ident, ModifierNode, RuleDecl};
use osc_base::{Place, Row};

/// `modifier NAME:` and a block of one part or more. The place is that of `modifier`.
#[derive(Drop)]
pub struct ModifierDecl {
    pub place: Place,
    pub name: Ident,
    pub parts: Row<ModifierPart>,
}

/// A line of a modifier: a parameter `NAME: OF`, a rule, or another modifier that is applied.
#[derive(Drop)]
pub enum ModifierPart {
    Parameter { name: Ident, of: Ident },
    Rule(RuleDecl),
    Apply(ModifierNode),
}
