//! The tokens of the source and the trees that they spell.
#![tactic(auto)]

mod compounds;
mod enums;
mod expr;
mod file;
mod laws;
mod modifiers;
mod parts;
mod phases;
mod rules;
mod token;
mod units;

pub use compounds::{
    CompoundDecl, CompoundKind, ConditionValue, FieldDecl, Heir, HeirCondition, Member,
    MemberExtension,
};
pub use enums::{EnumDecl, EnumExtension, EnumItem};
pub use expr::{Expr, Further, Operator, RelationSign, Suffix};
pub use file::{Declaration, File, Import};
pub use laws::{
    faults_spell_nothing, forests_are_trees, one_file, one_first_fault, one_spelling, one_tree,
    tree_or_fault, trees_are_files,
};
pub use modifiers::{ModifierDecl, ModifierPart};
pub use parts::{Digits, Ident, QName, Signed};
pub use phases::{
    Argument, CompKind, CompNode, InvokeHead, InvokeNode, InvokePart, ModifierNode, Phase, WaitNode,
};
pub use rules::{KeepKind, PathHead, PathNode, RuleDecl};
pub use token::{ExcludedWord, MarkKind, Token, TokenKind, Tokens, WordKind};
pub use units::{BasePart, PhysicalDecl, UnitDecl};

// Crates below, for the crates above.
pub use osc_base;
