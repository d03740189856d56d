/// A declaration of a program: the number of its file, and its place among the declarations of that file. The
/// place of a modifier is that among the modifiers of the file.
#[derive(Debug, Clone, Copy, PartialEq, Eq)]
pub struct DeclId {
    pub file: u32,
    pub index: u32,
}

/// What a name is the name of: a type, enum, struct or actor; a unit; an action or scenario; a modifier.
#[derive(Clone, Copy, PartialEq, Eq)]
pub enum NameKind {
    TypeName,
    UnitName,
    BehaviourName,
    ModifierName,
}
