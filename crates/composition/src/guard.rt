use expr_nodes::Path;

/// A condition under which a part of a scene is there.
#[derive(Drop)]
pub enum Guard {
    /// The `one_of` at the path chose this member, counted from 0.
    Choice { phase: Path, member: u32 },
    /// The field at the path holds this number.
    Value { path: Path, value: i64 },
}
