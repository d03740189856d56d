/// What a piece of the source looks like. `specs/Shapes.antt` says which texts have each shape.
#[derive(Clone, Copy, PartialEq, Eq)]
pub enum Shape {
    /// One space.
    Space,
    /// One tab.
    Tab,
    /// A comment, without its line end.
    Comment,
    /// A line end.
    LineEnd,
    /// A backslash and the line end directly after it.
    Joint,
    /// A mark, as `<=`.
    MarkShape,
    /// A name or a word.
    NameShape,
    /// A number, with the name characters directly after it.
    NumberShape,
    /// A string with its quotes.
    StringShape,
}
