use osc_base::{Place, Row, Text};

/// A token of a source file, and where it stands.
#[derive(Drop)]
pub struct Token {
    pub place: Place,
    pub kind: TokenKind,
}

/// The tokens of a file, in order. As the lexer gives them, the last one, and no other, is `End`.
pub type Tokens = Row<Token>;

/// What a token is.
///
/// A number is `digits` divided by 10 to the power `places`: `1.50` has digits 150 and places 2, and a
/// whole number has places 0. `Physical` is a number with the name of a unit directly after it.
/// `Chars` is a string, with the text between its quotes once its escapes are read.
#[derive(Drop)]
pub enum TokenKind {
    /// The end of a logical line, after its last token.
    Newline,
    /// A line that is wider than all that is opened, before its first token.
    Indent,
    /// The end of a block, before the first token of the narrower line or at the end of the file.
    Dedent,
    /// The end of the file.
    End,
    Mark(MarkKind),
    Word(WordKind),
    LeftOut(ExcludedWord),
    Name(Text),
    Number { digits: u64, places: u8 },
    Physical { digits: u64, places: u8, unit: Text },
    Chars(Text),
}

/// The marks `( ) [ ] : , . .. = == != < <= > >= => + - * / !`, in this order.
#[derive(Clone, Copy, PartialEq, Eq)]
pub enum MarkKind {
    OpenRound,
    CloseRound,
    OpenSquare,
    CloseSquare,
    Colon,
    Comma,
    Dot,
    TwoDots,
    Assign,
    Equal,
    Differ,
    Below,
    AtMost,
    Above,
    AtLeast,
    Arrow,
    Plus,
    Dash,
    Star,
    Slash,
    Bang,
}

/// The reserved words, each with `Word` after it.
#[derive(Clone, Copy, PartialEq, Eq)]
pub enum WordKind {
    ImportWord,
    TypeWord,
    UnitWord,
    IsWord,
    OfWord,
    EnumWord,
    StructWord,
    ActorWord,
    ActionWord,
    ScenarioWord,
    InheritsWord,
    ExtendWord,
    ListWord,
    KeepWord,
    HardWord,
    DefaultWord,
    RemoveDefaultWord,
    DoWord,
    SerialWord,
    ParallelWord,
    OneOfWord,
    WaitWord,
    ElapsedWord,
    WithWord,
    ItWord,
    InWord,
    RangeWord,
    AndWord,
    OrWord,
    NotWord,
    TrueWord,
    FalseWord,
    ModifierWord,
}

/// The words of the language that this profile leaves out: they are no names, and no rule takes one.
#[derive(Clone, Copy, PartialEq, Eq)]
pub enum ExcludedWord {
    NamespaceWord,
    ExportWord,
    EventWord,
    OnWord,
    UntilWord,
    EmitWord,
    RiseWord,
    FallWord,
    EveryWord,
    VarWord,
    SampleWord,
    GlobalWord,
    DefWord,
    ExternalWord,
    CallWord,
    CoverWord,
    RecordWord,
    ModifierWord,
}
