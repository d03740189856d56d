ghost use Rattle.std.specs.Prelude.{◌≡◌};
ghost use Rattle.osc_base.specs.FaultCodes.{number_of};

/// A place in the source: the number of the file, the line and column of a byte, and the number of
/// tokens of the file before it.
///
/// Lines and columns count from 1. A column is 1 plus the number of bytes before the place in its line.
#[derive(Debug, Clone, Copy, PartialEq, Eq)]
pub struct Place {
    pub file: u32,
    pub line: u32,
    pub column: u32,
    pub token: u32,
}

/// What is wrong at a place of the source, with the number by which it is printed.
///
/// `docs/FORMATS.md` says at which token each stands. From 101 on are faults of the bytes, from 201 of
/// the tokens, from 301 of imports, and from 311 of the meaning.
#[derive(Debug, Clone, Copy, PartialEq, Eq)]
pub enum FaultCode {
    /// A byte that begins no whole character of UTF-8.
    Utf8 = 101,
    /// A tab before the first token of a line.
    Tab = 102,
    /// A line that is neither as wide as an open block nor wider than all of them.
    Indent = 103,
    /// A byte that begins no token, or a control character in a string.
    Character = 104,
    /// A quote that begins no string.
    Text = 105,
    /// A number that isn't well formed or has too many digits.
    Number = 106,
    /// More than 64 open brackets and blocks.
    Deep = 107,
    /// A token with which no program goes on.
    Syntax = 201,
    /// A word of the full language that this profile leaves out.
    LeftOut = 202,
    /// An import of a file that isn't there.
    MissingImport = 301,
    /// An import that brings one file more than 64.
    TooManyFiles = 302,
    /// A name that is declared before.
    Twice = 311,
    /// A name that isn't declared.
    Unknown = 312,
    /// A declaration that depends on itself.
    Cycle = 313,
    /// A name or part of a kind that can't stand there.
    WrongKind = 314,
    /// Parts whose kinds don't fit each other or their place.
    Clash = 315,
    /// Parts whose units have different exponents.
    UnitClash = 316,
    /// A divisor or an index that isn't constant.
    NotConstant = 317,
    /// A divisor of 0.
    ZeroDivisor = 318,
    /// An argument that its declaration doesn't take.
    BadArgument = 319,
    /// A second `do` in one list of members.
    TwoDo = 320,
    /// A label inside a member of `one_of`, read outside of that member.
    ChoiceLabel = 321,
    /// A calculation whose scale or reach passes 2^120.
    Wide = 322,
    /// A scenario with more objects, slots, rules or copied tokens than the limits.
    TooMany = 323,
    /// The named scenario isn't declared.
    NoScenario = 324,
    /// A number that passes its limit.
    TooLarge = 325,
    /// A member name that two enums have.
    Ambiguous = 326,
    /// An index outside of its list, or of what is no list.
    Index = 327,
}

impl FaultCode {
    /// The number by which the code is printed, from 101 to 327.
    pub fn number(self) -> u16
        ensures { result ≡ number_of self }
    {
        self as u16
    }
}

/// A fault of the source: where it is, and what is wrong there.
#[derive(Debug, Clone, Copy, PartialEq, Eq)]
pub struct Fault {
    pub place: Place,
    pub code: FaultCode,
}
