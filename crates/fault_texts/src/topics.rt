//! What `osc explain` tells of, and the words that name it.

ghost use Rattle.std.specs.Prelude.{◌≡◌, ◌≤◌, IfSome};
ghost use Rattle.fault_texts.specs.Topics as topics;

use osc_base::FaultCode;

/// A status with which `osc` refuses. That of a fault, 3, isn't among them: its code tells more.
#[derive(Debug, Clone, Copy, PartialEq, Eq)]
pub enum Status {
    /// The words are refused.
    Words = 4,
    /// The text of a run or of a record is refused.
    Text = 5,
    /// A file isn't there, is too long or can't be read.
    Shelf = 6,
    /// Standard output failed.
    Sink = 7,
    /// Out of memory.
    Memory = 8,
    /// The arguments can't be read.
    Arguments = 9,
}

impl Status {
    /// The status with which the program ends, from 4 to 9.
    pub fn number(self) -> u8
        ensures { result ≡ topics.status_number self }
    {
        self as u8
    }
}

/// What there is to explain.
#[derive(Debug, Clone, Copy, PartialEq, Eq)]
pub enum Topic {
    Fault(FaultCode),
    Status(Status),
}

/// All codes, in the order of their numbers.
pub(crate) const CODES: [FaultCode; 28] = [
    FaultCode::Utf8,
    FaultCode::Tab,
    FaultCode::Indent,
    FaultCode::Character,
    FaultCode::Text,
    FaultCode::Number,
    FaultCode::Deep,
    FaultCode::Syntax,
    FaultCode::LeftOut,
    FaultCode::MissingImport,
    FaultCode::TooManyFiles,
    FaultCode::Twice,
    FaultCode::Unknown,
    FaultCode::Cycle,
    FaultCode::WrongKind,
    FaultCode::Clash,
    FaultCode::UnitClash,
    FaultCode::NotConstant,
    FaultCode::ZeroDivisor,
    FaultCode::BadArgument,
    FaultCode::TwoDo,
    FaultCode::ChoiceLabel,
    FaultCode::Wide,
    FaultCode::TooMany,
    FaultCode::NoScenario,
    FaultCode::TooLarge,
    FaultCode::Ambiguous,
    FaultCode::Index,
];

/// All statuses that refuse, in the order of their numbers.
pub(crate) const STATUSES: [Status; 6] = [
    Status::Words,
    Status::Text,
    Status::Shelf,
    Status::Sink,
    Status::Memory,
    Status::Arguments,
];

/// The topic that a word names by its number: `201`, `E201` or `error[201]`. `None` if no topic has it.
pub fn topic_named(word: &str) -> Option<Topic>
    ensures { result ≡ topics.topic_named word.now }
{
    let number = number_in(word.as_bytes())?;
    match code_numbered(number) {
        Some(code) => Some(Topic::Fault(code)),
        None => status_numbered(number).map(Topic::Status),
    }
}

fn code_numbered(number: u16) -> Option<FaultCode>
    ensures { result ≡ topics.code_numbered number }
{
    CODES.iter().copied().find(|code| code.number() == number)
}

fn status_numbered(number: u16) -> Option<Status>
    ensures { result ≡ topics.status_numbered number }
{
    STATUSES
        .iter()
        .copied()
        .find(|status| u16::from(status.number()) == number)
}

/// The number that a word names: one digit, three digits, `E` and three digits, or three digits in `error[...]`, as messages have
/// them.
fn number_in(word: &[u8]) -> Option<u16>
    ensures { result ≡ topics.number_in word.now }
{
    match word {
        [a] => digit(*a),
        [a, b, c] => three_digits(*a, *b, *c),
        [b'E', a, b, c] => three_digits(*a, *b, *c),
        [b'e', b'r', b'r', b'o', b'r', b'[', a, b, c, b']'] => three_digits(*a, *b, *c),
        _ => None,
    }
}

/// The number that three digits write.
fn three_digits(a: u8, b: u8, c: u8) -> Option<u16>
    ensures { result ≡ topics.three_digits a b c }
{
    let (a, b, c) = (digit(a)?, digit(b)?, digit(c)?);
    Some(100 * a + 10 * b + c)
}

fn digit(byte: u8) -> Option<u16>
    ensures digit { result ≡ topics.digit byte }
    ensures small { IfSome result (λ d. d ≤ 9) }
{
    if b'0' <= byte && byte <= b'9' {
        Some(u16::from(byte) - 48)
    } else {
        None
    }
}
