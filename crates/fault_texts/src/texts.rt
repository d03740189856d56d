//! The text of each code and of each status.

ghost use Rattle.std.specs.Prelude.{◌≡◌};
ghost use Rattle.fault_texts.specs.Said.{said_by};
ghost use Rattle.fault_texts.specs.Table.{said_of_fault, said_of_status};

use crate::form::CodeText;
use crate::topics::Status;
use crate::{grammar, lexical, meaning, statuses};
use osc_base::FaultCode;

/// What is said of a fault's code.
pub fn fault_text(code: FaultCode) -> CodeText
    ensures { said_by result ≡ said_of_fault code }
{
    match code {
        FaultCode::Utf8 => CodeText::of(lexical::UTF8),
        FaultCode::Tab => CodeText::of(lexical::TAB),
        FaultCode::Indent => CodeText::of(lexical::INDENT),
        FaultCode::Character => CodeText::of(lexical::CHARACTER),
        FaultCode::Text => CodeText::of(lexical::TEXT),
        FaultCode::Number => CodeText::of(lexical::NUMBER),
        FaultCode::Deep => CodeText::of(lexical::DEEP),
        FaultCode::Syntax => CodeText::of(grammar::SYNTAX),
        FaultCode::LeftOut => CodeText::of(grammar::LEFT_OUT),
        FaultCode::MissingImport => CodeText::of(meaning::MISSING_IMPORT),
        FaultCode::TooManyFiles => CodeText::of(meaning::TOO_MANY_FILES),
        FaultCode::Twice => CodeText::of(meaning::TWICE),
        FaultCode::Unknown => CodeText::of(meaning::UNKNOWN),
        FaultCode::Cycle => CodeText::of(meaning::CYCLE),
        FaultCode::WrongKind => CodeText::of(meaning::WRONG_KIND),
        FaultCode::Clash => CodeText::of(meaning::CLASH),
        FaultCode::UnitClash => CodeText::of(meaning::UNIT_CLASH),
        FaultCode::NotConstant => CodeText::of(meaning::NOT_CONSTANT),
        FaultCode::ZeroDivisor => CodeText::of(meaning::ZERO_DIVISOR),
        FaultCode::BadArgument => CodeText::of(meaning::BAD_ARGUMENT),
        FaultCode::TwoDo => CodeText::of(meaning::TWO_DO),
        FaultCode::ChoiceLabel => CodeText::of(meaning::CHOICE_LABEL),
        FaultCode::Wide => CodeText::of(meaning::WIDE),
        FaultCode::TooMany => CodeText::of(meaning::TOO_MANY),
        FaultCode::NoScenario => CodeText::of(meaning::NO_SCENARIO),
        FaultCode::TooLarge => CodeText::of(meaning::TOO_LARGE),
        FaultCode::Ambiguous => CodeText::of(meaning::AMBIGUOUS),
        FaultCode::Index => CodeText::of(meaning::INDEX),
    }
}

/// What is said of a status.
pub fn status_text(status: Status) -> CodeText
    ensures { said_by result ≡ said_of_status status }
{
    match status {
        Status::Words => CodeText::of(statuses::WORDS),
        Status::Text => CodeText::of(statuses::TEXT),
        Status::Shelf => CodeText::of(statuses::SHELF),
        Status::Sink => CodeText::of(statuses::SINK),
        Status::Memory => CodeText::of(statuses::MEMORY),
        Status::Arguments => CodeText::of(statuses::ARGUMENTS),
    }
}
