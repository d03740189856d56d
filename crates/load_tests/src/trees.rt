use dsl_lexer::lex;
use dsl_parser::parse;
use dsl_spell::spell;
use dsl_tree::{Token, TokenKind};
use std::test::Fail;

/// A cut-in: two vehicles in two phases, one after the other.
const CUT_IN: &str = "import osc.standard
scenario top:
    ego: vehicle
    npc: vehicle
    do serial:
        approach: parallel:
            ego.drive(duration: 3s) with:
                lane(1)
                speed(20mps)
                position(100m, at: start)
            npc.drive(duration: 3s) with:
                lane(2)
                speed(25mps)
                position([10m..20m], behind: ego, at: start)
        change: parallel:
            ego.drive(duration: 3s) with:
                lane(1)
                speed(20mps)
            npc.drive(duration: 3s) with:
                lane(2, at: start)
                speed(25mps)
                lane(same_as: ego, at: end)
                position([5m..30m], ahead_of: ego, at: end)
";

/// Whether two tokens are of one kind, with equal text or number.
fn is_alike(one: &TokenKind, other: &TokenKind) -> bool {
    match (one, other) {
        (TokenKind::Newline, TokenKind::Newline)
        | (TokenKind::Indent, TokenKind::Indent)
        | (TokenKind::Dedent, TokenKind::Dedent)
        | (TokenKind::End, TokenKind::End) => true,
        (TokenKind::Mark(one), TokenKind::Mark(other)) => one == other,
        (TokenKind::Word(one), TokenKind::Word(other)) => one == other,
        (TokenKind::Name(one), TokenKind::Name(other)) => one == other,
        (
            TokenKind::Physical {
                digits,
                places,
                unit,
            },
            TokenKind::Physical {
                digits: digits_too,
                places: places_too,
                unit: unit_too,
            },
        ) => digits == digits_too && places == places_too && unit == unit_too,
        (
            TokenKind::Number { digits, places },
            TokenKind::Number {
                digits: digits_too,
                places: places_too,
            },
        ) => digits == digits_too && places == places_too,
        _ => false,
    }
}

fn are_alike(tokens: &[Token], others: &[Token]) -> bool {
    tokens.len() == others.len()
        && tokens
            .iter()
            .zip(others)
            .all(|(token, other)| is_alike(&token.kind, &other.kind))
}

#[test]
fn spelled_again(rt: HostRuntime) -> Result<(), Fail> {
    let alloc = rt.alloc();
    let Ok(tokens) = lex(alloc, 0, CUT_IN.as_bytes()) else {
        return Ok(assert!(rt; false, "the source has no tokens"));
    };
    let Ok(file) = parse(alloc, &tokens) else {
        return Ok(assert!(rt; false, "the tokens have no tree"));
    };
    let spelled = spell(alloc, &file)?;
    assert!(rt; are_alike(tokens.as_slice(), spelled.as_slice()));
    Ok(())
}
