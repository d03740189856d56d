//! Operands of a token or two.

ghost use Rattle.std.specs.Prelude.{◌≡◌, ◌∷◌, IfSome, IfNone};
ghost use Rattle.dsl_cursor.specs.Words.{true, false, code, has, nil, seen, sub, Part, starts, ident, read, in_row, Gives, enum_member as member_forest, rule_at};
ghost use Rattle.dsl_expressions.specs.Words.{at_level, bracket_codes, truth_codes, value_codes};

use dsl_cursor::{Cursor, Stop, enum_member};
use dsl_tree::osc_base::Place;
use dsl_tree::{Expr, Ident, TokenKind, WordKind};
use std::alloc::Global;

/// The operand that is the token, if it is a word that is one.
#[tactic(auto, using(crate::proofs::LeafForests::word_forests))]
fn word_operand(place: Place, kind: &TokenKind) -> Option<Expr>
    ensures some { IfSome result (λ e. at_level 9 e ≡ seen place kind.now nil) }
    ensures fits { IfSome result (λ e. has truth_codes (code kind.now) ≡ true) }
    ensures none { IfNone result (has truth_codes (code kind.now) ≡ false) }
{
    match kind {
        TokenKind::Word(WordKind::TrueWord) => Some(Expr::Truth { place, value: true }),
        TokenKind::Word(WordKind::FalseWord) => Some(Expr::Truth {
            place,
            value: false,
        }),
        TokenKind::Word(WordKind::ItWord) => Some(Expr::It(place)),
        TokenKind::Word(WordKind::ActorWord) => Some(Expr::Actor(place)),
        _ => None,
    }
}

/// The operand that is the first token, which has to be a word.
#[tactic(auto, using(crate::proofs::Steps::step_primary), unfolding(dsl_cursor::specs::Descent::take))]
fn word_leaf(tokens: &mut Cursor<'_>) -> Result<Expr, Stop>
    requires word { starts value_codes tokens.old ≡ false }
    requires plain { starts bracket_codes tokens.old ≡ false }
    ensures { Gives (at_level 9) (read Part.Primary tokens.old) result tokens.new }
{
    let (first, _) = tokens.split();
    let Some(operand) = word_operand(first.place, &first.kind) else {
        return Err(tokens.miss());
    };
    tokens.pass();
    Ok(operand)
}

#[tactic(auto, using(crate::proofs::LeafForests::name_forests))]
fn name_node(name: Ident, member: Option<Ident>) -> Expr
    ensures { at_level 9 result ≡ ident name (sub (member_forest member) nil) }
{
    match member {
        Some(member) => Expr::EnumName { of: name, member },
        None => Expr::Name(name),
    }
}

/// A name with the member after it.
fn name_operand(alloc: Global, tokens: &mut Cursor<'_>) -> Result<Expr, Stop>
    ensures { Gives (at_level 9) (in_row read (rule_at Part.Primary 6) tokens.old) result tokens.new }
{
    let name = tokens.expect_name(alloc)?;
    let member = enum_member(alloc, tokens)?;
    Ok(name_node(name, member))
}

/// An operand that begins with no bracket and isn't a range.
#[tactic(auto, using(crate::proofs::Steps::step_primary, crate::proofs::LeafForests::leaf_forests))]
pub fn leaf(alloc: Global, tokens: &mut Cursor<'_>) -> Result<Expr, Stop>
    requires { starts bracket_codes tokens.old ≡ false }
    ensures { Gives (at_level 9) (read Part.Primary tokens.old) result tokens.new }
{
    let (first, _) = tokens.split();
    match &first.kind {
        TokenKind::Number { .. } => Ok(Expr::Number(tokens.expect_number()?)),
        TokenKind::Physical { .. } => {
            let (number, unit) = tokens.expect_physical(alloc)?;
            Ok(Expr::Physical { number, unit })
        }
        TokenKind::Chars(_) => {
            let (place, text) = tokens.expect_text(alloc)?;
            Ok(Expr::Chars { place, text })
        }
        TokenKind::Name(_) => name_operand(alloc, tokens),
        _ => word_leaf(tokens),
    }
}
