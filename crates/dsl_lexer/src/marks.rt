//! The marks.

ghost use Rattle.std.specs.Prelude.{◌≡◌, ◌≤◌, [], ◌∷◌, Option, Some, None, length, take, IsSome, IfNone, IfSome};
ghost use Rattle.dsl_lexer.specs.Shapes as shapes;
ghost use Rattle.dsl_lexer.specs.Scan as scan;

use dsl_tree::MarkKind;

fn mark_of_one(b: u8) -> Option<MarkKind>
    ensures { result ≡ shapes.entry (b ∷ []) shapes.marks }
{
    match b {
        b'(' => Some(MarkKind::OpenRound),
        b')' => Some(MarkKind::CloseRound),
        b'[' => Some(MarkKind::OpenSquare),
        b']' => Some(MarkKind::CloseSquare),
        b':' => Some(MarkKind::Colon),
        b',' => Some(MarkKind::Comma),
        b'.' => Some(MarkKind::Dot),
        b'=' => Some(MarkKind::Assign),
        b'<' => Some(MarkKind::Below),
        b'>' => Some(MarkKind::Above),
        b'+' => Some(MarkKind::Plus),
        b'-' => Some(MarkKind::Dash),
        b'*' => Some(MarkKind::Star),
        b'/' => Some(MarkKind::Slash),
        b'!' => Some(MarkKind::Bang),
        _ => None,
    }
}

fn mark_of_two(b: u8, c: u8) -> Option<MarkKind>
    ensures { result ≡ shapes.entry (b ∷ c ∷ []) shapes.marks }
{
    match (b, c) {
        (b'.', b'.') => Some(MarkKind::TwoDots),
        (b'=', b'=') => Some(MarkKind::Equal),
        (b'!', b'=') => Some(MarkKind::Differ),
        (b'<', b'=') => Some(MarkKind::AtMost),
        (b'>', b'=') => Some(MarkKind::AtLeast),
        (b'=', b'>') => Some(MarkKind::Arrow),
        _ => None,
    }
}

/// The longest mark at the start, and its length.
#[tactic(auto, unfolding(crate::specs::Scan::mark_len))]
pub fn mark(rest: &[u8]) -> Option<(MarkKind, usize)>
    ensures none { IfNone result (scan.mark_len rest.now ≡ None) }
    ensures length { IfSome result (λ m. scan.mark_len rest.now ≡ Some m.1) }
    ensures kind { IfSome result (λ m. shapes.entry (take m.1 rest.now) shapes.marks ≡ Some m.0) }
{
    let b = match rest {
        [] => return None,
        [b, c, ..] => {
            if let Some(kind) = mark_of_two(*b, *c) {
                return Some((kind, 2));
            }
            *b
        }
        [b] => *b,
    };
    let kind = mark_of_one(b)?;
    Some((kind, 1))
}

/// The mark that a whole text is.
pub fn mark_kind(text: &[u8]) -> Option<MarkKind>
    requires { IsSome (shapes.entry text.now shapes.marks) }
    ensures { result ≡ shapes.entry text.now shapes.marks }
{
    match text {
        [b] => mark_of_one(*b),
        [b, c] => mark_of_two(*b, *c),
        _ => None,
    }
}
