ghost use Rattle.std.specs.Prelude.{◌≡◌, ◌≢◌};
ghost use Rattle.dsl_cursor.specs.Words.{IfOk, IfErr, Part, PartFault, Ended, [], Ok, Err, Memory, read};
ghost use Rattle.dsl_parser.specs.Words.{FileTree, file_tree, Spelled, FirstFault, fault_code, OnStop, HasViableFront, HasDeadToken, file as file_forest};

use crate::declarations::declarations;
use crate::modifiers::modifiers;
use dsl_cursor::{Cursor, Stop};
use dsl_headings::imports::imports;
use dsl_tree::{File, Token, TokenKind, Tokens};
use osc_base::{Fault, FaultCode};
use std::alloc::Global;

/// Why tokens have no tree: they spell none, and the fault is at the first one with which no tree goes
/// on; or out of memory.
pub type ParseStop = osc_base::Stop<Fault>;

/// Returns the tree that the tokens spell.
///
/// The tokens are as `lex` returns them: `End` is the last token, and no other one. If they spell no
/// tree, the fault is at the first token with which no tree goes on. Its code is `LeftOut` when this
/// is a word that the profile leaves out, else `Syntax`. The other error is out of memory.
pub fn parse(alloc: Global, tokens: &Tokens) -> Result<File, ParseStop>
    requires ended { Ended tokens.now }
    ensures tree { IfOk result (λ f. Spelled (file_tree f) tokens.now) }
    ensures only { IfOk result (λ f. (t : FileTree) → Spelled t tokens.now → t ≡ file_tree f) }
    ensures fault { IfErr result (λ e. OnStop e (FirstFault tokens.now)) }
    ensures viable { IfErr result (λ e. OnStop e (HasViableFront tokens.now)) }
    ensures dead { IfErr result (λ e. OnStop e (HasDeadToken tokens.now)) }
    ensures none { IfErr result (λ e. OnStop e (λ fault. (t : FileTree) → Spelled t tokens.now → ⊥)) }
{
    let tokens = tokens.as_slice();
    match file(alloc, &mut Cursor::new(tokens)) {
        Ok(file) => Ok(file),
        Err(Stop::At(left)) => Err(ParseStop::At(fault_at(tokens, left))),
        Err(Stop::Memory) => Err(ParseStop::Memory),
    }
}

/// The code of a fault at a token of this kind.
fn code_at(kind: &TokenKind) -> FaultCode
    ensures { result ≡ fault_code kind.now }
{
    match kind {
        TokenKind::LeftOut(_) => FaultCode::LeftOut,
        _ => FaultCode::Syntax,
    }
}

/// The fault at the token that has `left` tokens from it to the end.
fn fault_at(tokens: &[Token], left: usize) -> Fault
    requires { PartFault Part.File tokens.now left }
    ensures { FirstFault tokens.now result }
{
    let at = tokens.len() - left;
    let token = &tokens[at];
    Fault {
        place: token.place,
        code: code_at(&token.kind),
    }
}

/// A file, to the end of its tokens.
#[tactic(auto, using(crate::proofs::Steps::step_file))]
fn file(alloc: Global, tokens: &mut Cursor<'_>) -> Result<File, Stop>
    ensures ok { IfOk result (λ f. read Part.File tokens.old ≡ Ok (file_forest (file_tree f), [])) }
    ensures err { IfErr result (λ e. e ≢ Memory → read Part.File tokens.old ≡ Err e) }
{
    let imports = imports(alloc, tokens)?;
    let modifiers = modifiers(alloc, tokens)?;
    let decls = declarations(alloc, tokens)?;
    let end = tokens.expect_end()?;
    Ok(File {
        imports,
        modifiers,
        decls,
        end,
    })
}
