ghost use Rattle.dsl_spell.specs.Writing.{IfOk, OnOk, file_tree, file as file_forest, FollowsGrammar, Spelled, Writes};

use crate::rows::push_rest;
use crate::writer::Writer;
use dsl_tree::{File, TokenKind, Tokens};
use osc_base::Row;
use std::alloc::{AllocError, Global};

/// Tokens that the tree is spelled by.
///
/// A token whose place the tree holds stands at this place, and any other at the place of `end`.
/// The only error is out of memory.
pub fn spell(alloc: Global, file: &File) -> Result<Tokens, AllocError>
    requires { FollowsGrammar (file_tree file.now) }
    ensures { IfOk result (λ tokens. Spelled (file_tree file.now) tokens) }
{
    let mut w = Writer {
        alloc,
        at: file.end,
        tokens: Row::new(alloc),
    };
    push_file(&mut w, file)?;
    Ok(w.tokens)
}

fn push_file(w: &mut Writer, tree: &File) -> Result<(), AllocError>
    ensures { OnOk result (Writes w.old (file_forest (file_tree tree.now)) w.new) }
{
    push_rest(w, tree.imports.as_slice())?;
    push_rest(w, tree.modifiers.as_slice())?;
    push_rest(w, tree.decls.as_slice())?;
    w.push(tree.end, TokenKind::End)
}
