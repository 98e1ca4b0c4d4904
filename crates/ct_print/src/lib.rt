//! Syntax trees as text.
#![tactic(auto)]

mod declarations;
mod expressions;
mod putting;
mod statements;
mod words;

ghost use Rattle.std.specs.Prelude.{◌≡◌, ℕ, List, [], ◌++◌, IfOk, OnOk, OnErr};
ghost use Rattle.ct_syntax.specs.Scopes.{Scope};
ghost use Rattle.ct_syntax.specs.Spelling.{spell_unit};
ghost use Rattle.ct_syntax.specs.UnitViews.{view_tree};
ghost use Rattle.ct_print.specs.Printed.{IsPrintable, IsTextOf};
ghost use Rattle.ct_print.specs.Text.{text_of};

use crate::statements::put_items;
use ct_base::Mem;
use ct_syntax::Tree;
use std::alloc::Global;

/// Appends the tokens of a tree, with a new-line behind each `;`, `{` and `}` and a space behind each
/// other one. For want of memory `into` stays as it was.
pub fn print(alloc: Global, tree: &Tree, into: &mut Vec<u8>) -> Mem<()>
    ensures text { OnOk result (into.new.items ≡ into.old.items ++ text_of (spell_unit (view_tree tree.now) [])) }
    // Items that spell tokens, in a scope, of which each is the one token of its text spell those of what is appended.
    ensures tokens { OnOk result ((scope : Scope) → IsPrintable scope (view_tree tree.now) → (file : ℕ) (more : List ℕ) →
        into.new.items ≡ into.old.items ++ more → IsTextOf scope (view_tree tree.now) file more) }
    ensures kept { OnErr result (into.new.items ≡ into.old.items) }
{
    let text = printed_text(alloc, tree)?;
    into.extend_from_slice(text.as_slice())?;
    Ok(())
}

/// The text of a tree.
fn printed_text(alloc: Global, tree: &Tree) -> Mem<Vec<u8>>
    ensures { IfOk result (λ text. text.items ≡ text_of (spell_unit (view_tree tree.now) [])) }
{
    let mut text = Vec::new(alloc);
    put_items(&tree.items, &mut text)?;
    Ok(text)
}
