//! Outlines of external declarations.

use crate::declarations::put_declaration;
use crate::expressions::{put_declarator, put_specs};
use crate::statements::put_block;
use crate::words::{begin, end, put};
use ct_base::Mem;
use ct_syntax::{Block, Declarator, Item, Spec};

/// Puts an external declaration.
pub fn push_item(item: &Item, out: &mut String) -> Mem<()> {
    match item {
        Item::Function(_, specs, declarator, body) => put_definition(specs, declarator, body, out),
        Item::Declaration(declaration) => put_declaration(declaration, out),
        Item::Empty(_) => put("empty", out),
    }
}

/// Puts a definition of a function.
fn put_definition(
    specs: &[Spec],
    declarator: &Declarator,
    body: &Block,
    out: &mut String,
) -> Mem<()> {
    begin("define", out)?;
    put_specs(specs, out)?;
    put_declarator(declarator, out)?;
    put_block(body, out)?;
    end(out)
}
