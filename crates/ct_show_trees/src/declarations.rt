//! Outlines of declarations.

use crate::expressions::{put_declarator, put_expression, put_specs};
use crate::words::{begin, end, put, put_bytes};
use ct_base::Mem;
use ct_syntax::{Declaration, Designator, InitDeclarator, Initialiser, InitialiserItem, Spec};

/// Puts a declaration.
pub fn put_declaration(declaration: &Declaration, out: &mut String) -> Mem<()> {
    match declaration {
        Declaration::Declare(_, specs, declarators) => put_declare(specs, declarators, out),
        Declaration::Assert(_, test, text) => {
            begin("assert", out)?;
            put_expression(test, out)?;
            put_bytes(text, out)?;
            end(out)
        }
    }
}

/// Puts specifiers and what they declare.
fn put_declare(specs: &[Spec], declarators: &[InitDeclarator], out: &mut String) -> Mem<()> {
    begin("declare", out)?;
    put_specs(specs, out)?;
    for declarator in declarators {
        put_init_declarator(declarator, out)?;
    }
    end(out)
}

/// Puts a declarator, and its initialiser.
fn put_init_declarator(declarator: &InitDeclarator, out: &mut String) -> Mem<()> {
    match &declarator.start {
        None => put_declarator(&declarator.declarator, out),
        Some(start) => {
            begin("=", out)?;
            put_declarator(&declarator.declarator, out)?;
            put_initialiser(start, out)?;
            end(out)
        }
    }
}

/// Puts an initialiser, and `,` where a comma stands behind the last of a list.
#[cycle(initialisers)]
fn put_initialiser(initialiser: &Initialiser, out: &mut String) -> Mem<()> {
    match initialiser {
        Initialiser::Value(_, value) => put_expression(value, out),
        Initialiser::List(_, items, comma) => put_items(items, *comma, out),
    }
}

/// Puts the items of an initialiser in braces.
#[cycle(initialisers)]
fn put_items(items: &[InitialiserItem], comma: bool, out: &mut String) -> Mem<()> {
    begin("list", out)?;
    for item in items {
        put_item(item, out)?;
    }
    if comma {
        put(",", out)?;
    }
    end(out)
}

/// Puts an item of an initialiser in braces.
#[cycle(initialisers)]
fn put_item(item: &InitialiserItem, out: &mut String) -> Mem<()> {
    match &item.designator {
        Designator::Next => put_initialiser(&item.value, out),
        Designator::Member(_, name) => {
            begin(".", out)?;
            put_bytes(name, out)?;
            put_initialiser(&item.value, out)?;
            end(out)
        }
        Designator::Index(_, place) => {
            begin("index", out)?;
            put_expression(place, out)?;
            put_initialiser(&item.value, out)?;
            end(out)
        }
    }
}
