//! Declarations and initialisers.
#![tactic(auto)]

ghost use Rattle.std.specs.Prelude.{◌≡◌, ◌∷◌, [], ◌++◌, OnOk, map, option_map};
ghost use Rattle.ct_syntax.specs.Words.{Sign};
ghost use Rattle.ct_syntax.specs.UnitViews.{view_designator, view_initialiser, view_init_declarator, view_declaration};
ghost use Rattle.ct_syntax.specs.Spelling.{spell_designator, spell_initialiser, spell_items, spell_comma, spell_start, spell_init_declarators, spell_declaration};
ghost use Rattle.ct_syntax.specs.Views.{view_declarator};
ghost use Rattle.ct_syntax.specs.Spelling.{spell_declarator};
ghost use Rattle.ct_syntax.specs.Lists.{initialisers_of};
ghost use Rattle.ct_print.specs.Text.{Appends};

use crate::expressions::{put_declarator, put_enclosed, put_expression, put_specs};
use crate::putting::{put_comma, put_keyword, put_mark, put_text};
use ct_base::Mem;
use ct_syntax::{
    AssignOp, Declaration, Designator, InitDeclarator, Initialiser, InitialiserItem, Keyword, Mark,
    MemberOp,
};

/// Appends what part an initialiser is for.
fn put_designator(designator: &Designator, into: &mut Vec<u8>) -> Mem<()>
    ensures { OnOk result (Appends into.old.items into.new.items (spell_designator (view_designator designator.now))) }
{
    match designator {
        Designator::Next => Ok(()),
        Designator::Member(_, name) => {
            put_mark(Mark::Member(MemberOp::Dot), into)?;
            put_text(name, into)?;
            put_mark(Mark::Assign(AssignOp::Plain), into)?;
            Ok(())
        }
        Designator::Index(_, place) => {
            put_enclosed(Mark::OpenBracket, place, Mark::CloseBracket, into)?;
            put_mark(Mark::Assign(AssignOp::Plain), into)?;
            Ok(())
        }
    }
}

/// Appends an initialiser.
#[cycle(initialisers)]
fn put_initialiser(initialiser: &Initialiser, into: &mut Vec<u8>) -> Mem<()>
    ensures { OnOk result (Appends into.old.items into.new.items (spell_initialiser (view_initialiser initialiser.now))) }
{
    match initialiser {
        Initialiser::Value(_, value) => put_expression(value, into),
        Initialiser::List(_, items, comma) => {
            put_mark(Mark::OpenBrace, into)?;
            put_items(items, into)?;
            put_comma(*comma, into)?;
            put_mark(Mark::CloseBrace, into)?;
            Ok(())
        }
    }
}

/// Appends the items of an initialiser in braces, with a comma between two.
#[cycle(initialisers)]
fn put_items(items: &[InitialiserItem], into: &mut Vec<u8>) -> Mem<()>
    ensures { OnOk result (Appends into.old.items into.new.items (spell_items (initialisers_of items.now))) }
{
    let [first, others @ ..] = items else {
        return Ok(());
    };
    put_item(first, into)?;
    for item in others {
        put_mark(Mark::Comma, into)?;
        put_item(item, into)?;
    }
    Ok(())
}

/// Appends an item of an initialiser in braces.
#[cycle(initialisers)]
fn put_item(item: &InitialiserItem, into: &mut Vec<u8>) -> Mem<()>
    ensures { OnOk result (Appends into.old.items into.new.items (λ rest. spell_designator (view_designator item.now.designator) (spell_initialiser (view_initialiser item.now.value) rest))) }
{
    put_designator(&item.designator, into)?;
    put_initialiser(&item.value, into)?;
    Ok(())
}

/// Appends a declarator and its initialiser.
fn put_init_declarator(declarator: &InitDeclarator, into: &mut Vec<u8>) -> Mem<()>
    ensures { OnOk result (Appends into.old.items into.new.items (λ rest. spell_declarator (view_declarator declarator.now.declarator) (spell_start (option_map view_initialiser declarator.now.start) rest))) }
{
    put_declarator(&declarator.declarator, into)?;
    if let Some(start) = &declarator.start {
        put_mark(Mark::Assign(AssignOp::Plain), into)?;
        put_initialiser(start, into)?;
    }
    Ok(())
}

/// Appends declarators and their initialisers, with a comma between two.
fn put_init_declarators(declarators: &[InitDeclarator], into: &mut Vec<u8>) -> Mem<()>
    ensures { OnOk result (Appends into.old.items into.new.items (spell_init_declarators (map view_init_declarator declarators.now))) }
{
    let [first, others @ ..] = declarators else {
        return Ok(());
    };
    put_init_declarator(first, into)?;
    for declarator in others {
        put_mark(Mark::Comma, into)?;
        put_init_declarator(declarator, into)?;
    }
    Ok(())
}

/// Appends a declaration.
pub(crate) fn put_declaration(declaration: &Declaration, into: &mut Vec<u8>) -> Mem<()>
    ensures { OnOk result (Appends into.old.items into.new.items (spell_declaration (view_declaration declaration.now))) }
{
    match declaration {
        Declaration::Declare(_, specs, declarators) => {
            put_specs(specs, into)?;
            put_init_declarators(declarators, into)?;
            put_mark(Mark::Semicolon, into)?;
            Ok(())
        }
        Declaration::Assert(_, condition, text) => {
            put_keyword(Keyword::StaticAssert, into)?;
            put_enclosed(Mark::Open, condition, Mark::Comma, into)?;
            put_text(text, into)?;
            put_mark(Mark::Close, into)?;
            put_mark(Mark::Semicolon, into)?;
            Ok(())
        }
    }
}
