//! Statements and whole units.
#![tactic(auto)]

ghost use Rattle.std.specs.Prelude.{◌≡◌, ◌∷◌, [], ◌++◌, OnOk, map, option_map};
ghost use Rattle.ct_syntax.specs.Words.{Sign, Key};
ghost use Rattle.ct_syntax.specs.Trees.{no_part};
ghost use Rattle.ct_syntax.specs.Views.{view};
ghost use Rattle.ct_syntax.specs.UnitViews.{view_for_start, view_statement, view_part, body_of, view_item};
ghost use Rattle.ct_syntax.specs.Spelling.{spell, spell_maybe, spell_for_start, spell_statement, spell_branches, spell_other, spell_body, spell_item, spell_unit};
ghost use Rattle.ct_syntax.specs.Lists.{branches_of, other_of};
ghost use Rattle.ct_print.specs.Text.{Appends};

use crate::declarations::put_declaration;
use crate::expressions::{put_declarator, put_enclosed, put_expression, put_specs};
use crate::putting::{put_keyword, put_mark};
use ct_base::Mem;
use ct_syntax::{Block, BlockItem, Branch, Expr, ForStart, Item, Keyword, Mark, Statement};

/// Appends an expression, where there is one, and a mark behind it.
fn put_ended(x: &Option<Expr>, end: Mark, into: &mut Vec<u8>) -> Mem<()>
    ensures { OnOk result (Appends into.old.items into.new.items (λ rest. spell_maybe (option_map view x.now) (Sign end ∷ rest))) }
{
    if let Some(x) = x {
        put_expression(x, into)?;
    }
    put_mark(end, into)?;
    Ok(())
}

/// Appends what stands before the first `;` of a `for`, and that `;`.
fn put_for_start(start: &ForStart, into: &mut Vec<u8>) -> Mem<()>
    ensures { OnOk result (Appends into.old.items into.new.items (spell_for_start (view_for_start start.now))) }
{
    match start {
        ForStart::Declaration(declaration) => put_declaration(declaration, into),
        ForStart::Value(value) => put_ended(value, Mark::Semicolon, into),
    }
}

/// Appends `for`, and what stands in its parentheses.
fn put_for(
    start: &ForStart,
    test: &Option<Expr>,
    after: &Option<Expr>,
    into: &mut Vec<u8>,
) -> Mem<()>
    ensures { OnOk result (Appends into.old.items into.new.items (λ rest. Key Keyword.For ∷ Sign Mark.Open ∷ spell_for_start (view_for_start start.now) (spell_maybe (option_map view test.now) (Sign Mark.Semicolon ∷ spell_maybe (option_map view after.now) (Sign Mark.Close ∷ rest))))) }
{
    put_keyword(Keyword::For, into)?;
    put_mark(Mark::Open, into)?;
    put_for_start(start, into)?;
    put_ended(test, Mark::Semicolon, into)?;
    put_ended(after, Mark::Close, into)?;
    Ok(())
}

/// Appends a keyword and an expression in parentheses.
fn put_tested(keyword: Keyword, test: &Expr, into: &mut Vec<u8>) -> Mem<()>
    ensures { OnOk result (Appends into.old.items into.new.items (λ rest. Key keyword ∷ Sign Mark.Open ∷ spell (view test.now) (Sign Mark.Close ∷ rest))) }
{
    put_keyword(keyword, into)?;
    put_enclosed(Mark::Open, test, Mark::Close, into)?;
    Ok(())
}

/// Appends a keyword and `;`.
fn put_jump(keyword: Keyword, into: &mut Vec<u8>) -> Mem<()>
    ensures { OnOk result (Appends into.old.items into.new.items (λ rest. Key keyword ∷ Sign Mark.Semicolon ∷ rest)) }
{
    put_keyword(keyword, into)?;
    put_mark(Mark::Semicolon, into)?;
    Ok(())
}

/// Appends a statement.
#[cycle(statements)]
fn put_statement(statement: &Statement, into: &mut Vec<u8>) -> Mem<()>
    ensures { OnOk result (Appends into.old.items into.new.items (spell_statement (view_statement statement.now))) }
{
    match statement {
        Statement::Block(block) => put_block(block, into),
        Statement::Run(_, value) => put_ended(value, Mark::Semicolon, into),
        Statement::If(_, branches, other) => {
            put_branches(branches, into)?;
            put_other(other, into)?;
            Ok(())
        }
        Statement::While(_, test, body) => {
            put_tested(Keyword::While, test, into)?;
            put_statement(body, into)?;
            Ok(())
        }
        Statement::Do(_, body, test) => put_do(body, test, into),
        Statement::For(_, start, test, after, body) => {
            put_for(start, test, after, into)?;
            put_statement(body, into)?;
            Ok(())
        }
        Statement::Switch(_, value, block) => {
            put_tested(Keyword::Switch, value, into)?;
            put_block(block, into)?;
            Ok(())
        }
        Statement::Break(_) => put_jump(Keyword::Break, into),
        Statement::Continue(_) => put_jump(Keyword::Continue, into),
        Statement::Return(_, value) => {
            put_keyword(Keyword::Return, into)?;
            put_ended(value, Mark::Semicolon, into)?;
            Ok(())
        }
    }
}

/// Appends `do`, its body and its test.
#[cycle(statements)]
fn put_do(body: &Statement, test: &Expr, into: &mut Vec<u8>) -> Mem<()>
    ensures { OnOk result (Appends into.old.items into.new.items (λ rest. Key Keyword.Do ∷ spell_statement (view_statement body.now) (Key Keyword.While ∷ Sign Mark.Open ∷ spell (view test.now) (Sign Mark.Close ∷ Sign Mark.Semicolon ∷ rest)))) }
{
    put_keyword(Keyword::Do, into)?;
    put_statement(body, into)?;
    put_tested(Keyword::While, test, into)?;
    put_mark(Mark::Semicolon, into)?;
    Ok(())
}

/// Appends the branches of an `if` and its `else if`.
#[cycle(statements)]
fn put_branches(branches: &[Branch], into: &mut Vec<u8>) -> Mem<()>
    ensures { OnOk result (Appends into.old.items into.new.items (spell_branches (branches_of branches.now))) }
{
    let [first, others @ ..] = branches else {
        return Ok(());
    };
    put_branch(first, into)?;
    for branch in others {
        put_keyword(Keyword::Else, into)?;
        put_branch(branch, into)?;
    }
    Ok(())
}

/// Appends `if`, its test, and what is done where it holds.
#[cycle(statements)]
fn put_branch(branch: &Branch, into: &mut Vec<u8>) -> Mem<()>
    ensures { OnOk result (Appends into.old.items into.new.items (λ rest. Key Keyword.If ∷ Sign Mark.Open ∷ spell (view branch.now.test) (Sign Mark.Close ∷ spell_statement (view_statement branch.now.body) rest))) }
{
    put_tested(Keyword::If, &branch.test, into)?;
    put_statement(&branch.body, into)?;
    Ok(())
}

/// Appends a last `else` and what stands behind it, where there is one.
#[cycle(statements)]
fn put_other(other: &Option<Box<Statement>>, into: &mut Vec<u8>) -> Mem<()>
    ensures { OnOk result (Appends into.old.items into.new.items (spell_other (other_of other.now))) }
{
    match other {
        None => Ok(()),
        Some(body) => {
            put_keyword(Keyword::Else, into)?;
            put_statement(body, into)?;
            Ok(())
        }
    }
}

/// Appends what stands in braces, and the braces.
#[cycle(statements)]
fn put_block(block: &Block, into: &mut Vec<u8>) -> Mem<()>
    ensures { OnOk result (Appends into.old.items into.new.items (λ rest. Sign Mark.OpenBrace ∷ spell_body (body_of block.now.items.items) (Sign Mark.CloseBrace ∷ rest))) }
{
    put_mark(Mark::OpenBrace, into)?;
    put_parts(&block.items, into)?;
    put_mark(Mark::CloseBrace, into)?;
    Ok(())
}

/// Appends the parts of a block.
#[cycle(statements)]
fn put_parts(parts: &[BlockItem], into: &mut Vec<u8>) -> Mem<()>
    ensures { OnOk result (Appends into.old.items into.new.items (spell_body (body_of parts.now))) }
{
    for part in parts {
        put_part(part, into)?;
    }
    Ok(())
}

/// Appends a part of a block.
#[cycle(statements)]
fn put_part(part: &BlockItem, into: &mut Vec<u8>) -> Mem<()>
    ensures { OnOk result (Appends into.old.items into.new.items (spell_body (view_part part.now no_part))) }
{
    match part {
        BlockItem::Case(_, value) => {
            put_keyword(Keyword::Case, into)?;
            put_expression(value, into)?;
            put_mark(Mark::Colon, into)?;
            Ok(())
        }
        BlockItem::Default(_) => {
            put_keyword(Keyword::Default, into)?;
            put_mark(Mark::Colon, into)?;
            Ok(())
        }
        BlockItem::Declaration(declaration) => put_declaration(declaration, into),
        BlockItem::Statement(statement) => put_statement(statement, into),
    }
}

/// Appends an external declaration.
pub(crate) fn put_item(item: &Item, into: &mut Vec<u8>) -> Mem<()>
    ensures { OnOk result (Appends into.old.items into.new.items (spell_item (view_item item.now))) }
{
    match item {
        Item::Function(_, specs, declarator, body) => {
            put_specs(specs, into)?;
            put_declarator(declarator, into)?;
            put_block(body, into)?;
            Ok(())
        }
        Item::Declaration(declaration) => put_declaration(declaration, into),
        Item::Empty(_) => put_mark(Mark::Semicolon, into),
    }
}

/// Appends external declarations.
pub(crate) fn put_items(items: &[Item], into: &mut Vec<u8>) -> Mem<()>
    ensures { OnOk result (Appends into.old.items into.new.items (spell_unit (map view_item items.now))) }
{
    for item in items {
        put_item(item, into)?;
    }
    Ok(())
}
