//! Outlines of statements.

use crate::declarations::put_declaration;
use crate::expressions::put_expression;
use crate::words::{begin, end, put};
use ct_base::Mem;
use ct_syntax::{Block, BlockItem, Branch, Expr, ForStart, Statement};

/// Puts a statement.
#[cycle(statements)]
fn put_statement(statement: &Statement, out: &mut String) -> Mem<()> {
    match statement {
        Statement::Block(block) => put_block(block, out),
        Statement::Run(_, value) => put_with_value("run", value, out),
        Statement::If(_, branches, last) => {
            begin("if", out)?;
            put_branches(branches, out)?;
            put_last(last, out)?;
            end(out)
        }
        Statement::While(_, test, body) => put_while(body, test, out),
        Statement::Do(_, body, test) => put_do(body, test, out),
        Statement::For(_, start, test, step, body) => put_for(body, start, test, step, out),
        Statement::Switch(_, value, block) => put_switch(block, value, out),
        Statement::Break(_) => put("break", out),
        Statement::Continue(_) => put("continue", out),
        Statement::Return(_, value) => put_with_value("return", value, out),
    }
}

/// Puts a list of an expression or nothing.
fn put_with_value(head: &str, value: &Option<Expr>, out: &mut String) -> Mem<()> {
    begin(head, out)?;
    if let Some(value) = value {
        put_expression(value, out)?;
    }
    end(out)
}

/// Puts an expression, or `_` where there is none.
fn put_optional(value: &Option<Expr>, out: &mut String) -> Mem<()> {
    match value {
        Some(value) => put_expression(value, out),
        None => put("_", out),
    }
}

/// Puts what stands in braces.
#[cycle(statements)]
pub fn put_block(block: &Block, out: &mut String) -> Mem<()> {
    begin("block", out)?;
    for item in &block.items {
        put_block_item(item, out)?;
    }
    end(out)
}

/// Puts a part of a block.
#[cycle(statements)]
fn put_block_item(item: &BlockItem, out: &mut String) -> Mem<()> {
    match item {
        BlockItem::Case(_, value) => {
            begin("case", out)?;
            put_expression(value, out)?;
            end(out)
        }
        BlockItem::Default(_) => put("default", out),
        BlockItem::Declaration(declaration) => put_declaration(declaration, out),
        BlockItem::Statement(statement) => put_statement(statement, out),
    }
}

/// Puts the branches of an `if`.
#[cycle(statements)]
fn put_branches(branches: &[Branch], out: &mut String) -> Mem<()> {
    for branch in branches {
        put_branch(branch, out)?;
    }
    Ok(())
}

/// Puts what stands behind a last `else`, where there is one.
#[cycle(statements)]
fn put_last(last: &Option<Box<Statement>>, out: &mut String) -> Mem<()> {
    match last {
        Some(last) => {
            begin("else", out)?;
            put_statement(last, out)?;
            end(out)
        }
        None => Ok(()),
    }
}

/// Puts a test and what is done where it holds.
#[cycle(statements)]
fn put_branch(branch: &Branch, out: &mut String) -> Mem<()> {
    begin("test", out)?;
    put_expression(&branch.test, out)?;
    put_statement(&branch.body, out)?;
    end(out)
}

#[cycle(statements)]
fn put_while(body: &Statement, test: &Expr, out: &mut String) -> Mem<()> {
    begin("while", out)?;
    put_expression(test, out)?;
    put_statement(body, out)?;
    end(out)
}

#[cycle(statements)]
fn put_do(body: &Statement, test: &Expr, out: &mut String) -> Mem<()> {
    begin("do", out)?;
    put_statement(body, out)?;
    put_expression(test, out)?;
    end(out)
}

#[cycle(statements)]
fn put_for(
    body: &Statement,
    start: &ForStart,
    test: &Option<Expr>,
    step: &Option<Expr>,
    out: &mut String,
) -> Mem<()> {
    begin("for", out)?;
    put_start(start, out)?;
    put_optional(test, out)?;
    put_optional(step, out)?;
    put_statement(body, out)?;
    end(out)
}

/// Puts what stands before the first `;` of a `for`.
fn put_start(start: &ForStart, out: &mut String) -> Mem<()> {
    match start {
        ForStart::Declaration(declaration) => put_declaration(declaration, out),
        ForStart::Value(value) => put_optional(value, out),
    }
}

#[cycle(statements)]
fn put_switch(block: &Block, value: &Expr, out: &mut String) -> Mem<()> {
    begin("switch", out)?;
    put_expression(value, out)?;
    put_block(block, out)?;
    end(out)
}
