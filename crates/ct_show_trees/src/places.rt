//! The lines of the parts of a tree: each is that of the part's first token.

use ct_base::{Mem, Span};
use ct_syntax::{BlockItem, Declaration, Expr, Item, Statement, Tree};
use std::alloc::Global;

/// Puts the line of each external declaration, and behind that of a function those of the parts of its
/// body, each with that of its expression where it is one.
pub fn push_places(alloc: Global, tree: &Tree, out: &mut String) -> Mem<()> {
    for item in &tree.items {
        put_line(alloc, item_place(item), out)?;
        if let Item::Function(_, _, _, body) = item {
            put_parts(alloc, &body.items, out)?;
        }
        out.push('\n')?;
    }
    Ok(())
}

/// Puts the lines of the parts of a body.
fn put_parts(alloc: Global, parts: &[BlockItem], out: &mut String) -> Mem<()> {
    for part in parts {
        out.push(' ')?;
        put_line(alloc, part_place(part), out)?;
        put_value(alloc, part, out)?;
    }
    Ok(())
}

/// Puts a line.
fn put_line(alloc: Global, span: Span, out: &mut String) -> Mem<()> {
    let text = format!(in alloc; "{}", span.line)?;
    out.push_str(text.as_str())?;
    Ok(())
}

/// Puts the line of an expression that is a statement or is returned.
fn put_value(alloc: Global, part: &BlockItem, out: &mut String) -> Mem<()> {
    match part {
        BlockItem::Statement(Statement::Run(_, Some(value)))
        | BlockItem::Statement(Statement::Return(_, Some(value))) => {
            let span = expression_place(value);
            let text = format!(in alloc; ":{}", span.line)?;
            out.push_str(text.as_str())?;
            Ok(())
        }
        _ => Ok(()),
    }
}

fn item_place(item: &Item) -> Span {
    match item {
        Item::Function(span, _, _, _) | Item::Empty(span) => *span,
        Item::Declaration(declaration) => declaration_place(declaration),
    }
}

fn declaration_place(declaration: &Declaration) -> Span {
    match declaration {
        Declaration::Declare(span, _, _) | Declaration::Assert(span, _, _) => *span,
    }
}

fn part_place(part: &BlockItem) -> Span {
    match part {
        BlockItem::Case(span, _) | BlockItem::Default(span) => *span,
        BlockItem::Declaration(declaration) => declaration_place(declaration),
        BlockItem::Statement(statement) => statement_place(statement),
    }
}

fn statement_place(statement: &Statement) -> Span {
    match statement {
        Statement::Block(block) => block.span,
        Statement::Run(span, _)
        | Statement::If(span, _, _)
        | Statement::While(span, _, _)
        | Statement::Do(span, _, _)
        | Statement::For(span, _, _, _, _)
        | Statement::Switch(span, _, _)
        | Statement::Break(span)
        | Statement::Continue(span)
        | Statement::Return(span, _) => *span,
    }
}

fn expression_place(x: &Expr) -> Span {
    match x {
        Expr::Name(span, _) | Expr::Number(span, _) | Expr::Character(span, _) => *span,
        Expr::Text(span, _, _) | Expr::Paren(span, _) | Expr::Index(span, _, _) => *span,
        Expr::Call(span, _, _) | Expr::Member(span, _, _, _) | Expr::Postfix(span, _, _) => *span,
        Expr::Prefix(span, _, _) | Expr::Unary(span, _, _) | Expr::SizeofValue(span, _) => *span,
        Expr::SizeofType(span, _, _) | Expr::Cast(span, _, _, _) => *span,
        Expr::Infix(span, _, _, _) | Expr::Conditional(span, _, _, _) => *span,
        Expr::Assign(span, _, _, _) | Expr::Comma(span, _, _) => *span,
    }
}
