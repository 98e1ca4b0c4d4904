//! The words of outlines: lists in parentheses, whose first word says what they are.

use ct_base::{BinaryOp, Bytes, Mem};
use ct_syntax::{AssignOp, InfixOp, PrefixOp, Qualifier, SpecWord};

/// Begins a list.
pub fn begin(head: &str, out: &mut String) -> Mem<()> {
    out.push_str(" (")?;
    out.push_str(head)?;
    Ok(())
}

/// Ends a list.
pub fn end(out: &mut String) -> Mem<()> {
    out.push(')')?;
    Ok(())
}

/// Puts a word.
pub fn put(word: &str, out: &mut String) -> Mem<()> {
    out.push(' ')?;
    out.push_str(word)?;
    Ok(())
}

/// Puts a name, a constant or a string literal.
pub fn put_bytes(word: &Bytes, out: &mut String) -> Mem<()> {
    match str::from_utf8(word.as_slice()) {
        Ok(word) => put(word, out),
        Err(_) => put("?", out),
    }
}

/// Puts a tag, or `_` where there is none.
pub fn put_tag(tag: &Option<Bytes>, out: &mut String) -> Mem<()> {
    match tag {
        Some(tag) => put_bytes(tag, out),
        None => put("_", out),
    }
}

/// The spelling of an operator before its operand.
pub fn prefix_name(op: PrefixOp) -> &'static str {
    match op {
        PrefixOp::Address => "&",
        PrefixOp::Dereference => "*",
        PrefixOp::Plus => "+",
        PrefixOp::Minus => "-",
        PrefixOp::Complement => "~",
        PrefixOp::Not => "!",
    }
}

/// The spelling of an operator between two operands.
pub fn infix_name(op: InfixOp) -> &'static str {
    match op {
        InfixOp::Number(op) => number_name(op),
        InfixOp::LogicalAnd => "&&",
        InfixOp::LogicalOr => "||",
    }
}

/// The spelling of an operator of two numbers.
fn number_name(op: BinaryOp) -> &'static str {
    match op {
        BinaryOp::Multiply => "*",
        BinaryOp::Divide => "/",
        BinaryOp::Remainder => "%",
        BinaryOp::Add => "+",
        BinaryOp::Subtract => "-",
        BinaryOp::ShiftLeft => "<<",
        BinaryOp::ShiftRight => ">>",
        BinaryOp::Less => "<",
        BinaryOp::Greater => ">",
        BinaryOp::LessEqual => "<=",
        BinaryOp::GreaterEqual => ">=",
        BinaryOp::Equal => "==",
        BinaryOp::NotEqual => "!=",
        BinaryOp::And => "&",
        BinaryOp::Xor => "^",
        BinaryOp::Or => "|",
    }
}

/// The spelling of an assignment operator.
pub fn assign_name(op: AssignOp) -> &'static str {
    match op {
        AssignOp::Plain => "=",
        AssignOp::Multiply => "*=",
        AssignOp::Divide => "/=",
        AssignOp::Remainder => "%=",
        AssignOp::Add => "+=",
        AssignOp::Subtract => "-=",
        AssignOp::ShiftLeft => "<<=",
        AssignOp::ShiftRight => ">>=",
        AssignOp::And => "&=",
        AssignOp::Xor => "^=",
        AssignOp::Or => "|=",
    }
}

/// The spelling of a specifier.
pub fn spec_name(word: SpecWord) -> &'static str {
    match word {
        SpecWord::Typedef => "typedef",
        SpecWord::Extern => "extern",
        SpecWord::Static => "static",
        SpecWord::Auto => "auto",
        SpecWord::Register => "register",
        SpecWord::Inline => "inline",
        SpecWord::Const => "const",
        SpecWord::Volatile => "volatile",
        SpecWord::Void => "void",
        SpecWord::Bool => "_Bool",
        SpecWord::Char => "char",
        SpecWord::Short => "short",
        SpecWord::Int => "int",
        SpecWord::Long => "long",
        SpecWord::Signed => "signed",
        SpecWord::Unsigned => "unsigned",
    }
}

/// The spelling of a qualifier.
pub fn qualifier_name(qualifier: Qualifier) -> &'static str {
    match qualifier {
        Qualifier::Const => "const",
        Qualifier::Volatile => "volatile",
        Qualifier::Restrict => "restrict",
    }
}
