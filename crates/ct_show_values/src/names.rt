//! How kinds, operators and faults are named in questions and answers.

use ct_base::{BinaryOp, FaultKind, UnaryOp};
use ct_ctype::IntKind;

/// The kind of a name, which is its name in C with `-` for a space.
pub fn kind_named(name: &str) -> Option<IntKind> {
    match name {
        "_Bool" => Some(IntKind::Bool),
        "char" => Some(IntKind::Char),
        "signed-char" => Some(IntKind::SignedChar),
        "unsigned-char" => Some(IntKind::UnsignedChar),
        "short" => Some(IntKind::Short),
        "unsigned-short" => Some(IntKind::UnsignedShort),
        "int" => Some(IntKind::Int),
        "unsigned-int" => Some(IntKind::UnsignedInt),
        "long" => Some(IntKind::Long),
        "unsigned-long" => Some(IntKind::UnsignedLong),
        "long-long" => Some(IntKind::LongLong),
        "unsigned-long-long" => Some(IntKind::UnsignedLongLong),
        _ => None,
    }
}

/// The name of a kind.
pub fn name_of(kind: IntKind) -> &'static str {
    match kind {
        IntKind::Bool => "_Bool",
        IntKind::Char => "char",
        IntKind::SignedChar => "signed-char",
        IntKind::UnsignedChar => "unsigned-char",
        IntKind::Short => "short",
        IntKind::UnsignedShort => "unsigned-short",
        IntKind::Int => "int",
        IntKind::UnsignedInt => "unsigned-int",
        IntKind::Long => "long",
        IntKind::UnsignedLong => "unsigned-long",
        IntKind::LongLong => "long-long",
        IntKind::UnsignedLongLong => "unsigned-long-long",
    }
}

/// The operator of two numbers that is spelled so.
pub fn binary_named(name: &str) -> Option<BinaryOp> {
    match name {
        "*" => Some(BinaryOp::Multiply),
        "/" => Some(BinaryOp::Divide),
        "%" => Some(BinaryOp::Remainder),
        "+" => Some(BinaryOp::Add),
        "-" => Some(BinaryOp::Subtract),
        "<<" => Some(BinaryOp::ShiftLeft),
        ">>" => Some(BinaryOp::ShiftRight),
        "<" => Some(BinaryOp::Less),
        ">" => Some(BinaryOp::Greater),
        "<=" => Some(BinaryOp::LessEqual),
        ">=" => Some(BinaryOp::GreaterEqual),
        "==" => Some(BinaryOp::Equal),
        "!=" => Some(BinaryOp::NotEqual),
        "&" => Some(BinaryOp::And),
        "^" => Some(BinaryOp::Xor),
        "|" => Some(BinaryOp::Or),
        _ => None,
    }
}

/// The operator of one number that is spelled so.
pub fn unary_named(name: &str) -> Option<UnaryOp> {
    match name {
        "+" => Some(UnaryOp::Plus),
        "-" => Some(UnaryOp::Minus),
        "~" => Some(UnaryOp::Complement),
        "!" => Some(UnaryOp::Not),
        _ => None,
    }
}

/// The name of a fault of an operator.
pub fn fault_name(fault: FaultKind) -> &'static str {
    match fault {
        FaultKind::SignedOverflow => "SignedOverflow",
        FaultKind::DivideByZero => "DivideByZero",
        FaultKind::ShiftRange => "ShiftRange",
        _ => "another fault",
    }
}
