//! The marks and keywords of operators and qualifiers.

ghost use Rattle.std.specs.Prelude.{◌≡◌};
ghost use Rattle.ct_syntax.specs.Words.{prefix_mark as mark_before, qualifier_keyword as keyword_of_qualifier};

use ct_base::BinaryOp;
use ct_syntax::{InfixOp, Keyword, Mark, PrefixOp, Qualifier, SpecWord};

/// The mark of an operator before its operand.
pub(crate) fn prefix_mark(op: PrefixOp) -> Mark
    ensures { result ≡ mark_before op }
{
    match op {
        PrefixOp::Address => Mark::Infix(InfixOp::Number(BinaryOp::And)),
        PrefixOp::Dereference => STAR,
        PrefixOp::Plus => Mark::Infix(InfixOp::Number(BinaryOp::Add)),
        PrefixOp::Minus => Mark::Infix(InfixOp::Number(BinaryOp::Subtract)),
        PrefixOp::Complement => Mark::Complement,
        PrefixOp::Not => Mark::Not,
    }
}

/// The mark that makes a pointer.
pub(crate) const STAR: Mark = Mark::Infix(InfixOp::Number(BinaryOp::Multiply));

/// The keyword of a qualifier.
pub(crate) fn qualifier_keyword(qualifier: Qualifier) -> Keyword
    ensures { result ≡ keyword_of_qualifier qualifier }
{
    match qualifier {
        Qualifier::Const => Keyword::Spec(SpecWord::Const),
        Qualifier::Volatile => Keyword::Spec(SpecWord::Volatile),
        Qualifier::Restrict => Keyword::Restrict,
    }
}
