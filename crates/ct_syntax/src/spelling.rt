//! How marks and keywords are spelled, and which words are left out of the language.

ghost use Rattle.std.specs.Prelude.{◌≡◌};
ghost use Rattle.std.specs.List.{list_any};
ghost use Rattle.std.specs.Str.{bytes_eq};
ghost use Rattle.ct_syntax.specs.Words.{mark_text, keyword_text, is_left_out};

use crate::words::{AssignOp, InfixOp, Keyword, Mark, MemberOp, SpecWord, StepOp};
use ct_base::BinaryOp;

impl InfixOp {
    /// The spelling of an operator between two operands (C11 6.5.5 to 6.5.14).
    pub fn text(self) -> &'static [u8]
        ensures { result.now ≡ mark_text (Mark.Infix self) }
    {
        match self {
            InfixOp::Number(BinaryOp::Multiply) => b"*",
            InfixOp::Number(BinaryOp::Divide) => b"/",
            InfixOp::Number(BinaryOp::Remainder) => b"%",
            InfixOp::Number(BinaryOp::Add) => b"+",
            InfixOp::Number(BinaryOp::Subtract) => b"-",
            InfixOp::Number(BinaryOp::ShiftLeft) => b"<<",
            InfixOp::Number(BinaryOp::ShiftRight) => b">>",
            InfixOp::Number(BinaryOp::Less) => b"<",
            InfixOp::Number(BinaryOp::Greater) => b">",
            InfixOp::Number(BinaryOp::LessEqual) => b"<=",
            InfixOp::Number(BinaryOp::GreaterEqual) => b">=",
            InfixOp::Number(BinaryOp::Equal) => b"==",
            InfixOp::Number(BinaryOp::NotEqual) => b"!=",
            InfixOp::Number(BinaryOp::And) => b"&",
            InfixOp::Number(BinaryOp::Xor) => b"^",
            InfixOp::Number(BinaryOp::Or) => b"|",
            InfixOp::LogicalAnd => b"&&",
            InfixOp::LogicalOr => b"||",
        }
    }
}

impl AssignOp {
    /// The spelling of an assignment operator (C11 6.5.16).
    pub fn text(self) -> &'static [u8]
        ensures { result.now ≡ mark_text (Mark.Assign self) }
    {
        match self {
            AssignOp::Plain => b"=",
            AssignOp::Multiply => b"*=",
            AssignOp::Divide => b"/=",
            AssignOp::Remainder => b"%=",
            AssignOp::Add => b"+=",
            AssignOp::Subtract => b"-=",
            AssignOp::ShiftLeft => b"<<=",
            AssignOp::ShiftRight => b">>=",
            AssignOp::And => b"&=",
            AssignOp::Xor => b"^=",
            AssignOp::Or => b"|=",
        }
    }
}

impl Mark {
    /// The spelling of a mark (C11 6.4.6).
    pub fn text(self) -> &'static [u8]
        ensures { result.now ≡ mark_text self }
    {
        match self {
            Mark::Open => b"(",
            Mark::Close => b")",
            Mark::OpenBracket => b"[",
            Mark::CloseBracket => b"]",
            Mark::OpenBrace => b"{",
            Mark::CloseBrace => b"}",
            Mark::Comma => b",",
            Mark::Semicolon => b";",
            Mark::Colon => b":",
            Mark::Question => b"?",
            Mark::Ellipsis => b"...",
            Mark::Complement => b"~",
            Mark::Not => b"!",
            Mark::Member(MemberOp::Dot) => b".",
            Mark::Member(MemberOp::Arrow) => b"->",
            Mark::Step(StepOp::Increment) => b"++",
            Mark::Step(StepOp::Decrement) => b"--",
            Mark::Infix(op) => op.text(),
            Mark::Assign(op) => op.text(),
        }
    }
}

impl SpecWord {
    /// The spelling of a specifier of one word (C11 6.7.1 to 6.7.4).
    pub fn text(self) -> &'static [u8]
        ensures { result.now ≡ keyword_text (Keyword.Spec self) }
    {
        match self {
            SpecWord::Typedef => b"typedef",
            SpecWord::Extern => b"extern",
            SpecWord::Static => b"static",
            SpecWord::Auto => b"auto",
            SpecWord::Register => b"register",
            SpecWord::Inline => b"inline",
            SpecWord::Const => b"const",
            SpecWord::Volatile => b"volatile",
            SpecWord::Void => b"void",
            SpecWord::Bool => b"_Bool",
            SpecWord::Char => b"char",
            SpecWord::Short => b"short",
            SpecWord::Int => b"int",
            SpecWord::Long => b"long",
            SpecWord::Signed => b"signed",
            SpecWord::Unsigned => b"unsigned",
        }
    }
}

impl Keyword {
    /// The spelling of a keyword (C11 6.4.1).
    pub fn text(self) -> &'static [u8]
        ensures { result.now ≡ keyword_text self }
    {
        match self {
            Keyword::Spec(word) => word.text(),
            Keyword::Struct => b"struct",
            Keyword::Enum => b"enum",
            Keyword::Restrict => b"restrict",
            Keyword::Sizeof => b"sizeof",
            Keyword::StaticAssert => b"_Static_assert",
            Keyword::If => b"if",
            Keyword::Else => b"else",
            Keyword::While => b"while",
            Keyword::Do => b"do",
            Keyword::For => b"for",
            Keyword::Switch => b"switch",
            Keyword::Case => b"case",
            Keyword::Default => b"default",
            Keyword::Break => b"break",
            Keyword::Continue => b"continue",
            Keyword::Return => b"return",
        }
    }
}

/// The keywords of C and of its compilers that are left out (C11 6.4.1), and `__func__` (6.4.2.2).
const LEFT_OUT: [&[u8]; 17] = [
    b"float",
    b"double",
    b"_Complex",
    b"_Imaginary",
    b"union",
    b"goto",
    b"_Generic",
    b"_Atomic",
    b"_Thread_local",
    b"_Alignas",
    b"_Alignof",
    b"_Noreturn",
    b"asm",
    b"__asm",
    b"__asm__",
    b"__attribute__",
    b"__func__",
];

fn is_among(text: &[u8], words: &[&[u8]]) -> bool
    ensures { result ≡ list_any (λ word. bytes_eq text.now word.now) words.now }
{
    words.iter().any(|word| text == *word)
}

/// Whether a name is a keyword that is left out of the language, or `__func__`.
pub fn is_left_out_word(text: &[u8]) -> bool
    ensures { result ≡ is_left_out text.now }
{
    is_among(text, &LEFT_OUT)
}
