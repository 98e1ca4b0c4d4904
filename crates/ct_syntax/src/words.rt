//! The marks and keywords of the grammar.

use ct_base::BinaryOp;

/// `++` or `--`.
#[derive(Clone, Copy, Debug, PartialEq, Eq)]
pub enum StepOp {
    Increment,
    Decrement,
}

/// An operator before a cast expression (C11 6.5.3).
#[derive(Clone, Copy, Debug, PartialEq, Eq)]
pub enum PrefixOp {
    /// `&`
    Address,
    /// `*`
    Dereference,
    /// `+`
    Plus,
    /// `-`
    Minus,
    /// `~`
    Complement,
    /// `!`
    Not,
}

/// An operator between two operands (C11 6.5.5 to 6.5.14).
#[derive(Clone, Copy, Debug, PartialEq, Eq)]
pub enum InfixOp {
    /// One of the operators of two numbers.
    Number(BinaryOp),
    /// `&&`
    LogicalAnd,
    /// `||`
    LogicalOr,
}

/// An assignment operator (C11 6.5.16).
#[derive(Clone, Copy, Debug, PartialEq, Eq)]
pub enum AssignOp {
    /// `=`
    Plain,
    /// `*=`
    Multiply,
    /// `/=`
    Divide,
    /// `%=`
    Remainder,
    /// `+=`
    Add,
    /// `-=`
    Subtract,
    /// `<<=`
    ShiftLeft,
    /// `>>=`
    ShiftRight,
    /// `&=`
    And,
    /// `^=`
    Xor,
    /// `|=`
    Or,
}

/// How a member is taken from a struct (C11 6.5.2.3).
#[derive(Clone, Copy, Debug, PartialEq, Eq)]
pub enum MemberOp {
    /// `.`
    Dot,
    /// `->`
    Arrow,
}

/// A punctuator (C11 6.4.6). One that stands for several operators is named as an infix one.
#[derive(Clone, Copy, Debug, PartialEq, Eq)]
pub enum Mark {
    /// `(`
    Open,
    /// `)`
    Close,
    /// `[`
    OpenBracket,
    /// `]`
    CloseBracket,
    /// `{`
    OpenBrace,
    /// `}`
    CloseBrace,
    /// `,`
    Comma,
    /// `;`
    Semicolon,
    /// `:`
    Colon,
    /// `?`
    Question,
    /// `...`
    Ellipsis,
    /// `~`
    Complement,
    /// `!`
    Not,
    /// `.` or `->`
    Member(MemberOp),
    /// `++` or `--`
    Step(StepOp),
    /// An operator between two operands; `*`, `&`, `+` and `-` stand before one too, and `*` makes
    /// a pointer.
    Infix(InfixOp),
    /// An assignment operator.
    Assign(AssignOp),
}

/// A keyword of declaration specifiers that is a specifier by itself (C11 6.7.1 to 6.7.4).
#[derive(Clone, Copy, Debug, PartialEq, Eq)]
pub enum SpecWord {
    Typedef,
    Extern,
    Static,
    Auto,
    Register,
    Inline,
    Const,
    Volatile,
    Void,
    /// `_Bool`
    Bool,
    Char,
    Short,
    Int,
    Long,
    Signed,
    Unsigned,
}

/// A qualifier behind the `*` of a pointer (C11 6.7.3).
#[derive(Clone, Copy, Debug, PartialEq, Eq)]
pub enum Qualifier {
    Const,
    Volatile,
    Restrict,
}

/// A keyword (C11 6.4.1), but for those that are left out.
#[derive(Clone, Copy, Debug, PartialEq, Eq)]
pub enum Keyword {
    /// A specifier by itself.
    Spec(SpecWord),
    Struct,
    Enum,
    Restrict,
    Sizeof,
    /// `_Static_assert`
    StaticAssert,
    If,
    Else,
    While,
    Do,
    For,
    Switch,
    Case,
    Default,
    Break,
    Continue,
    Return,
}
