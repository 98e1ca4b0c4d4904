//! Why a file has no unit.

use ct_base::{LimitKind, Text};

/// What is wrong with a text.
#[derive(Clone, Copy, Debug, PartialEq, Eq)]
pub enum PreKind {
    /// A comment that is not closed (C11 6.4.9).
    OpenComment,
    /// A byte that begins no preprocessing token, or a quote that its line does not close (C11 6.4p3).
    BadToken,
    /// An include that means nothing (C11 6.10.2).
    MissingInclude,
    /// A directive that is none of C's, or has not its form (C11 6.10).
    BadDirective,
    /// An `#elif`, `#else` or `#endif` that belongs to no open conditional, or one that stays open
    /// (C11 6.10.1).
    Unbalanced,
    /// Another definition of a macro stands (C11 6.10.3p2).
    Redefined,
    /// A definition that breaks a rule on its own (C11 6.10.3p5, p6, 6.10.3.2p1, 6.10.3.3p1).
    BadDefinition,
    /// A call with another number of arguments than its macro takes (C11 6.10.3p4).
    Arguments,
    /// A call whose argument list is not closed (C11 6.10.3p4).
    OpenCall,
    /// `##` between what does not make one token (C11 6.10.3.3p3).
    BadPaste,
    /// A condition without value (C11 6.10.1).
    Condition,
    /// `#error` (C11 6.10.5).
    Error,
    /// A limit is passed.
    Limit(LimitKind),
}

/// A refusal: the path of the file that was read, the line, and what is wrong.
#[derive(Debug, Drop)]
pub struct PreFault {
    pub file: Text,
    pub line: u32,
    pub kind: PreKind,
}
