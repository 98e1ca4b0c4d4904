//! Why a definition or an expansion is refused.

use ct_base::Bytes;

/// What is wrong with a definition or an expansion.
#[derive(Clone, Copy, Debug, PartialEq, Eq)]
pub enum MacroKind {
    /// A misplaced `#`, `##` or `__VA_ARGS__`, or a parameter that is named twice (C11 6.10.3p5, p6,
    /// 6.10.3.2p1, 6.10.3.3p1).
    BadDefinition,
    /// Another definition of the name stands (C11 6.10.3p2).
    Redefined,
    /// A call with another number of arguments than the macro takes (C11 6.10.3p4).
    Arguments,
    /// A call whose argument list is not closed (C11 6.10.3p4).
    OpenCall,
    /// `##` between what does not make one token (C11 6.10.3.3p3).
    BadPaste,
    /// More tokens than allowed are put by replacements.
    TooLong,
}

/// A refusal: its kind, the name of the macro, and the line of the name that is replaced. At a
/// definition the line is 0: the reader of the directive knows its line.
#[derive(Debug, Drop)]
pub struct MacroFault {
    pub kind: MacroKind,
    pub name: Bytes,
    pub line: u32,
}
