//! Macro definitions, and what one call of a macro puts in its place (C11 6.10.3p1 to p12, 6.10.3.1 to
//! 6.10.3.3).
#![tactic(auto)]

mod call;
mod calls;
mod definition;
mod marked;
mod paste;
mod source;
mod stringize;
mod substitute;
mod words;

pub use call::{Call, Operand};
pub use calls::{CallTokens, arguments_for, read_call};
pub use definition::Macro;
pub use marked::{HideSet, Marked, copy_token};
pub use source::Source;
pub use substitute::one_replacement;
pub use words::{is_line, is_name, is_open, is_operator};
