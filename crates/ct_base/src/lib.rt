//! Types and texts of which every other crate of ceedling speaks.
#![tactic(auto)]

mod answers;
mod bytes;
mod digits;
mod faults;
mod lexical;
mod limits;
mod memory;
mod operators;
mod refusals;
mod texts;

pub use answers::Status;
pub use bytes::{first_of, has_pair, is_digit, is_letter, is_name_byte, is_nondigit};
pub use digits::decimal;
pub use faults::FaultKind;
pub use lexical::{Span, Token, TokenKind};
pub use limits::{LimitKind, MEBIBYTE, MOST_STEPS};
pub use memory::{Fail, Mem, Out, OutOfMemory};
pub use operators::{BinaryOp, UnaryOp};
pub use refusals::Refusal;
pub use sqlite_items::Items;
pub use texts::{Bytes, Text};
