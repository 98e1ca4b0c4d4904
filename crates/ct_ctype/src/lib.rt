//! The integer types of C, their arithmetic, and the layout of types.
//!
//! The target: bytes of 8 bits, two's complement, plain `char` signed, `short` 16, `int` 32,
//! `long`, `long long` and pointers 64 bits. A scalar aligns at its size. A conversion to a signed
//! kind keeps the low bits, and a right shift of a negative number is arithmetic. These are this
//! target's choices where the standard leaves them to the implementation (C11 6.2.8 and J.3.5).
#![tactic(auto)]

mod conversions;
mod copies;
mod kinds;
mod operations;
mod structs;
mod types;

pub use conversions::{common, convert, promote};
pub use kinds::IntKind;
pub use operations::{binary, unary};
pub use structs::{Structs, align_of, exact_sizes, offset_of, size_of};
pub use types::{CType, Extent, FunctionType, Member, StructLayout};
