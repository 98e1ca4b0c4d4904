//! Test files in a small form: includes of `unity.h`, and functions over `int` with variables,
//! loops, calls and one assertion.
//!
//! What the form is, and which core unit a file of it means, is defined in `specs/`.
#![tactic(auto)]

mod expressions;
mod files;
mod functions;
mod laws;
mod names;
mod outside;
mod parts;
mod places;
mod plain;
mod statements;
mod words;

pub use files::read;
pub use laws::one_form;
pub use names::{Binding, Signature};
pub use outside::Outside;
