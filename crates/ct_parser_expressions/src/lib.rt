//! A token more in an expression and in a declarator.
#![tactic(auto)]

mod modes;
mod sizes;
mod values;

pub use modes::{declarator_step, value_step};
pub use values::begin;
