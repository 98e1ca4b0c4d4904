//! The objects of a run, and access to them.
#![tactic(auto)]

mod access;
mod memory;
#[cfg(test)]
mod tests;

pub use ct_core::{Kind, Look, Object, Scalar};
pub use memory::Memory;
