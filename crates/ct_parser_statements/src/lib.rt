//! A token more in a translation unit.
#![tactic(auto)]

mod assertions;
mod endings;
mod initialisers;
mod statements;
mod steps;
mod which;

pub use steps::step;
