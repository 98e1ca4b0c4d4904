//! The meaning of core units.
#![tactic(auto)]

mod evaluator;
mod objects;
mod phases;
mod program;
mod rules;
mod run;
mod state;
mod values;

pub use program::is_external;
pub use run::plain;
pub use state::{Ending, Place, Position, State, Stop, Where};
