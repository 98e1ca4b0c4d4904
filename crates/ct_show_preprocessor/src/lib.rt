//! What tables say of tokens, constants, conditions, macros and units of source files.
#![tactic(auto)]

mod conditions;
mod constants;
mod faults;
mod kinds;
mod macros;
mod project;
mod scan;
mod steps;
mod units;

pub use conditions::condition_outcome;
pub use constants::constant_outcome;
pub use macros::macro_outcome;
pub use scan::{token_outcome, words_of};
pub use units::unit_outcome;
