//! The runner of a test file, and the law that it runs the two phases of each test.
#![tactic(auto)]

mod runner;
mod runner_law;
mod table;

pub use runner::{log_by_runner, test_log};
pub use runner_law::{a_runner_is_named_apart, a_table_in_order_is_linked, runner_runs_the_phases};
