//! The report of a run.
#![tactic(auto)]

mod counts;
mod logs;
mod writing;

pub use counts::status;
pub use logs::{Info, RunLog, TestLine, Verdict};
pub use writing::{footer, lines, summary};
