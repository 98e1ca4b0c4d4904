//! The outside of a run: a tree of files and a sink for the report, as traits, and both in memory;
//! and what holds of paths.
#![tactic(auto)]

mod finder;
mod listing;
mod matching;
mod mem_sink;
mod mem_tree;
mod paths;
mod sink;
mod stored;
mod texts;
mod tree;

pub use finder::Finder;
pub use listing::rest_below;
pub use matching::matches;
pub use mem_sink::MemSink;
pub use mem_tree::{MemTree, TreeCall};
pub use paths::{first_component, join_path, joined};
pub use sink::{Sink, SinkFailed};
pub use texts::Texts;
pub use tree::{Entry, Found, Tree, TreeError};
