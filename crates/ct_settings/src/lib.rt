//! The settings of a project, from the tree of its project file.
#![tactic(auto)]

mod defines;
mod names;
mod paths;
mod record;
mod rows;
mod sections;
mod table;
mod texts;
mod values;

pub use record::{Cmock, Define, Pattern, ProjectSettings, SettingFault, SettingKind, WhenPtr};
pub use table::settings;
