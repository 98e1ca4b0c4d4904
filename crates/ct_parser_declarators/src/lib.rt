//! A token more in specifiers and in a declarator, and where declarations and items of initialisers end.
#![tactic(auto)]

mod declarations;
mod declarators;
mod frames;
mod modes;
mod signs;
mod specifiers;
mod types;

pub use declarations::{declaration_done, declarator_started, item_ended};
pub use declarators::{have_declarator, qualify, want_declarator};
pub use frames::wanting;
pub use modes::specs_mode_step;
pub use signs::{is_close, is_close_bracket, sizeof_place};
pub use specifiers::{after_ellipsis, begins_specs, listing, next_parameter, opened, specs_step};
