//! The lines of a file, the forms of directives, and where an include is found (C11 6.10p2, 6.10.1 to
//! 6.10.3).
#![tactic(auto)]

mod conditions;
mod definitions;
mod faults;
mod forms;
mod headers;
mod heads;
mod lines;
mod meanings;
mod outlines;
mod pragmas;
mod search;

pub use conditions::{has_operator, is_defined, without_defined};
pub use definitions::{definition_in, object_like};
pub use faults::{PreFault, PreKind};
pub use forms::{Header, first_other, header_in, is, one_name, quoted_header, undefined_name};
pub use heads::{Head, Heads};
pub use lines::{directive_in, lines_of, words_of};
pub use meanings::each_meaning;
pub use outlines::{each_outline, one_outline};
pub use pragmas::without_pragmas;
pub use search::{Search, Target};
