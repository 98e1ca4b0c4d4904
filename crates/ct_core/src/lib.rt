//! C after typing: values, objects, core trees, units and their link.
//!
//! What a memory holds, what an access does and how a test stands are defined in `specs/`.
#![tactic(auto)]

mod built_ins;
mod objects;
mod testing;
mod trees;
mod units;
mod values;

pub use built_ins::{BuiltIn, built_in};
pub use objects::{Kind, Look, Object, Scalar};
pub use testing::TestState;
pub use trees::{CoreExpression, CoreStatement, Mark};
pub use units::{CoreFunction, CoreUnit, Definition, LinkTable, Linkage, Variable};
pub use values::{Address, Cell, Pointer, Space, Value};
