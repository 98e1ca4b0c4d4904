//! What is open between two tokens: the productions, what the grammar reads of a token, and the names in scope.
#![tactic(auto)]

mod entries;
mod frames;
mod names;
mod state;
mod words;

pub use entries::Entry;
pub use frames::{
    Aim, AssertMode, BodyFrame, ClauseFrame, DeclaratorFrame, DeclaratorMode, Frame, InitMode,
    ListFrame, Mode, OperandFrame, Purpose, SpecsFrame, SpecsMode, StatementFrame, StatementMode,
    TagSort, ValueFrame, ValueMode, frame_needs, operand_holds,
};
pub use names::Names;
pub use state::ParserState;
pub use words::{Terminal, terminal_of};
