//! What a run changes, and where in the program a part is evaluated.

use ct_base::{Items, OutOfMemory, Span};
use ct_core::{Pointer, TestState, Value};
use ct_memory::Memory;
use ct_report::TestLine;

/// The state of a run: its objects, the steps that are left, the running test, whether its phase
/// was aborted, how many tests have begun, and the tests that have ended.
#[derive(Debug, Drop)]
pub struct State {
    pub memory: Memory,
    pub steps: u64,
    pub test: Option<TestState>,
    pub aborted: bool,
    pub begun: u32,
    pub log: Items<TestLine>,
}

/// How a statement ends: the next one follows, or the function returns.
#[derive(Debug, Drop)]
pub enum Ending {
    Onward,
    Returned(Value),
}

/// A statement of a unit, by where it begins.
#[derive(Clone, Copy, Debug, PartialEq, Eq)]
pub struct Place {
    pub unit: u32,
    pub span: Span,
}

/// The level of calls, the unit and the function in which a part is evaluated, and the innermost
/// begun statement of the innermost running function of a Project unit.
#[derive(Clone, Copy, Debug, PartialEq, Eq)]
pub struct Position {
    pub level: u32,
    pub unit: u32,
    pub function: u32,
    pub place: Option<Place>,
}

/// Where a part is evaluated, with the objects of the function's variables that exist, the newest
/// first.
#[derive(Clone, Copy)]
pub struct Where<'a> {
    pub at: Position,
    pub frame: &'a [(u32, Pointer)],
}

/// Why a part has no value: it aborts, or memory ran out.
#[derive(Clone, Copy, Debug, PartialEq, Eq)]
pub enum Stop {
    Aborted,
    OutOfMemory,
}

impl From<OutOfMemory> for Stop {
    ghost use Rattle.std.specs.Prelude.{◌≡◌};
    ghost use Rattle.ct_meaning.specs.declared.state.Stop.TheVariants.{OutOfMemory as out_of_memory};

    ghost from_gives = { λ _ stop. stop ≡ out_of_memory };

    fn from(_error: OutOfMemory) -> Stop {
        Stop::OutOfMemory
    }
}
