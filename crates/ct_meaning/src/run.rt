//! The log of a test program.

ghost use Rattle.std.specs.Prelude.{◌≡◌, ◌≤◌, ◌<◌, IfOk, OnOk, slice_index};
ghost use Rattle.ct_base.specs.Limits.{most_steps};
ghost use Rattle.ct_core.specs.Memory.{with_new};
ghost use Rattle.ct_meaning.specs.Program as spec;
ghost use Rattle.ct_meaning.specs.Views.{world_of};

use crate::evaluator::call;
use crate::objects::OBJECT_LIMIT;
use crate::phases::STEPS_OUTSIDE;
use crate::program::Program;
use crate::state::{Position, State, Stop};
use ct_base::{Items, Mem, OutOfMemory};
use ct_core::{CoreUnit, Kind, LinkTable, Pointer, Scalar, Space, Value};
use ct_ctype::IntKind;
use ct_memory::Memory;
use ct_report::RunLog;
use std::alloc::Global;

/// How many bytes a string literal may have before its zero byte.
const TEXT_LIMIT: usize = 1_048_575;

/// The log of the units: their `main` is run, with the budget of steps for each test.
#[tactic(auto, unfolding(crate::specs::Program::log_of))]
pub fn plain(alloc: Global, units: &[CoreUnit], table: &LinkTable, budget: u64) -> Mem<RunLog>
    requires budget { (1 ≤ budget) × (budget ≤ most_steps) }
    ensures { IfOk result (λ log. log ≡ spec.log_of (spec.plain_world units.now table.now.functions budget)) }
{
    let program = Program {
        alloc,
        units,
        functions: table.functions.as_slice(),
        budget,
    };
    let state = program.last_state()?;
    let file = program.test_file()?;
    Ok(RunLog {
        file,
        tests: state.log,
    })
}

impl Program<'_> {
    /// The state at the end of `main`.
    #[tactic(auto, unfolding(crate::specs::Program::last_state, crate::specs::Program::enough))]
    fn last_state(&self) -> Mem<State>
        requires { self.now.budget ≤ most_steps }
        ensures { IfOk result (λ state. state ≡ spec.last_state (world_of self.now)) }
    {
        let mut state = self.first_state()?;
        let Some(number) = self.common_number(b"main".as_slice()) else {
            return Ok(state);
        };
        let Ok(number) = u32::try_from(number) else {
            return Err(OutOfMemory);
        };
        let at = Position {
            level: 0,
            unit: 0,
            function: 0,
            place: None,
        };
        let fuel = 1000 * (self.budget + 1_000_002) + 1_000_002;
        match call(
            self.alloc,
            self.units,
            self.functions,
            self.budget,
            fuel,
            &mut state,
            at,
            number,
            Items::new(self.alloc),
        ) {
            Ok(_) | Err(Stop::Aborted) => Ok(state),
            Err(Stop::OutOfMemory) => Err(OutOfMemory),
        }
    }

    /// The state in which `main` begins.
    fn first_state(&self) -> Mem<State>
        ensures { IfOk result (λ state. state ≡ spec.first_state (world_of self.now)) }
    {
        let mut memory = Memory::new(self.alloc)?;
        for unit in self.units {
            set_texts(unit, &mut memory)?;
        }
        Ok(State {
            memory,
            steps: STEPS_OUTSIDE,
            test: None,
            aborted: false,
            begun: 0,
            log: Items::new(self.alloc),
        })
    }
}

/// Makes the objects of a unit's string literals.
fn set_texts(unit: &CoreUnit, memory: &mut Memory) -> Mem<()>
    ensures { OnOk result (memory.new ≡ spec.with_texts unit.now.space 0 unit.now.texts memory.old) }
{
    let texts = unit.texts.as_slice();
    let mut place: u32 = 0;
    for text in texts {
        set_text(unit.space, place, text.as_slice(), memory)?;
        place = place.checked_add(1).ok_or(OutOfMemory)?;
    }
    Ok(())
}

/// Makes the object of a string literal.
fn set_text(space: Space, place: u32, text: &[u8], memory: &mut Memory) -> Mem<()>
    ensures { OnOk result (memory.new ≡ with_new space (spec.text_object place text.now) memory.old) }
{
    if text.len() > TEXT_LIMIT || memory.made(space) >= OBJECT_LIMIT {
        return Err(OutOfMemory);
    }
    let bytes = text.len() as u32 + 1;
    let at = memory.create(space, Kind::Text, place, bytes, true)?;
    for offset in 0..bytes {
        let to = Pointer { offset, ..at };
        let byte = Value::Int(i128::from(byte_at(text, offset as usize)));
        let _ = memory.initialise(to, Scalar::Int(IntKind::UnsignedChar), byte);
    }
    Ok(())
}

/// A byte of a string literal. The one at its end is zero.
fn byte_at(text: &[u8], offset: usize) -> u8
    ensures { result ≡ slice_index text.now offset }
{
    match text.get(offset) {
        Some(byte) => *byte,
        None => 0,
    }
}
