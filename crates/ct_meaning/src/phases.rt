//! The functions that are built in: assertions, and the phases of a test.

ghost use Rattle.std.specs.Prelude.{◌≡◌, ◌+◌, ◌++◌, ◌∷◌, [], ◌==◌, if◌then◌else◌, pos, ◌<◌, IfOk, OnOk, MatchResult, Some, Ok, Err, codes};
ghost use Rattle.std.specs.Fmt.{signed_decimal};
ghost use Rattle.ct_ctype.specs.Ranges.{InRange};
ghost use Rattle.ct_core.specs.Access.{string_at, and_then, byte_of};
ghost use Rattle.ct_core.specs.Testing.{finished};
ghost use Rattle.ct_core.specs.BuiltIns.{equal_failure};
ghost use Rattle.ct_meaning.specs.Rules as spec;
ghost use Rattle.ct_meaning.specs.Views.{world_of, where_of, Gives};

use crate::program::Program;
use crate::rules::judge;
use crate::state::{State, Stop, Where};
use crate::values::{number_in, pointer_in};
use ct_base::{Bytes, FaultKind, Items, Mem, OutOfMemory, Text, decimal};
use ct_core::{Cell, Look, Pointer, Scalar, TestState, Value};
use ct_ctype::IntKind;
use ct_memory::Memory;
use ct_report::{TestLine, Verdict};
use std::alloc::Global;

/// How many tests begin in a run.
const TEST_LIMIT: u32 = 1000;

/// The steps outside a test.
pub const STEPS_OUTSIDE: u64 = 1_000_000;

/// The number of this kind that an argument is.
fn number_argument(k: IntKind, n: usize, values: &[Value]) -> Result<i128, FaultKind>
    ensures value { result ≡ spec.number_argument k n values.now }
    ensures in_range { IfOk result (InRange k) }
{
    match values.get(n) {
        Some(v) => number_in(k, v),
        None => Err(FaultKind::BadCall),
    }
}

/// `Expected E Was A`.
fn equal_text(alloc: Global, expected: i128, actual: i128) -> Mem<Bytes>
    ensures { IfOk result (λ text. text ≡ codes "Expected " ++ signed_decimal expected ++ codes " Was " ++ signed_decimal actual) }
{
    let mut text = Vec::new(alloc);
    text.extend_from_slice(b"Expected ".as_slice())?;
    decimal(alloc, expected, &mut text)?;
    text.extend_from_slice(b" Was ".as_slice())?;
    decimal(alloc, actual, &mut text)?;
    Ok(Bytes::from_vec(text))
}

/// A line that is an argument.
fn line_argument(n: usize, values: &[Value]) -> Result<u32, FaultKind>
    ensures { MatchResult result (λ line. spec.number_argument IntKind.UnsignedInt n values.now ≡ Ok (pos line)) (λ fault. spec.number_argument IntKind.UnsignedInt n values.now ≡ Err fault) }
{
    Ok(number_argument(IntKind::UnsignedInt, n, values)? as u32)
}

/// The line, the expected and the actual value of an assertion.
fn equal_operands(values: &[Value]) -> Result<(u32, i128, i128), FaultKind>
    ensures { MatchResult result (λ operands. spec.equal_check values.now ≡ Ok (pos operands.0, equal_failure operands.1 operands.2)) (λ fault. spec.equal_check values.now ≡ Err fault) }
{
    let line = line_argument(0, values)?;
    let expected = number_argument(IntKind::LongLong, 1, values)?;
    let actual = number_argument(IntKind::LongLong, 2, values)?;
    Ok((line, expected, actual))
}

/// The first byte of the string at a place.
#[tactic(auto, using(crate::proofs::Strings::string_fault, crate::proofs::Strings::string_byte, crate::proofs::Strings::string_none))]
fn byte_at(memory: &Memory, at: Pointer) -> Result<u8, FaultKind>
    ensures { MatchResult result (λ byte. string_at at memory.now ≡ (if byte == 0 then Ok [] else and_then (string_at (record at { offset = at.offset + 1 }) memory.now) (λ rest. Ok (byte ∷ rest)))) (λ fault. string_at at memory.now ≡ Err fault) }
{
    memory.load(at, Scalar::Int(IntKind::UnsignedChar))?;
    match memory.cell(at) {
        Some(cell) => Ok(byte_of(cell)),
        None => Err(FaultKind::OutOfBounds),
    }
}

fn byte_of(cell: Cell) -> u8
    ensures { result ≡ byte_of cell }
{
    match cell {
        Cell::Byte(byte) => byte,
        Cell::Nothing | Cell::Part(_, _) => 0,
    }
}

/// The string at a place, or a fault. No object is so long that a string passes the last offset.
#[tactic(auto, using(crate::proofs::Strings::onto_none, crate::proofs::Strings::onto_more))]
fn string_at(alloc: Global, memory: &Memory, at: Pointer) -> Mem<Result<Bytes, FaultKind>>
    ensures { IfOk result (λ read. read ≡ string_at at memory.now) }
{
    let mut text = Vec::new(alloc);
    for offset in at.offset..u32::MAX {
        match byte_at(memory, Pointer { offset, ..at }) {
            Ok(0) => return Ok(Ok(Bytes::from_vec(text))),
            Ok(byte) => text.push(byte)?,
            Err(fault) => return Ok(Err(fault)),
        }
    }
    Err(OutOfMemory)
}

impl Program<'_> {
    /// `TEST_ASSERT_EQUAL_INT`: where the values differ the test fails at this line.
    #[tactic(auto, unfolding(crate::specs::Rules::assert_equal_int, crate::specs::Rules::given, crate::specs::Rules::failed_at))]
    pub fn assert_equal_int(
        &self,
        state: &mut State,
        h: Where<'_>,
        values: &[Value],
    ) -> Result<Value, Stop>
        ensures { Gives (spec.assert_equal_int (world_of self.now) (where_of h.entry) values.now state.old) result state.new }
    {
        let (line, expected, actual) = match equal_operands(values) {
            Ok(operands) => operands,
            Err(fault) => return Err(self.stop(state, h, fault)),
        };
        if expected == actual {
            return Ok(Value::Void);
        }
        let text = equal_text(self.alloc, expected, actual)?;
        if let Some(test) = &mut state.test {
            judge(test, Verdict::Fail, line, text);
        }
        Err(Stop::Aborted)
    }

    /// The path of the test file.
    pub fn test_file(&self) -> Mem<Text>
        ensures { IfOk result (λ file. file ≡ spec.test_file (world_of self.now)) }
    {
        match self.units.get(0) {
            Some(unit) => match unit.files.get(0) {
                Some(file) => Text::copy_of(self.alloc, file.as_str()),
                None => Text::copy_of(self.alloc, ""),
            },
            None => Text::copy_of(self.alloc, ""),
        }
    }

    /// The name of a test and its line, or a fault.
    fn test_operands(
        &self,
        values: &[Value],
        memory: &Memory,
    ) -> Mem<Result<(Bytes, u32), FaultKind>>
        ensures { IfOk result (λ operands. MatchResult operands (λ test. spec.test_check values.now memory.now ≡ Ok (test.0, pos test.1)) (λ fault. spec.test_check values.now memory.now ≡ Err fault)) }
    {
        let at = match pointer_argument(0, values) {
            Ok(at) => at,
            Err(fault) => return Ok(Err(fault)),
        };
        let name = match string_at(self.alloc, memory, at)? {
            Ok(name) => name,
            Err(fault) => return Ok(Err(fault)),
        };
        match line_argument(1, values) {
            Ok(line) => Ok(Ok((name, line))),
            Err(fault) => Ok(Err(fault)),
        }
    }

    /// Begins a test of this name and line.
    fn begin_test(&self, state: &mut State, name: Bytes, line: u32) -> Mem<()>
        requires { state.old.begun < 1000 }
        ensures { OnOk result (state.new ≡ spec.with_test (world_of self.now) name line state.old) }
    {
        let file = self.test_file()?;
        state.test = Some(TestState {
            file,
            name,
            line,
            verdict: None,
            text: Bytes::new(self.alloc),
            infos: Items::new(self.alloc),
        });
        state.steps = self.budget;
        state.aborted = false;
        state.begun += 1;
        Ok(())
    }

    /// Begins a test, where none runs.
    #[tactic(auto, unfolding(crate::specs::Rules::run_test, crate::specs::Rules::begun_test_by))]
    pub fn run_test(&self, state: &mut State, h: Where<'_>, values: &[Value]) -> Result<Value, Stop>
        ensures { Gives (spec.run_test (world_of self.now) (where_of h.entry) values.now state.old) result state.new }
    {
        if h.at.level != 0 || state.test.is_some() || state.begun >= TEST_LIMIT {
            return Ok(Value::Void);
        }
        match self.test_operands(values, &state.memory)? {
            Ok((name, line)) => {
                self.begin_test(state, name, line)?;
                Ok(Value::Void)
            }
            Err(fault) => Err(self.stop(state, h, fault)),
        }
    }
}

/// The place to which an argument points.
fn pointer_argument(n: usize, values: &[Value]) -> Result<Pointer, FaultKind>
    ensures { result ≡ and_then (spec.argument n values.now) spec.pointer_in }
{
    match values.get(n) {
        Some(v) => pointer_in(v),
        None => Err(FaultKind::BadCall),
    }
}

/// Whether a test runs, and this is its function `main`.
pub fn in_test(state: &State, h: Where<'_>) -> bool
    ensures { result ≡ spec.in_test (where_of h.entry) state.now }
{
    h.at.level == 0 && state.test.is_some()
}

/// The line of the log of a test that ended.
fn finished(test: TestState) -> TestLine
    ensures { result ≡ finished test }
{
    let TestState {
        file: _,
        name,
        line,
        verdict,
        text,
        infos,
    } = test;
    TestLine {
        name,
        line,
        verdict: verdict.unwrap_or(Verdict::Pass),
        text,
        infos,
    }
}

/// Ends the running test.
#[tactic(auto, unfolding(crate::specs::Rules::run_end))]
pub fn run_end(state: &mut State, h: Where<'_>) -> Mem<Value>
    ensures { IfOk result (λ v. spec.run_end (where_of h.entry) state.old ≡ (Some v, state.new)) }
{
    if h.at.level != 0 {
        return Ok(Value::Void);
    }
    if let Some(test) = state.test.take() {
        state.log.push(finished(test))?;
        state.steps = STEPS_OUTSIDE;
        state.aborted = false;
    }
    Ok(Value::Void)
}

/// Begins the second phase of the running test.
#[tactic(auto, unfolding(crate::specs::Rules::run_phase))]
pub fn run_phase(state: &mut State, h: Where<'_>) -> Value
    ensures { spec.run_phase (where_of h.entry) state.old ≡ (Some result, state.new) }
{
    if in_test(state, h) {
        state.aborted = false;
    }
    Value::Void
}
