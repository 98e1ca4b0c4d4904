//! The rules that evaluate no part.

ghost use Rattle.std.specs.Prelude.{◌≡◌, ◌+◌, ◌++◌, ℕ, pos, IfOk, OnOk, codes, option_map, Some, None, Result, Ok, Err, length};
ghost use Rattle.ct_core.specs.Testing as testing;
ghost use Rattle.ct_meaning.specs.Rules as spec;
ghost use Rattle.ct_meaning.specs.Views.{world_of, where_of, Gives};
ghost use Rattle.ct_meaning.specs.declared.state.Stop.TheVariants.{Aborted};

use crate::program::Program;
use crate::state::{Place, State, Stop, Where};
use crate::values::{binary_value, converted_value, value_from};
use ct_base::{BinaryOp, Bytes, FaultKind, Mem, OutOfMemory, decimal};
use ct_core::{Scalar, TestState, Value};
use ct_ctype::IntKind;
use ct_report::Verdict;
use std::alloc::Global;

/// The name of a fault.
fn fault_name(fault: FaultKind) -> &'static [u8]
    ensures { result.now ≡ testing.fault_name fault }
{
    match fault {
        FaultKind::NullPointer => b"NullPointer".as_slice(),
        FaultKind::DeadObject => b"DeadObject".as_slice(),
        FaultKind::OutOfBounds => b"OutOfBounds".as_slice(),
        FaultKind::Misaligned => b"Misaligned".as_slice(),
        FaultKind::WriteConst => b"WriteConst".as_slice(),
        FaultKind::Uninitialised => b"Uninitialised".as_slice(),
        FaultKind::PointerBytes => b"PointerBytes".as_slice(),
        FaultKind::SignedOverflow => b"SignedOverflow".as_slice(),
        FaultKind::DivideByZero => b"DivideByZero".as_slice(),
        FaultKind::ShiftRange => b"ShiftRange".as_slice(),
        FaultKind::PointerRange => b"PointerRange".as_slice(),
        FaultKind::PointerOrder => b"PointerOrder".as_slice(),
        FaultKind::PointerDifference => b"PointerDifference".as_slice(),
        FaultKind::BadCall => b"BadCall".as_slice(),
        FaultKind::MissingReturn => b"MissingReturn".as_slice(),
        FaultKind::Overlap => b"Overlap".as_slice(),
        FaultKind::BadFree => b"BadFree".as_slice(),
        FaultKind::CallDepth => b"CallDepth".as_slice(),
        FaultKind::StepBudget => b"StepBudget".as_slice(),
    }
}

/// `Fault NAME at FILE:LINE`.
fn fault_text(alloc: Global, fault: FaultKind, file: &[u8], line: u32) -> Mem<Bytes>
    ensures { IfOk result (λ text. text ≡ testing.fault_text fault file.now line) }
{
    let mut text = Vec::new(alloc);
    text.extend_from_slice(b"Fault ".as_slice())?;
    text.extend_from_slice(fault_name(fault))?;
    text.extend_from_slice(b" at ".as_slice())?;
    text.extend_from_slice(file)?;
    text.extend_from_slice(b":".as_slice())?;
    decimal(alloc, i128::from(line), &mut text)?;
    Ok(Bytes::from_vec(text))
}

/// Gives a test a verdict, unless it has one.
pub fn judge(test: &mut TestState, verdict: Verdict, line: u32, text: Bytes)
    ensures { test.new ≡ testing.judged verdict line text test.old }
{
    if test.verdict.is_none() {
        test.verdict = Some(verdict);
        test.line = line;
        test.text = text;
    }
}

impl Program<'_> {
    /// The path of the file of a statement.
    fn file_of(&self, place: Place) -> &[u8]
        ensures { result.now ≡ spec.file_of (world_of self.now) place }
    {
        let Some(unit) = self.units.get(place.unit as usize) else {
            return b"".as_slice();
        };
        match unit.files.get(place.span.file as usize) {
            Some(file) => file.as_str().as_bytes(),
            None => b"".as_slice(),
        }
    }

    /// Fails a test by a fault at a place.
    fn fail(&self, test: &mut TestState, place: Option<Place>, fault: FaultKind) -> Mem<()>
        ensures { OnOk result (test.new ≡ spec.failed_test (world_of self.now) place fault test.old) }
    {
        let text = match place {
            Some(place) => fault_text(self.alloc, fault, self.file_of(place), place.span.line)?,
            None => fault_text(self.alloc, fault, test.file.as_str().as_bytes(), test.line)?,
        };
        judge(test, Verdict::Fail, test.line, text);
        Ok(())
    }

    /// A fault: the test that runs, if one does, fails.
    #[tactic(auto, unfolding(crate::specs::Rules::failed))]
    pub fn stop(&self, state: &mut State, h: Where<'_>, fault: FaultKind) -> Stop
        ensures { result ≡ Aborted → state.new ≡ spec.failed (world_of self.now) (where_of h.entry) fault state.old }
    {
        match &mut state.test {
            Some(test) => match self.fail(test, h.at.place, fault) {
                Ok(()) => Stop::Aborted,
                Err(OutOfMemory) => Stop::OutOfMemory,
            },
            None => Stop::Aborted,
        }
    }
}
