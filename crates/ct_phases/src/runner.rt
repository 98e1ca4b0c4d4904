//! The runner of a test file, and the log of the file by it.

ghost use Rattle.std.specs.Prelude.{◌≡◌, ◌≢◌, ◌≤◌, ◌++◌, ◌∷◌, [], All, suc, pos, codes, map, slice_get, unwrap_or, IfOk, OnOk};
ghost use Rattle.ct_base.specs.Limits.{most_steps};
ghost use Rattle.ct_ctype.specs.declared.kinds.IntKind.TheVariants.{UnsignedInt};
ghost use Rattle.ct_core.specs.declared.trees.CoreExpression.TheVariants.{Constant, Text as text_of};
ghost use Rattle.ct_meaning.specs.Program.{plain_world, log_of};
ghost use Rattle.ct_phases.specs.Runner as spec;
ghost use Rattle.ct_meaning.specs.Written as spec_tests;
ghost use Rattle.ct_meaning.specs.Written.{written_world, written_log};
ghost use Rattle.ct_phases.specs.Linked.{AreNamedApart, IsTestProject, runner_of, table_in_order, tests_in};

use crate::table::{defines, table};
use ct_base::{Bytes, Items, Mem, OutOfMemory, Span, Text};
use ct_core::{CoreExpression, CoreFunction, CoreStatement, CoreUnit, Linkage, Mark, Space};
use ct_ctype::{CType, FunctionType, IntKind, Structs};
use ct_meaning::{is_external, plain};
use ct_report::RunLog;
use sqlite_items::Boxed;
use std::alloc::Global;

/// No fault names a statement of the runner.
const NOWHERE: Span = Span { file: 0, line: 0 };

const UNMARKED: Mark = Mark {
    span: NOWHERE,
    serial: 0,
};

/// The log of a test file that is one unit, which its runner makes.
pub fn test_log(alloc: Global, unit: CoreUnit, budget: u64) -> Mem<RunLog>
    requires budget { (1 ≤ budget) × (budget ≤ most_steps) }
    requires project { IsTestProject (unit ∷ []) }
    requires names { AreNamedApart (unit ∷ []) }
    requires main { All (λ f. f.name ≢ codes "main") unit.functions }
    ensures { IfOk result (λ log. log ≡ written_log (written_world (unit ∷ []) (table_in_order (unit ∷ runner_of (unwrap_or (slice_get unit.files 0) []) (unit ∷ []) ∷ [])) budget)) }
{
    log_by_runner(alloc, unit, budget)
}

/// The log of a test file that is one unit, by the meaning of C alone: its runner is run.
pub fn log_by_runner(alloc: Global, unit: CoreUnit, budget: u64) -> Mem<RunLog>
    requires budget { (1 ≤ budget) × (budget ≤ most_steps) }
    ensures { IfOk result (λ log. log ≡ log_of (plain_world (unit ∷ runner_of (unwrap_or (slice_get unit.files 0) []) (unit ∷ []) ∷ []) (table_in_order (unit ∷ runner_of (unwrap_or (slice_get unit.files 0) []) (unit ∷ []) ∷ [])) budget)) }
{
    let tests = runner(alloc, &unit)?;
    let units = vec![in alloc; unit, tests]?;
    let definitions = table(alloc, units.as_slice())?;
    plain(alloc, units.as_slice(), &definitions, budget)
}

/// The runner of a test file.
#[tactic(auto, unfolding(crate::specs::Runner::runner_unit))]
fn runner(alloc: Global, unit: &CoreUnit) -> Mem<CoreUnit>
    ensures { IfOk result (λ made. made ≡ runner_of (unwrap_or (slice_get unit.now.files 0) []) (unit.now ∷ [])) }
{
    let mut functions = Items::new(alloc);
    push_missing(alloc, &mut functions, unit, b"setUp".as_slice())?;
    push_missing(alloc, &mut functions, unit, b"tearDown".as_slice())?;
    functions.push(main_function(alloc, unit.functions.as_slice())?)?;
    let mut files = Items::new(alloc);
    files.push(path(alloc, unit)?)?;
    let texts = test_names(alloc, unit.functions.as_slice())?;
    Ok(CoreUnit {
        space: Space::Tool,
        files,
        functions,
        texts,
        structs: Structs::new(alloc),
    })
}

/// The path of a unit's own file.
fn path(alloc: Global, unit: &CoreUnit) -> Mem<Text>
    ensures { IfOk result (λ path. path ≡ unwrap_or (slice_get unit.now.files 0) []) }
{
    match unit.files.get(0) {
        Some(path) => Text::copy_of(alloc, path.as_str()),
        None => Text::copy_of(alloc, ""),
    }
}

/// Adds an empty function of a name, where the unit defines none with external linkage.
fn push_missing(
    alloc: Global,
    all: &mut Items<CoreFunction>,
    unit: &CoreUnit,
    name: &[u8],
) -> Mem<()>
    ensures { OnOk result (all.new ≡ all.old ++ spec.missing (spec_tests.defines (unit.now ∷ []) name.now) name.now) }
{
    if !defines(unit.functions.as_slice(), name) {
        all.push(empty_function(alloc, name)?)?;
    }
    Ok(())
}

/// The function `void NAME(void) { }`.
fn empty_function(alloc: Global, name: &[u8]) -> Mem<CoreFunction>
    ensures { IfOk result (λ f. f ≡ spec.empty_function name.now) }
{
    Ok(CoreFunction {
        name: Bytes::from_slice(alloc, name)?,
        kind: procedure(alloc),
        linkage: Linkage::External,
        span: NOWHERE,
        parameters: 0,
        variables: Items::new(alloc),
        body: CoreStatement::Block(UNMARKED, Items::new(alloc), Items::new(alloc)),
    })
}

/// The function `main`, which runs the tests among these functions.
fn main_function(alloc: Global, functions: &[CoreFunction]) -> Mem<CoreFunction>
    ensures { IfOk result (λ f. f ≡ spec.main_function (tests_in functions.now)) }
{
    let kind = FunctionType {
        result: CType::Int(IntKind::Int),
        parameters: Items::new(alloc),
        variadic: false,
    };
    let statements = all_statements(alloc, functions)?;
    Ok(CoreFunction {
        name: Bytes::from_slice(alloc, b"main".as_slice())?,
        kind,
        linkage: Linkage::External,
        span: NOWHERE,
        parameters: 0,
        variables: Items::new(alloc),
        body: CoreStatement::Block(UNMARKED, Items::new(alloc), statements),
    })
}

/// The statements of `main`.
#[tactic(auto, using(crate::proofs::RunnerMade::test_next, crate::proofs::RunnerMade::no_test_next))]
fn all_statements(alloc: Global, functions: &[CoreFunction]) -> Mem<Items<CoreStatement>>
    ensures { IfOk result (λ all. all ≡ spec.all_statements 0 (tests_in functions.now)) }
{
    let mut all = Items::new(alloc);
    let mut text = 0;
    for f in functions {
        if is_test(f) {
            all.append(test_statements(alloc, text, f)?)?;
            text = next(text)?;
        }
    }
    let zero = CoreExpression::Constant(IntKind::Int, 0);
    all.push(CoreStatement::Return(UNMARKED, Some(zero)))?;
    Ok(all)
}

/// The number after this one.
fn next(number: u32) -> Mem<u32>
    ensures { IfOk result (λ after. after ≡ suc number) }
{
    number.checked_add(1).ok_or(OutOfMemory)
}

/// The names of the tests among these functions.
#[tactic(auto, using(crate::proofs::RunnerMade::test_next, crate::proofs::RunnerMade::no_test_next))]
fn test_names(alloc: Global, functions: &[CoreFunction]) -> Mem<Items<Bytes>>
    ensures { IfOk result (λ names. names ≡ map (λ test. test.0) (tests_in functions.now)) }
{
    let mut names = Items::new(alloc);
    for f in functions {
        if is_test(f) {
            names.push(Bytes::from_slice(alloc, f.name.as_slice())?)?;
        }
    }
    Ok(names)
}

/// Whether a function is a test.
fn is_test(f: &CoreFunction) -> bool
    ensures { result ≡ spec_tests.is_test f.now }
{
    is_external(f.linkage)
        && is_void(&f.kind.result)
        && f.parameters == 0
        && has_test_name(f.name.as_slice())
}

fn is_void(t: &CType) -> bool
    ensures { result ≡ spec_tests.is_void t.now }
{
    match t {
        CType::Void => true,
        CType::Int(_)
        | CType::Pointer(_, _)
        | CType::Array(_, _)
        | CType::Struct(_)
        | CType::Function(_) => false,
    }
}

fn has_test_name(name: &[u8]) -> bool
    ensures { result ≡ spec_tests.has_test_name name.now }
{
    name.starts_with(b"test".as_slice())
        || name.starts_with(b"spec".as_slice())
        || name.starts_with(b"should".as_slice())
}

/// The statements of a test, whose name is this text.
fn test_statements(alloc: Global, text: u32, test: &CoreFunction) -> Mem<Items<CoreStatement>>
    ensures { IfOk result (λ all. all ≡ spec.test_statements text test.now.name test.now.span.line) }
{
    let all = vec![in alloc;
        begin_test(alloc, text, test.span.line)?,
        run_call(alloc, b"setUp".as_slice())?,
        run_call(alloc, test.name.as_slice())?,
        run_phase(alloc)?,
        run_call(alloc, b"tearDown".as_slice())?,
        run_end(alloc)?,
    ]?;
    Ok(Items::from_vec(all))
}

/// The statement `ceedling_run_test(TEXT, LINE);`.
fn begin_test(alloc: Global, text: u32, line: u32) -> Mem<CoreStatement>
    ensures { IfOk result (λ made. made ≡ spec.call_statement spec.run_test_type (codes "ceedling_run_test") (text_of text ∷ Constant UnsignedInt (pos line) ∷ [])) }
{
    let mut arguments = Items::new(alloc);
    arguments.push(CoreExpression::Text(text))?;
    arguments.push(line_argument(line))?;
    let kind = run_test_type(alloc)?;
    call_statement(alloc, kind, b"ceedling_run_test".as_slice(), arguments)
}

/// The argument that a line is.
fn line_argument(line: u32) -> CoreExpression
    ensures { result ≡ Constant UnsignedInt (pos line) }
{
    CoreExpression::Constant(IntKind::UnsignedInt, i128::from(line))
}

/// The statement `ceedling_run_call(NAME);`.
fn run_call(alloc: Global, name: &[u8]) -> Mem<CoreStatement>
    ensures { IfOk result (λ made. made ≡ spec.run_call name.now) }
{
    let mut arguments = Items::new(alloc);
    arguments.push(CoreExpression::Function(Bytes::from_slice(alloc, name)?))?;
    let kind = run_call_type(alloc)?;
    call_statement(alloc, kind, b"ceedling_run_call".as_slice(), arguments)
}

/// The statement `ceedling_run_phase();`.
fn run_phase(alloc: Global) -> Mem<CoreStatement>
    ensures { IfOk result (λ made. made ≡ spec.call_statement spec.procedure (codes "ceedling_run_phase") []) }
{
    let name = b"ceedling_run_phase".as_slice();
    call_statement(alloc, procedure(alloc), name, Items::new(alloc))
}

/// The statement `ceedling_run_end();`.
fn run_end(alloc: Global) -> Mem<CoreStatement>
    ensures { IfOk result (λ made. made ≡ spec.call_statement spec.procedure (codes "ceedling_run_end") []) }
{
    let name = b"ceedling_run_end".as_slice();
    call_statement(alloc, procedure(alloc), name, Items::new(alloc))
}

/// The statement `NAME(ARGUMENTS);`.
fn call_statement(
    alloc: Global,
    kind: FunctionType,
    name: &[u8],
    arguments: Items<CoreExpression>,
) -> Mem<CoreStatement>
    ensures { IfOk result (λ made. made ≡ spec.call_statement kind name.now arguments) }
{
    let callee = CoreExpression::Function(Bytes::from_slice(alloc, name)?);
    let call = CoreExpression::Call(kind, Boxed::new(alloc, callee)?, arguments);
    Ok(CoreStatement::Run(UNMARKED, call))
}

/// The type `void (void)`.
fn procedure(alloc: Global) -> FunctionType
    ensures { result ≡ spec.procedure }
{
    FunctionType {
        result: CType::Void,
        parameters: Items::new(alloc),
        variadic: false,
    }
}

/// The type `void (const char *, unsigned int)`.
fn run_test_type(alloc: Global) -> Mem<FunctionType>
    ensures { IfOk result (λ kind. kind ≡ spec.run_test_type) }
{
    let character = CType::Int(IntKind::Char);
    let mut parameters = Items::new(alloc);
    parameters.push(CType::Pointer(Boxed::new(alloc, character)?, true))?;
    parameters.push(CType::Int(IntKind::UnsignedInt))?;
    Ok(FunctionType {
        result: CType::Void,
        parameters,
        variadic: false,
    })
}

/// The type `void (void (*)(void))`.
fn run_call_type(alloc: Global) -> Mem<FunctionType>
    ensures { IfOk result (λ kind. kind ≡ spec.run_call_type) }
{
    let callee = CType::Function(Boxed::new(alloc, procedure(alloc))?);
    let mut parameters = Items::new(alloc);
    parameters.push(CType::Pointer(Boxed::new(alloc, callee)?, false))?;
    Ok(FunctionType {
        result: CType::Void,
        parameters,
        variadic: false,
    })
}
