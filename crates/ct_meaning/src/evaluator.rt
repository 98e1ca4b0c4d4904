//! The rules that evaluate parts.

ghost use Rattle.std.specs.Prelude.{◌≡◌, ◌++◌, ◌∷◌, List, [], Some, OnOk, map};
ghost use Rattle.ct_meaning.specs.Doing.{each, onwards};
ghost use Rattle.ct_meaning.specs.Meaning as spec;
ghost use Rattle.ct_meaning.specs.Meaning.{calls};
ghost use Rattle.ct_meaning.specs.Rules as rule;
ghost use Rattle.ct_meaning.specs.Program.{plain_world};
ghost use Rattle.ct_meaning.specs.Views.{world_of, where_of, position_of, Gives};
ghost use Rattle.ct_meaning.specs.Calling.{DoesCalls};

use crate::phases::{in_test, run_end, run_phase};
use crate::program::{Called, Program};
use crate::state::{Ending, Position, State, Stop, Where};
use crate::values::{binary_value, converted_value, truth_in, used};
use ct_base::{FaultKind, Items, Mem, OutOfMemory};
use ct_core::{
    BuiltIn, CoreExpression, CoreFunction, CoreStatement, CoreUnit, Definition, Scalar, Value,
};
use std::alloc::Global;

/// Evaluates the parts of functions, and hands their calls to `call`, of which each nesting takes
/// a step.
#[derive(Clone, Copy)]
pub struct Evaluator<'a, F> {
    pub program: Program<'a>,
    pub fuel: u64,
    pub call: F,
}

impl<
    'a,
    F: Fn(
        Global,
        &[CoreUnit],
        &[Definition],
        u64,
        u64,
        &mut State,
        Position,
        u32,
        Items<Value>,
    ) -> Result<Ending, Stop>,
> Evaluator<'a, F> {
    /// The value of an expression.
    #[cycle(expression)]
    fn expression(&self, state: &mut State, h: Where<'_>, e: &CoreExpression) -> Result<Value, Stop>
        requires { DoesCalls self.now.program self.now.fuel (F.pre self.now.call) (F.post self.now.call) }
        ensures { Gives (spec.expression (world_of self.now.program) (calls (world_of self.now.program) self.now.fuel) e.now (where_of h.entry) state.old) result state.new }
    {
        match e {
            CoreExpression::Constant(_, z) => Ok(Value::Int(*z)),
            CoreExpression::Variable(place) => self.program.variable(state, h, *place),
            CoreExpression::Text(text) => Ok(self.program.literal(h.at.unit, *text)?),
            CoreExpression::Function(name) => self.program.designator(state, h, name.as_slice()),
            CoreExpression::Load(t, a) => {
                let address = self.expression(state, h, a.get())?;
                self.program.load(state, h, *t, &address)
            }
            CoreExpression::Assign(t, a, b) => {
                let address = self.expression(state, h, a.get())?;
                let v = self.expression(state, h, b.get())?;
                self.program.store(state, h, *t, &address, &v)
            }
            CoreExpression::Convert(k, a) => {
                let v = self.expression(state, h, a.get())?;
                self.program.given(state, h, converted_value(*k, &v))
            }
            CoreExpression::Binary(op, k, a, b) => {
                let x = self.expression(state, h, a.get())?;
                let y = self.expression(state, h, b.get())?;
                self.program.given(state, h, binary_value(*op, *k, &x, &y))
            }
            CoreExpression::Call(_, f, arguments) => {
                let callee = self.expression(state, h, f.get())?;
                let values = self.arguments(state, h, arguments.as_slice())?;
                self.apply_call(state, h, &callee, values)
            }
        }
    }

    /// The values of arguments, from left to right.
    #[cycle(expression)]
    fn arguments(
        &self,
        state: &mut State,
        h: Where<'_>,
        all: &[CoreExpression],
    ) -> Result<Items<Value>, Stop>
        requires { DoesCalls self.now.program self.now.fuel (F.pre self.now.call) (F.post self.now.call) }
        ensures { Gives (each (map (spec.used_value (world_of self.now.program) (where_of h.entry)) (map (spec.expression (world_of self.now.program) (calls (world_of self.now.program) self.now.fuel)) all.now)) state.old) result state.new }
    {
        let mut values = Items::new(self.program.alloc);
        for e in all {
            let v = self.expression(state, h, e)?;
            let v = self.program.given(state, h, used(v))?;
            push(&mut values, v)?;
        }
        Ok(values)
    }

    /// A call of a value.
    #[tactic(auto, unfolding(crate::specs::Meaning::apply_call))]
    fn apply_call(
        &self,
        state: &mut State,
        h: Where<'_>,
        callee: &Value,
        values: Items<Value>,
    ) -> Result<Value, Stop>
        requires { DoesCalls self.now.program self.now.fuel (F.pre self.now.call) (F.post self.now.call) }
        ensures { Gives (spec.apply_call (world_of self.now.program) (where_of h.entry) (calls (world_of self.now.program) self.now.fuel) callee.now values state.old) result state.new }
    {
        match callee {
            Value::Function(number) => match self.program.called(*number) {
                Some(Called::Defined(_, _, _)) => self.enter(state, h, *number, values),
                Some(Called::Given(b)) => self.built_in(state, h, b, values.as_slice()),
                None => Err(self.program.stop(state, h, FaultKind::BadCall)),
            },
            Value::Null => Err(self.program.stop(state, h, FaultKind::NullPointer)),
            Value::Void => Err(self.program.stop(state, h, FaultKind::MissingReturn)),
            Value::Object(_) | Value::Int(_) | Value::Struct(_) => Err(
                self.program.stop(state, h, FaultKind::BadCall),
            ),
        }
    }

    /// A call of a function that a unit defines takes a level and a step.
    fn enter(
        &self,
        state: &mut State,
        h: Where<'_>,
        number: u32,
        values: Items<Value>,
    ) -> Result<Value, Stop>
        requires { DoesCalls self.now.program self.now.fuel (F.pre self.now.call) (F.post self.now.call) }
        ensures { Gives (spec.enter (world_of self.now.program) (where_of h.entry) (calls (world_of self.now.program) self.now.fuel) number values state.old) result state.new }
    {
        let program = &self.program;
        program.check_level(state, h)?;
        program.take_step(state, h)?;
        let at = Position {
            level: h.at.level + 1,
            ..h.at
        };
        match (self.call)(
            program.alloc,
            program.units,
            program.functions,
            program.budget,
            self.fuel,
            state,
            at,
            number,
            values,
        )? {
            Ending::Onward => Ok(Value::Void),
            Ending::Returned(v) => Ok(v),
        }
    }

    /// A call of a function that is built in.
    fn built_in(
        &self,
        state: &mut State,
        h: Where<'_>,
        b: BuiltIn,
        values: &[Value],
    ) -> Result<Value, Stop>
        requires { DoesCalls self.now.program self.now.fuel (F.pre self.now.call) (F.post self.now.call) }
        ensures { Gives (spec.built_in (world_of self.now.program) (where_of h.entry) (calls (world_of self.now.program) self.now.fuel) b values.now state.old) result state.new }
    {
        match b {
            BuiltIn::AssertEqualInt => self.program.assert_equal_int(state, h, values),
            BuiltIn::RunTest => self.program.run_test(state, h, values),
            BuiltIn::RunEnd => Ok(run_end(state, h)?),
            BuiltIn::RunPhase => Ok(run_phase(state, h)),
            BuiltIn::RunCall => self.run_call(state, h, values),
        }
    }

    /// A call in a phase that was not aborted. An abort ends the phase.
    #[tactic(auto, unfolding(crate::specs::Rules::run_call))]
    fn run_call(&self, state: &mut State, h: Where<'_>, values: &[Value]) -> Result<Value, Stop>
        requires { DoesCalls self.now.program self.now.fuel (F.pre self.now.call) (F.post self.now.call) }
        ensures { Gives (rule.run_call (where_of h.entry) (spec.handed_call (world_of self.now.program) (where_of h.entry) (calls (world_of self.now.program) self.now.fuel) values.now) state.old) result state.new }
    {
        if !in_test(state, h) || state.aborted {
            return Ok(Value::Void);
        }
        match self.handed_call(state, h, values) {
            Ok(_) => Ok(Value::Void),
            Err(Stop::Aborted) => {
                state.aborted = true;
                Ok(Value::Void)
            }
            Err(Stop::OutOfMemory) => Err(Stop::OutOfMemory),
        }
    }

    /// A call of the function that `ceedling_run_call` is handed.
    #[tactic(auto, unfolding(crate::specs::Rules::given))]
    fn handed_call(&self, state: &mut State, h: Where<'_>, values: &[Value]) -> Result<Value, Stop>
        requires { DoesCalls self.now.program self.now.fuel (F.pre self.now.call) (F.post self.now.call) }
        ensures { Gives (spec.handed_call (world_of self.now.program) (where_of h.entry) (calls (world_of self.now.program) self.now.fuel) values.now state.old) result state.new }
    {
        match values.get(0) {
            Some(callee) => self.procedure_call(state, h, callee),
            None => Err(self.program.stop(state, h, FaultKind::BadCall)),
        }
    }

    /// A call of a value without arguments.
    fn procedure_call(&self, state: &mut State, h: Where<'_>, callee: &Value) -> Result<Value, Stop>
        requires { DoesCalls self.now.program self.now.fuel (F.pre self.now.call) (F.post self.now.call) }
        ensures { Gives (spec.call_value (world_of self.now.program) (where_of h.entry) (calls (world_of self.now.program) self.now.fuel) (spec.procedure (world_of self.now.program) (where_of h.entry)) callee.now [] state.old) result state.new }
    {
        let alloc = self.program.alloc;
        match callee {
            Value::Function(number) => match self.program.called(*number) {
                Some(Called::Defined(_, _, _)) => self.enter(state, h, *number, Items::new(alloc)),
                Some(Called::Given(BuiltIn::RunEnd)) => Ok(run_end(state, h)?),
                Some(Called::Given(BuiltIn::RunPhase)) => Ok(run_phase(state, h)),
                Some(Called::Given(_)) | None => Err(
                    self.program.stop(state, h, FaultKind::BadCall),
                ),
            },
            Value::Null => Err(self.program.stop(state, h, FaultKind::NullPointer)),
            Value::Void => Err(self.program.stop(state, h, FaultKind::MissingReturn)),
            Value::Object(_) | Value::Int(_) | Value::Struct(_) => Err(
                self.program.stop(state, h, FaultKind::BadCall),
            ),
        }
    }

    /// Whether a controlling expression holds.
    #[tactic(auto, unfolding(crate::specs::Rules::given))]
    fn holds(&self, state: &mut State, h: Where<'_>, e: &CoreExpression) -> Result<bool, Stop>
        requires { DoesCalls self.now.program self.now.fuel (F.pre self.now.call) (F.post self.now.call) }
        ensures { Gives (spec.holds (world_of self.now.program) (where_of h.entry) (spec.expression (world_of self.now.program) (calls (world_of self.now.program) self.now.fuel) e.now) state.old) result state.new }
    {
        let v = self.expression(state, h, e)?;
        match truth_in(&v) {
            Ok(holds) => Ok(holds),
            Err(fault) => Err(self.program.stop(state, h, fault)),
        }
    }

    /// What a statement does.
    #[cycle(statement)]
    fn statement(&self, state: &mut State, h: Where<'_>, b: &CoreStatement) -> Result<Ending, Stop>
        requires { DoesCalls self.now.program self.now.fuel (F.pre self.now.call) (F.post self.now.call) }
        ensures { Gives (spec.statement (world_of self.now.program) self.now.fuel (calls (world_of self.now.program) self.now.fuel) b.now (where_of h.entry) state.old) result state.new }
    {
        match b {
            CoreStatement::Run(mark, e) => {
                self.expression(state, self.program.begun(h, *mark), e)?;
                Ok(Ending::Onward)
            }
            CoreStatement::Block(mark, places, all) => {
                let h = self.program.begun(h, *mark);
                self.block(state, h, places.as_slice(), all.as_slice())
            }
            CoreStatement::Declare(mark, place, t, Some(e)) => {
                self.declare(state, self.program.begun(h, *mark), *place, *t, e)
            }
            CoreStatement::Declare(_, _, _, None) => Ok(Ending::Onward),
            CoreStatement::If(mark, e, a, b) => {
                let h = self.program.begun(h, *mark);
                if self.holds(state, h, e)? {
                    self.statement(state, h, a.get())
                } else {
                    match b {
                        Some(b) => self.statement(state, h, b.get()),
                        None => Ok(Ending::Onward),
                    }
                }
            }
            CoreStatement::While(mark, e, body) => {
                self.turns(state, self.program.begun(h, *mark), body.get(), e)
            }
            CoreStatement::Return(mark, Some(e)) => {
                self.returned(state, self.program.begun(h, *mark), e)
            }
            CoreStatement::Return(_, None) => Ok(Ending::Returned(Value::Void)),
        }
    }

    /// A declaration with an initialiser.
    fn declare(
        &self,
        state: &mut State,
        h: Where<'_>,
        place: u32,
        t: Scalar,
        e: &CoreExpression,
    ) -> Result<Ending, Stop>
        requires { DoesCalls self.now.program self.now.fuel (F.pre self.now.call) (F.post self.now.call) }
        ensures { Gives (spec.declare (world_of self.now.program) (where_of h.entry) place t (Some (spec.expression (world_of self.now.program) (calls (world_of self.now.program) self.now.fuel) e.now)) state.old) result state.new }
    {
        let v = self.expression(state, h, e)?;
        self.program.initialise(state, h, place, t, &v)?;
        Ok(Ending::Onward)
    }

    /// A return of a value.
    fn returned(&self, state: &mut State, h: Where<'_>, e: &CoreExpression) -> Result<Ending, Stop>
        requires { DoesCalls self.now.program self.now.fuel (F.pre self.now.call) (F.post self.now.call) }
        ensures { Gives (spec.return_of (world_of self.now.program) (where_of h.entry) (Some (spec.expression (world_of self.now.program) (calls (world_of self.now.program) self.now.fuel) e.now)) state.old) result state.new }
    {
        let v = self.expression(state, h, e)?;
        Ok(Ending::Returned(self.program.given(state, h, used(v))?))
    }

    /// Statements one after another, with the objects of a block.
    #[cycle(statement)]
    fn block(
        &self,
        state: &mut State,
        h: Where<'_>,
        places: &[u32],
        all: &[CoreStatement],
    ) -> Result<Ending, Stop>
        requires { DoesCalls self.now.program self.now.fuel (F.pre self.now.call) (F.post self.now.call) }
        ensures { Gives (spec.within (world_of self.now.program) (where_of h.entry) places.now (λ inner. spec.in_turn inner (map (spec.statement (world_of self.now.program) self.now.fuel (calls (world_of self.now.program) self.now.fuel)) all.now)) state.old) result state.new }
    {
        let frame = self.program.begin_objects(state, h, places)?;
        let inner = Where {
            at: h.at,
            frame: frame.as_slice(),
        };
        let flow = self.in_turn(state, inner, all);
        self.program
            .end_objects(state, places.len(), frame.as_slice());
        flow
    }

    /// Statements one after another.
    #[cycle(statement)]
    fn in_turn(
        &self,
        state: &mut State,
        h: Where<'_>,
        all: &[CoreStatement],
    ) -> Result<Ending, Stop>
        requires { DoesCalls self.now.program self.now.fuel (F.pre self.now.call) (F.post self.now.call) }
        ensures { Gives (spec.in_turn (where_of h.entry) (map (spec.statement (world_of self.now.program) self.now.fuel (calls (world_of self.now.program) self.now.fuel)) all.now) state.old) result state.new }
    {
        for b in all {
            if let Ending::Returned(v) = self.statement(state, h, b)? {
                return Ok(Ending::Returned(v));
            }
        }
        Ok(Ending::Onward)
    }

    /// The turns of a loop.
    #[cycle(statement)]
    fn turns(
        &self,
        state: &mut State,
        h: Where<'_>,
        body: &CoreStatement,
        test: &CoreExpression,
    ) -> Result<Ending, Stop>
        requires { DoesCalls self.now.program self.now.fuel (F.pre self.now.call) (F.post self.now.call) }
        ensures { Gives (spec.turns (world_of self.now.program) (where_of h.entry) self.now.fuel (spec.expression (world_of self.now.program) (calls (world_of self.now.program) self.now.fuel) test.now) (spec.statement (world_of self.now.program) self.now.fuel (calls (world_of self.now.program) self.now.fuel) body.now) state.old) result state.new }
    {
        let mut left = self.fuel;
        while left > 0 {
            left -= 1;
            if !self.holds(state, h, test)? {
                return Ok(Ending::Onward);
            }
            self.program.take_step(state, h)?;
            if let Ending::Returned(v) = self.statement(state, h, body)? {
                return Ok(Ending::Returned(v));
            }
        }
        Err(self.program.stop(state, h, FaultKind::StepBudget))
    }

    /// What a function that a unit defines does with its arguments.
    fn function(
        &self,
        state: &mut State,
        at: Position,
        unit: u32,
        place: u32,
        function: &CoreFunction,
        values: &[Value],
    ) -> Result<Ending, Stop>
        requires { DoesCalls self.now.program self.now.fuel (F.pre self.now.call) (F.post self.now.call) }
        ensures { Gives (spec.defined_body (world_of self.now.program) self.now.fuel (calls (world_of self.now.program) self.now.fuel) unit place function.now values.now (position_of at []) state.old) result state.new }
    {
        let at = Position {
            unit,
            function: place,
            ..at
        };
        let outer = Where { at, frame: &[] };
        let places = self.program.places(function.parameters)?;
        let frame = self.program.begin_objects(state, outer, places.as_slice())?;
        let inner = Where {
            at,
            frame: frame.as_slice(),
        };
        let flow = self.body(state, inner, function, values);
        self.program
            .end_objects(state, places.len(), frame.as_slice());
        flow
    }

    /// The arguments of a function become the values of its parameters, and its body is run.
    fn body(
        &self,
        state: &mut State,
        h: Where<'_>,
        function: &CoreFunction,
        values: &[Value],
    ) -> Result<Ending, Stop>
        requires { DoesCalls self.now.program self.now.fuel (F.pre self.now.call) (F.post self.now.call) }
        ensures { Gives (onwards (spec.initialise_parameters (world_of self.now.program) (where_of h.entry) 0 values.now state.old) (λ _. spec.statement (world_of self.now.program) self.now.fuel (calls (world_of self.now.program) self.now.fuel) function.now.body (where_of h.entry))) result state.new }
    {
        initialise_parameters(&self.program, state, h, values)?;
        self.statement(state, h, &function.body)
    }
}

fn push(values: &mut Items<Value>, v: Value) -> Mem<()>
    ensures { OnOk result (values.new ≡ values.old ++ v ∷ []) }
{
    values.push(v)?;
    Ok(())
}

/// Stores the arguments of parameters.
fn initialise_parameters(
    program: &Program<'_>,
    state: &mut State,
    h: Where<'_>,
    values: &[Value],
) -> Result<(), Stop>
    ensures { Gives (spec.initialise_parameters (world_of program.now) (where_of h.entry) 0 values.now state.old) result state.new }
{
    let mut place: u32 = 0;
    for v in values {
        program.initialise_parameter(state, h, place, v)?;
        place = place.checked_add(1).ok_or(OutOfMemory)?;
    }
    Ok(())
}

/// What a function of the program does with its arguments, once the call took its step.
pub fn call(
    alloc: Global,
    units: &[CoreUnit],
    functions: &[Definition],
    budget: u64,
    fuel: u64,
    state: &mut State,
    at: Position,
    number: u32,
    values: Items<Value>,
) -> Result<Ending, Stop>
    ensures { Gives (calls (plain_world units.now functions.now budget) fuel number values (position_of at []) state.old) result state.new }
{
    let program = Program {
        alloc,
        units,
        functions,
        budget,
    };
    if fuel == 0 {
        let outer = Where { at, frame: &[] };
        return Err(program.stop(state, outer, FaultKind::StepBudget));
    }
    let Some(called) = program.called(number) else {
        return Ok(Ending::Onward);
    };
    match called {
        Called::Defined(unit, place, function) => {
            let evaluator = Evaluator {
                program,
                fuel: fuel - 1,
                call,
            };
            evaluator.function(state, at, unit, place, function, values.as_slice())
        }
        Called::Given(_) => Ok(Ending::Onward),
    }
}
