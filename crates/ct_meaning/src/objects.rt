//! The rules on objects, steps and levels.

ghost use Rattle.std.specs.Prelude.{◌≡◌, ◌+◌, ◌<◌, IfOk, OnOk, Some, min, max, take, slice_get, unwrap_or};
ghost use Rattle.ct_base.specs.Limits.{mebibyte};
ghost use Rattle.ct_core.specs.Access.{end_result};
ghost use Rattle.ct_core.specs.Memory.{next_pointer};
ghost use Rattle.ct_core.specs.declared.values.Value.TheVariants.{Object};
ghost use Rattle.ct_meaning.specs.World.{unit_space, variable_at, object_in, text_count, same_space, text_pointer};
ghost use Rattle.ct_meaning.specs.Rules as spec;
ghost use Rattle.ct_meaning.specs.Meaning as meaning;
ghost use Rattle.ct_meaning.specs.Views.{world_of, where_of, Gives};

use crate::program::Program;
use crate::state::{Place, Position, State, Stop, Where};
use crate::values;
use ct_base::{FaultKind, Items, MEBIBYTE, Mem, OutOfMemory};
use ct_core::{CoreUnit, Kind, Mark, Pointer, Scalar, Space, Value, Variable};
use ct_ctype::{CType, Structs, size_of};
use ct_memory::Memory;

/// How many levels calls may nest.
pub const LEVEL_LIMIT: u32 = 64;

/// How many objects a space may have.
pub const OBJECT_LIMIT: u64 = 4_398_046_511_104;

impl Program<'_> {
    /// The answer of a rule, or its fault.
    #[tactic(auto, unfolding(crate::specs::Rules::given))]
    pub fn given(
        &self,
        state: &mut State,
        h: Where<'_>,
        answer: Result<Value, FaultKind>,
    ) -> Result<Value, Stop>
        ensures { Gives (spec.given (world_of self.now) (where_of h.entry) answer state.old) result state.new }
    {
        match answer {
            Ok(v) => Ok(v),
            Err(fault) => Err(self.stop(state, h, fault)),
        }
    }

    /// The object of a variable.
    #[tactic(auto, unfolding(crate::specs::Rules::variable))]
    pub fn variable(&self, state: &mut State, h: Where<'_>, place: u32) -> Result<Value, Stop>
        ensures { Gives (spec.variable (world_of self.now) (where_of h.entry) place state.old) result state.new }
    {
        self.given(state, h, address_in(h.frame, place))
    }

    /// What an object holds.
    #[tactic(auto, unfolding(crate::specs::Rules::load))]
    pub fn load(
        &self,
        state: &mut State,
        h: Where<'_>,
        t: Scalar,
        address: &Value,
    ) -> Result<Value, Stop>
        ensures { Gives (spec.load (world_of self.now) (where_of h.entry) t address.now state.old) result state.new }
    {
        let answer = values::value_from(address, t, &state.memory);
        self.given(state, h, answer)
    }

    /// Stores a value, and gives it as it was stored.
    #[tactic(auto, unfolding(crate::specs::Rules::store, crate::specs::Rules::changed))]
    pub fn store(
        &self,
        state: &mut State,
        h: Where<'_>,
        t: Scalar,
        address: &Value,
        v: &Value,
    ) -> Result<Value, Stop>
        ensures { Gives (spec.store (world_of self.now) (where_of h.entry) t address.now v.now state.old) result state.new }
    {
        match values::store(address, t, v, &mut state.memory) {
            Ok(x) => Ok(x),
            Err(fault) => Err(self.stop(state, h, fault)),
        }
    }

    /// Stores the first value of a variable.
    #[tactic(auto, unfolding(crate::specs::Rules::initialise, crate::specs::Rules::changed))]
    pub fn initialise(
        &self,
        state: &mut State,
        h: Where<'_>,
        place: u32,
        t: Scalar,
        v: &Value,
    ) -> Result<Value, Stop>
        ensures { Gives (spec.initialise (world_of self.now) (where_of h.entry) place t v.now state.old) result state.new }
    {
        let Some(p) = pointer_of(h.frame, place) else {
            return Err(self.stop(state, h, FaultKind::DeadObject));
        };
        match values::initialise(p, t, v, &mut state.memory) {
            Ok(x) => Ok(x),
            Err(fault) => Err(self.stop(state, h, fault)),
        }
    }

    /// The bytes of a new object for a variable.
    fn variable_bytes(&self, unit: u32, variable: &Variable) -> u32
        ensures { result ≡ spec.object_bytes (spec.structs_of (slice_get (world_of self.now).units unit)) variable.now.kind }
    {
        match self.units.get(unit as usize) {
            Some(unit) => object_bytes(size_of(&variable.kind, &unit.structs)),
            None => object_bytes(size_of(&variable.kind, &Structs::new(self.alloc))),
        }
    }

    /// Makes an object for a variable.
    fn begin_object(&self, state: &mut State, h: Where<'_>, place: u32) -> Mem<Pointer>
        ensures { IfOk result (λ p. (p ≡ next_pointer (unit_space (world_of self.now) h.entry.at.unit) state.old.memory) × (state.new ≡ record state.old { memory = spec.variable_memory (world_of self.now) (where_of h.entry) place (variable_at (world_of self.now) (where_of h.entry) place) state.old.memory })) }
    {
        let space = self.unit_space(h.at.unit);
        let (bytes, constant) = match self.variable_at(h, place) {
            Some(variable) => (self.variable_bytes(h.at.unit, variable), variable.constant),
            None => (1, false),
        };
        if state.memory.made(space) >= OBJECT_LIMIT {
            return Err(OutOfMemory);
        }
        state
            .memory
            .create(space, Kind::Automatic, place, bytes, constant)
    }

    /// Makes the objects of variables, and gives the frame with them.
    #[tactic(auto, unfolding(crate::specs::Rules::begin_objects))]
    pub fn begin_objects(
        &self,
        state: &mut State,
        h: Where<'_>,
        places: &[u32],
    ) -> Mem<Items<(u32, Pointer)>>
        ensures { IfOk result (λ frame. spec.begin_objects (world_of self.now) (where_of h.entry) places.now h.entry.frame.now state.old ≡ (Some frame, state.new)) }
    {
        let mut frame = Vec::from_slice(self.alloc, h.frame)?;
        for place in places {
            let p = self.begin_object(state, h, *place)?;
            frame.insert(0, (*place, p))?;
        }
        Ok(Items::from_vec(frame))
    }

    /// Takes a step.
    #[tactic(auto, unfolding(crate::specs::Rules::take_step))]
    pub fn take_step(&self, state: &mut State, h: Where<'_>) -> Result<(), Stop>
        ensures { Gives (spec.take_step (world_of self.now) (where_of h.entry) state.old) result state.new }
    {
        if state.steps == 0 {
            return Err(self.stop(state, h, FaultKind::StepBudget));
        }
        state.steps -= 1;
        Ok(())
    }

    /// Whether calls may nest one level more.
    #[tactic(auto, unfolding(crate::specs::Rules::check_level))]
    pub fn check_level(&self, state: &mut State, h: Where<'_>) -> Result<(), Stop>
        ensures given { Gives (spec.check_level (world_of self.now) (where_of h.entry) state.old) result state.new }
        ensures below { OnOk result (h.entry.at.level < 64) }
    {
        if h.at.level < LEVEL_LIMIT {
            Ok(())
        } else {
            Err(self.stop(state, h, FaultKind::CallDepth))
        }
    }

    /// Where the parts of a statement are evaluated.
    pub fn begun<'b>(&self, h: Where<'b>, mark: Mark) -> Where<'b>
        ensures { where_of result ≡ spec.begun (world_of self.now) (where_of h.entry) mark }
    {
        match self.unit_space(h.at.unit) {
            Space::Project => {
                let place = Some(Place {
                    unit: h.at.unit,
                    span: mark.span,
                });
                Where {
                    at: Position { place, ..h.at },
                    frame: h.frame,
                }
            }
            Space::Tool => h,
        }
    }

    /// The first byte of a string literal.
    pub fn literal(&self, unit: u32, text: u32) -> Mem<Value>
        ensures { IfOk result (λ v. v ≡ Object (text_pointer (world_of self.now) unit text)) }
    {
        let space = self.unit_space(unit);
        let earlier = text_count(space, first_of(self.units, unit as usize))?;
        Ok(Value::Object(Pointer {
            space,
            number: sum(earlier, u64::from(text))?,
            offset: 0,
        }))
    }

    /// A function by its name.
    #[tactic(auto, unfolding(crate::specs::Rules::designator, crate::specs::Rules::given))]
    pub fn designator(&self, state: &mut State, h: Where<'_>, name: &[u8]) -> Result<Value, Stop>
        ensures { Gives (spec.designator (world_of self.now) (where_of h.entry) name.now state.old) result state.new }
    {
        match self.function_number(h.at.unit, name) {
            Some(number) => match u32::try_from(number) {
                Ok(number) => Ok(Value::Function(number)),
                Err(_) => Err(Stop::OutOfMemory),
            },
            None => Err(self.stop(state, h, FaultKind::BadCall)),
        }
    }

    /// Ends the newest objects of a frame.
    #[tactic(auto, unfolding(crate::specs::Rules::end_objects))]
    pub fn end_objects(&self, state: &mut State, count: usize, frame: &[(u32, Pointer)])
        ensures { state.new ≡ spec.end_objects count frame.now state.old }
    {
        end_all(&mut state.memory, first_of(frame, count));
    }

    /// The places of a function's parameters.
    #[tactic(auto, using(crate::proofs::Frames::places_more))]
    pub fn places(&self, count: u32) -> Mem<Items<u32>>
        ensures { IfOk result (λ places. places ≡ meaning.places_from 0 count) }
    {
        let mut places = Items::new(self.alloc);
        for place in 0..count {
            places.push(place)?;
        }
        Ok(places)
    }

    /// Stores the argument of a parameter.
    pub fn initialise_parameter(
        &self,
        state: &mut State,
        h: Where<'_>,
        place: u32,
        v: &Value,
    ) -> Result<Value, Stop>
        ensures { Gives (meaning.initialise_parameter (world_of self.now) (where_of h.entry) place v.now (meaning.scalar_of_variable (variable_at (world_of self.now) (where_of h.entry) place)) state.old) result state.new }
    {
        let scalar = match self.variable_at(h, place) {
            Some(variable) => scalar_of(&variable.kind),
            None => None,
        };
        match scalar {
            Some(t) => self.initialise(state, h, place, t, v),
            None => Err(self.stop(state, h, FaultKind::BadCall)),
        }
    }
}

/// So many elements from the first on, or all where there are fewer.
fn first_of<T>(items: &[T], count: usize) -> &[T]
    ensures { result.now ≡ take count items.now }
{
    if count < items.len() {
        &items[..count]
    } else {
        items
    }
}

/// Ends objects, where the pointers are to the begin of one.
fn end_all(memory: &mut Memory, objects: &[(u32, Pointer)])
    ensures { memory.new ≡ spec.without_objects objects.now memory.old }
{
    for object in objects {
        end(memory, object.1);
    }
}

/// Ends an object, where a pointer is to the begin of one.
fn end(memory: &mut Memory, at: Pointer)
    ensures { memory.new ≡ spec.result_or (end_result at memory.old) memory.old }
{
    match memory.end(at) {
        Ok(()) | Err(_) => {}
    }
}

/// How many string literals these units have in a space.
fn text_count(space: Space, units: &[CoreUnit]) -> Mem<u64>
    ensures { IfOk result (λ count. count ≡ text_count space units.now) }
{
    let mut count = 0;
    for unit in units {
        if same_space(unit.space, space) {
            count = sum(count, unit.texts.len() as u64)?;
        }
    }
    Ok(count)
}

fn same_space(a: Space, b: Space) -> bool
    ensures { result ≡ same_space a b }
{
    matches!(
        (a, b),
        (Space::Project, Space::Project) | (Space::Tool, Space::Tool)
    )
}

/// The sum of two numbers, where it can be represented.
fn sum(a: u64, b: u64) -> Mem<u64>
    ensures { IfOk result (λ total. total ≡ a + b) }
{
    a.checked_add(b).ok_or(OutOfMemory)
}

/// The object of a variable, where it exists.
pub fn pointer_of(frame: &[(u32, Pointer)], place: u32) -> Option<Pointer>
    ensures { result ≡ object_in frame.now place }
{
    let entry = frame.iter().find(|entry| entry.0 == place)?;
    Some(entry.1)
}

fn address_in(frame: &[(u32, Pointer)], place: u32) -> Result<Value, FaultKind>
    ensures { result ≡ spec.address_in frame.now place }
{
    match pointer_of(frame, place) {
        Some(p) => Ok(Value::Object(p)),
        None => Err(FaultKind::DeadObject),
    }
}

/// The bytes of an object whose type has this size, from 1 to 1 MiB.
fn object_bytes(size: Option<u64>) -> u32
    ensures { result ≡ max 1 (min mebibyte (unwrap_or size 1)) }
{
    match size {
        Some(size) => size.clamp(1, u64::from(MEBIBYTE)) as u32,
        None => 1,
    }
}

/// The scalar type that an object's type is.
fn scalar_of(t: &CType) -> Option<Scalar>
    ensures { result ≡ spec.scalar_of t.now }
{
    match t {
        CType::Int(k) => Some(Scalar::Int(*k)),
        CType::Void
        | CType::Pointer(_, _)
        | CType::Array(_, _)
        | CType::Struct(_)
        | CType::Function(_) => None,
    }
}
