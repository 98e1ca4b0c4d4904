//! What a run does not change.

ghost use Rattle.std.specs.Prelude.{◌≡◌, ◌<◌, ◌+◌, ℕ, IfOk, IfSome, Some, None, length, slice_get, option_map, take, sum_by};
ghost use Rattle.std.specs.Option.{option_copied};
ghost use Rattle.ct_meaning.specs.World as spec;
ghost use Rattle.ct_meaning.specs.Views.{world_of, where_of, target_in};

use crate::state::Where;
use ct_core::{BuiltIn, CoreFunction, CoreUnit, Definition, Linkage, Space, Variable, built_in};
use std::alloc::Global;

/// The units of a program, their functions by number, and the budget of a test.
#[derive(Clone, Copy)]
pub struct Program<'a> {
    pub alloc: Global,
    pub units: &'a [CoreUnit],
    pub functions: &'a [Definition],
    pub budget: u64,
}

/// What the number of a function means: one that a unit defines, by the unit and its place there,
/// or one that is built in.
#[derive(Clone, Copy)]
pub enum Called<'a> {
    Defined(u32, u32, &'a CoreFunction),
    Given(BuiltIn),
}

impl Program<'_> {
    /// The function at a place of a unit.
    pub fn function_at(&self, unit: u32, place: u32) -> Option<&CoreFunction>
        ensures { option_copied result ≡ spec.function_at (world_of self.now) unit place }
    {
        self.units.get(unit as usize)?.functions.get(place as usize)
    }

    /// The variable at a place of the function that is running.
    pub fn variable_at(&self, h: Where<'_>, place: u32) -> Option<&Variable>
        ensures { option_copied result ≡ spec.variable_at (world_of self.now) (where_of h.entry) place }
    {
        self.function_at(h.at.unit, h.at.function)?
            .variables
            .get(place as usize)
    }

    /// Where the objects of a unit lie.
    pub fn unit_space(&self, unit: u32) -> Space
        ensures { result ≡ spec.unit_space (world_of self.now) unit }
    {
        match self.units.get(unit as usize) {
            Some(unit) => unit.space,
            None => Space::Tool,
        }
    }

    /// Whether each unit may name a definition.
    fn is_common(&self, d: &Definition) -> bool
        ensures { result ≡ spec.is_common (world_of self.now) d.now }
    {
        match self.function_at(d.unit, d.place) {
            Some(function) => is_external(function.linkage),
            None => true,
        }
    }

    /// The number of the function of a name which each unit may name.
    pub fn common_number(&self, name: &[u8]) -> Option<usize>
        ensures { result ≡ spec.common_number (world_of self.now) name.now }
    {
        self.functions
            .iter()
            .position(|d| d.name.as_slice() == name && self.is_common(d))
    }

    /// The number of the function of a name which the unit itself defines.
    fn own_number(&self, unit: u32, name: &[u8]) -> Option<usize>
        ensures { result ≡ spec.own_number (world_of self.now) unit name.now }
    {
        self.functions
            .iter()
            .position(|d| d.name.as_slice() == name && d.unit == unit)
    }

    /// The number of the function that a name means in a unit.
    pub fn function_number(&self, unit: u32, name: &[u8]) -> Option<usize>
        ensures { result ≡ spec.function_number (world_of self.now) unit name.now }
    {
        match self.own_number(unit, name) {
            Some(number) => Some(number),
            None => self.common_number(name),
        }
    }

    /// What the number of a function means.
    pub fn called(&self, number: u32) -> Option<Called<'_>>
        ensures { spec.target_of (world_of self.now) number ≡ option_map target_in result }
    {
        let d = self.functions.get(number as usize)?;
        match self.function_at(d.unit, d.place) {
            Some(function) => Some(Called::Defined(d.unit, d.place, function)),
            None => Some(Called::Given(built_in(d.name.as_slice())?)),
        }
    }
}

/// Whether a function of this linkage may be named in each unit.
pub fn is_external(linkage: Linkage) -> bool
    ensures { result ≡ spec.is_external linkage }
{
    match linkage {
        Linkage::External => true,
        Linkage::Internal | Linkage::Absent => false,
    }
}
