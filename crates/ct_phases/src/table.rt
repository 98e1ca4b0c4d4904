//! The table of a program's definitions.

ghost use Rattle.std.specs.Prelude.{◌≡◌, ◌++◌, ◌∷◌, [], ◌&&◌, if◌then◌else◌, length, bytes_eq, IfOk, OnOk};
ghost use Rattle.std.specs.List.{list_any};
ghost use Rattle.ct_meaning.specs.World.{is_external};
ghost use Rattle.ct_phases.specs.Linked as spec;

use ct_base::{Bytes, Items, Mem, OutOfMemory};
use ct_core::{CoreFunction, CoreUnit, Definition, LinkTable};
use ct_meaning::is_external;
use std::alloc::Global;

/// The definitions of the functions of the units in order, and then those of the built-in
/// functions that no unit defines.
#[tactic(auto, using(crate::proofs::RunnerMade::unit_next))]
pub fn table(alloc: Global, units: &[CoreUnit]) -> Mem<LinkTable>
    ensures { IfOk result (λ made. made.functions ≡ spec.table_in_order units.now) }
{
    let mut functions = Items::new(alloc);
    for (number, unit) in units.iter().enumerate() {
        push_unit(alloc, &mut functions, number, unit)?;
    }
    push_built_ins(alloc, &mut functions, units)?;
    Ok(LinkTable { functions })
}

/// Adds the definitions of a unit.
#[tactic(auto, using(crate::proofs::RunnerMade::definition_next))]
fn push_unit(alloc: Global, all: &mut Items<Definition>, number: usize, unit: &CoreUnit) -> Mem<()>
    ensures { OnOk result (all.new ≡ all.old ++ spec.definitions_from number 0 unit.now.functions) }
{
    for (place, f) in unit.functions.as_slice().iter().enumerate() {
        all.push(definition(alloc, f.name.as_slice(), number, place)?)?;
    }
    Ok(())
}

/// Adds the definitions of the built-in functions that no unit defines.
fn push_built_ins(alloc: Global, all: &mut Items<Definition>, units: &[CoreUnit]) -> Mem<()>
    ensures { OnOk result (all.new ≡ all.old ++ spec.built_in_definitions units.now) }
{
    let assertion = b"ceedling_assert_TEST_ASSERT_EQUAL_INT".as_slice();
    push_built_in(alloc, all, units, assertion)?;
    push_built_in(alloc, all, units, b"ceedling_run_call".as_slice())?;
    push_built_in(alloc, all, units, b"ceedling_run_end".as_slice())?;
    push_built_in(alloc, all, units, b"ceedling_run_phase".as_slice())?;
    push_built_in(alloc, all, units, b"ceedling_run_test".as_slice())?;
    Ok(())
}

/// Adds the definition of the built-in function of a name, unless a unit defines it. Its unit is
/// the one behind the last.
fn push_built_in(
    alloc: Global,
    all: &mut Items<Definition>,
    units: &[CoreUnit],
    name: &[u8],
) -> Mem<()>
    ensures { OnOk result (all.new ≡ all.old ++ (if spec.is_defined units.now name.now then [] else record { name = name.now; unit = length units.now; place = 0 } ∷ [])) }
{
    if !is_defined(units, name) {
        all.push(definition(alloc, name, units.len(), 0)?)?;
    }
    Ok(())
}

/// Whether a unit defines a function of a name with external linkage.
fn is_defined(units: &[CoreUnit], name: &[u8]) -> bool
    ensures { result ≡ spec.is_defined units.now name.now }
{
    units
        .iter()
        .any(|unit| defines(unit.functions.as_slice(), name))
}

/// Whether one of these functions has a name, and external linkage.
pub fn defines(functions: &[CoreFunction], name: &[u8]) -> bool
    ensures { result ≡ list_any (λ f. bytes_eq f.name name.now && is_external f.linkage) functions.now }
{
    functions
        .iter()
        .any(|f| f.name.as_slice() == name && is_external(f.linkage))
}

/// The definition of a function at a place of a unit.
fn definition(alloc: Global, name: &[u8], unit: usize, place: usize) -> Mem<Definition>
    ensures { IfOk result (λ made. made ≡ record { name = name.now; unit = unit; place = place }) }
{
    let Ok(unit) = u32::try_from(unit) else {
        return Err(OutOfMemory);
    };
    let Ok(place) = u32::try_from(place) else {
        return Err(OutOfMemory);
    };
    let name = Bytes::from_slice(alloc, name)?;
    Ok(Definition { name, unit, place })
}
