//! Access to the objects of one space.

ghost use Rattle.std.specs.Prelude.{◌≡◌, ◌<◌, ◌≤◌, ◌+◌, ◌*◌, ◌^◌, ◌++◌, ◌∷◌, [], length, map, replicate, slice_get, slice_set, Ok, Err, Some, IfOk, OnOk, OnErr, IsTrue, IsOk, MatchResult, ◌↔◌, true, if◌then◌else◌};
ghost use Rattle.std.specs.List.{list_any};
ghost use Rattle.ct_core.specs.declared.values.Cell.TheVariants.{Byte, Nothing};
ghost use Rattle.ct_core.specs.Memory.{ended_object};
ghost use Rattle.ct_core.specs.Access as spec;
ghost use Rattle.ct_core.specs.Access.{IsOf};

use ct_base::{FaultKind, Items, Mem};
use ct_core::{Cell, Object, Pointer, Scalar, Value};
use ct_ctype::{IntKind, convert};
use std::alloc::Global;

/// Cells in which nothing is stored.
pub fn new_cells(alloc: Global, bytes: u32) -> Mem<Items<Cell>>
    ensures { IfOk result (λ cells. cells ≡ replicate bytes Nothing) }
{
    let mut cells = Items::new(alloc);
    for _i in 0..bytes {
        cells.push(Cell::Nothing)?;
    }
    Ok(cells)
}

/// Adds an object, and gives its number. For want of memory nothing is added.
pub fn add(objects: &mut Vec<Object>, object: Object) -> Mem<u64>
    ensures number { IfOk result (λ number. number ≡ length objects.old.items) }
    ensures ok { OnOk result (objects.new.items ≡ objects.old.items ++ object ∷ []) }
    ensures err { OnErr result (objects.new.items ≡ objects.old.items) }
{
    let number = objects.len() as u64;
    objects.push(object)?;
    Ok(number)
}

/// How many bytes a scalar takes.
pub fn size_of(t: Scalar) -> usize
    ensures value { result ≡ spec.size_of t }
    ensures some { 1 ≤ result }
    ensures at_most { result ≤ 8 }
{
    match t {
        Scalar::Int(k) => bytes_of(k),
    }
}

fn bytes_of(k: IntKind) -> usize
    ensures value { result ≡ spec.size_of (Scalar.Int k) }
    ensures some { 1 ≤ result }
    ensures at_most { result ≤ 8 }
{
    match k.width() {
        1 | 8 => 1,
        16 => 2,
        32 => 4,
        _ => 8,
    }
}

/// Whether a pointer is to the begin of a live object.
pub fn begins(objects: &[Object], at: Pointer) -> bool
    ensures { result ≡ spec.is_begin at (slice_get objects.now at.number) }
{
    match objects.get(at.number as usize) {
        Some(object) => object.alive && at.offset == 0,
        None => false,
    }
}

/// Ends an object: it has no cells any more.
pub fn end_object(alloc: Global, object: &mut Object)
    ensures { object.new ≡ ended_object object.old }
{
    object.cells = Items::new(alloc);
    object.alive = false;
}

/// The object that an access of a scalar reaches.
pub fn reach(objects: &[Object], at: Pointer, t: Scalar) -> Result<&Object, FaultKind>
    ensures { MatchResult result (λ object. spec.reached_object at t (slice_get objects.now at.number) ≡ Ok object.now) (λ fault. spec.reached_object at t (slice_get objects.now at.number) ≡ Err fault) }
{
    let Some(object) = objects.get(at.number as usize) else {
        return Err(FaultKind::DeadObject);
    };
    let size = size_of(t);
    if !object.alive {
        Err(FaultKind::DeadObject)
    } else if object.cells.len() < at.offset as usize + size {
        Err(FaultKind::OutOfBounds)
    } else if at.offset as usize % size != 0 {
        Err(FaultKind::Misaligned)
    } else {
        Ok(object)
    }
}

/// The value that cells stand for.
pub fn value_in(t: Scalar, cells: &[Cell]) -> Result<Value, FaultKind>
    requires { length cells.now ≤ 8 }
    ensures { result ≡ spec.value_in t cells.now }
{
    let Scalar::Int(k) = t;
    if any_nothing(cells) {
        Err(FaultKind::Uninitialised)
    } else if any_part(cells) {
        Err(FaultKind::PointerBytes)
    } else {
        Ok(Value::Int(convert(i128::from(number_in(cells)), k)))
    }
}

fn any_nothing(cells: &[Cell]) -> bool
    ensures { result ≡ list_any spec.is_nothing cells.now }
{
    cells.iter().any(|cell| is_nothing(*cell))
}

fn any_part(cells: &[Cell]) -> bool
    ensures { result ≡ list_any spec.is_part cells.now }
{
    cells.iter().any(|cell| is_part(*cell))
}

fn is_nothing(cell: Cell) -> bool
    ensures { result ≡ spec.is_nothing cell }
{
    matches!(cell, Cell::Nothing)
}

fn is_part(cell: Cell) -> bool
    ensures { result ≡ spec.is_part cell }
{
    matches!(cell, Cell::Part(_, _))
}

fn byte_of(cell: Cell) -> u8
    ensures { result ≡ spec.byte_of cell }
{
    match cell {
        Cell::Byte(byte) => byte,
        Cell::Nothing | Cell::Part(_, _) => 0,
    }
}

/// The number that bytes stand for, the least first.
fn number_in(cells: &[Cell]) -> u64
    requires { length cells.now ≤ 8 }
    ensures value { result ≡ spec.number_in cells.now }
    ensures below { result < 256 ^ length cells.now }
{
    match cells {
        [] => 0,
        [first, rest @ ..] => u64::from(byte_of(*first)) + 256 * number_in(rest),
    }
}

/// Stores a value of the type in the cells from an offset on.
pub fn put(object: &mut Object, offset: u32, t: Scalar, v: Value)
    requires of { IsOf t v }
    requires inside { offset + spec.size_of t ≤ length object.old.cells }
    ensures { object.new ≡ record object.old { cells = spec.cells_with offset (spec.cells_of t v) object.old.cells } }
{
    match (t, v) {
        (Scalar::Int(k), Value::Int(z)) => {
            let bits = z.rem_euclid(k.count()) as u128;
            set_bytes(&mut object.cells, offset as usize, bytes_of(k), bits);
        }
        _ => unreachable!(),
    }
}

/// Stores the low bytes of a number, the least first.
fn set_bytes(cells: &mut Items<Cell>, at: usize, count: usize, bits: u128)
    requires inside { at + count ≤ length cells.old }
    requires small { at + count < 2 ^ 64 }
    ensures { cells.new ≡ spec.cells_with at (map Byte (spec.bytes_in count bits)) cells.old }
{
    if count == 0 {
        return;
    }
    cells.set(at, Cell::Byte((bits % 256) as u8));
    set_bytes(cells, at + 1, count - 1, bits / 256);
}
