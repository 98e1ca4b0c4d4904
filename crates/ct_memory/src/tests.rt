//! Tests on values worked out by hand from the rules.

use crate::{Kind, Look, Memory, Scalar};
use ct_base::FaultKind;
use ct_core::{Cell, Pointer, Space, Value};
use ct_ctype::IntKind;
use std::test::Fail;

const INT: Scalar = Scalar::Int(IntKind::Int);

const fn place(space: Space, number: u64, offset: u32) -> Pointer {
    Pointer {
        space,
        number,
        offset,
    }
}

fn number(loaded: Result<Value, FaultKind>) -> Result<i128, FaultKind> {
    match loaded? {
        Value::Int(z) => Ok(z),
        _ => Err(FaultKind::MissingReturn),
    }
}

// 16909060 is 0x01020304, and -2 is 0xfffffffe
const LOADS: [(u32, IntKind, Result<i128, FaultKind>); 14] = [
    (0, IntKind::Int, Ok(16909060)),
    (0, IntKind::UnsignedChar, Ok(4)),
    (1, IntKind::UnsignedChar, Ok(3)),
    (2, IntKind::Short, Ok(258)),
    (0, IntKind::Bool, Ok(1)),
    (4, IntKind::Int, Ok(-2)),
    (4, IntKind::UnsignedInt, Ok(4294967294)),
    (4, IntKind::Char, Ok(-2)),
    (7, IntKind::UnsignedChar, Ok(255)),
    (0, IntKind::LongLong, Ok(-8573025532)),
    (2, IntKind::Int, Err(FaultKind::Misaligned)),
    (8, IntKind::Int, Err(FaultKind::Uninitialised)),
    (12, IntKind::Char, Err(FaultKind::OutOfBounds)),
    (10, IntKind::Int, Err(FaultKind::OutOfBounds)),
];

#[test]
fn loads_by_kind_and_place(rt: HostRuntime) -> Result<(), Fail> {
    let mut memory = Memory::new(rt.alloc())?;
    let object = memory.create(Space::Project, Kind::Automatic, 7, 12, false)?;
    assert_eq!(rt; object, place(Space::Project, 0, 0));
    assert_eq!(rt; memory.store(object, INT, Value::Int(16909060)), Ok(()));
    assert_eq!(rt;
        memory.store(place(Space::Project, 0, 4), INT, Value::Int(-2)),
        Ok(())
    );
    for (offset, kind, wanted) in LOADS {
        let loaded = memory.load(place(Space::Project, 0, offset), Scalar::Int(kind));
        assert_eq!(rt; number(loaded), wanted, "at {offset}");
    }
    assert_eq!(rt;
        memory.cell(place(Space::Project, 0, 3)),
        Some(Cell::Byte(1))
    );
    assert_eq!(rt;
        memory.cell(place(Space::Project, 0, 11)),
        Some(Cell::Nothing)
    );
    assert_eq!(rt; memory.cell(place(Space::Project, 0, 12)), None);
    Ok(())
}

#[test]
fn objects_end_and_keep_their_numbers(rt: HostRuntime) -> Result<(), Fail> {
    let mut memory = Memory::new(rt.alloc())?;
    let first = memory.create(Space::Project, Kind::Automatic, 7, 4, false)?;
    let tool = memory.create(Space::Tool, Kind::Text, 3, 1, true)?;
    assert_eq!(rt; tool, place(Space::Tool, 0, 0));
    assert_eq!(rt;
        memory.end(place(Space::Project, 0, 1)),
        Err(FaultKind::BadFree)
    );
    assert_eq!(rt; memory.end(first), Ok(()));
    assert_eq!(rt; memory.end(first), Err(FaultKind::BadFree));
    assert_eq!(rt; number(memory.load(first, INT)), Err(FaultKind::DeadObject));
    assert_eq!(rt;
        memory.store(first, INT, Value::Int(0)),
        Err(FaultKind::DeadObject)
    );
    assert_eq!(rt;
        memory.initialise(place(Space::Project, 9, 0), INT, Value::Int(0)),
        Err(FaultKind::DeadObject)
    );
    assert_eq!(rt; memory.about(first), Some((Kind::Automatic, 7)));
    assert_eq!(rt; memory.about(place(Space::Project, 1, 0)), None);
    assert!(rt; memory.made(Space::Project) < 4_398_046_511_104);
    let second = memory.create(Space::Project, Kind::Static, 8, 4, false)?;
    assert_eq!(rt; second, place(Space::Project, 1, 0));
    assert_eq!(rt; memory.made(Space::Project), 2);
    Ok(())
}

#[test]
fn constant_objects_are_initialised_and_not_stored_to(rt: HostRuntime) -> Result<(), Fail> {
    let mut memory = Memory::new(rt.alloc())?;
    let object = memory.create(Space::Tool, Kind::Static, 0, 4, true)?;
    assert_eq!(rt;
        memory.store(object, INT, Value::Int(1)),
        Err(FaultKind::WriteConst)
    );
    assert_eq!(rt;
        number(memory.load(object, INT)),
        Err(FaultKind::Uninitialised)
    );
    assert_eq!(rt;
        memory.initialise(object, INT, Value::Int(2147483647)),
        Ok(())
    );
    assert_eq!(rt;
        memory.store(object, INT, Value::Int(1)),
        Err(FaultKind::WriteConst)
    );
    assert_eq!(rt; number(memory.load(object, INT)), Ok(2147483647));
    Ok(())
}
