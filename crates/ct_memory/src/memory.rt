//! The objects of both spaces.

ghost use Rattle.std.specs.Prelude.{◌≡◌, ◌<◌, ◌≤◌, ◌^◌, length, Ok, Err, IfOk, IsOk, OnOk, OnErr, MatchResult};
ghost use Rattle.ct_base.specs.Limits.{mebibyte};
ghost use Rattle.ct_core.specs.Memory.{objects_in, object_of, no_objects, with_new, new_object, next_pointer, about_object, cell_at};
ghost use Rattle.ct_core.specs.Access.{reached_object, memory_with, load_result, store_result, initialise_result, end_result, IsOf};

use crate::access::{add, begins, end_object, new_cells, put, reach, size_of, value_in};
use ct_base::{FaultKind, Items, Mem};
use ct_core::{Cell, Kind, Look, Object, Pointer, Scalar, Space, Value};
use std::alloc::Global;
use std::marker::Model;

/// The objects of a run. Contracts see those of each space by their numbers.
#[derive(Debug, Drop)]
pub struct Memory {
    alloc: Global,
    project: Vec<Object>,
    tool: Vec<Object>,
}

impl Model for Memory {
    ghost use Rattle.ct_core.specs.Memory as spec;

    ghost Value = { spec.Memory };

    ghost view = { λ m. record { project = m.project.items; tool = m.tool.items } };
}

impl Memory {
    /// A memory without objects.
    pub fn new(alloc: Global) -> Mem<Memory>
        ensures { IfOk result (λ memory. memory ≡ no_objects) }
    {
        Ok(Memory {
            alloc,
            project: Vec::new(alloc),
            tool: Vec::new(alloc),
        })
    }

    /// How many objects were made in a space.
    pub fn made(&self, space: Space) -> u64
        ensures { result ≡ length (objects_in space self.now) }
    {
        self.objects(space).len() as u64
    }

    /// Makes an object of so many bytes, in which nothing is stored, and gives its begin. The
    /// space never had its number. For want of memory nothing is made.
    pub fn create(
        &mut self,
        space: Space,
        kind: Kind,
        name: u32,
        bytes: u32,
        constant: bool,
    ) -> Mem<Pointer>
        requires room { length (objects_in space self.old) < 2 ^ 42 }
        requires some { 1 ≤ bytes }
        requires at_most { bytes ≤ mebibyte }
        ensures pointer { IfOk result (λ pointer. pointer ≡ next_pointer space self.old) }
        ensures ok { OnOk result (self.new ≡ with_new space (new_object kind name bytes constant) self.old) }
        ensures err { OnErr result (self.new ≡ self.old) }
    {
        let cells = new_cells(self.alloc, bytes)?;
        let object = Object {
            kind,
            name,
            cells,
            alive: true,
            constant,
        };
        let number = match space {
            Space::Project => add(&mut self.project, object)?,
            Space::Tool => add(&mut self.tool, object)?,
        };
        Ok(Pointer {
            space,
            number,
            offset: 0,
        })
    }

    /// Ends a live object. `BadFree` is for a pointer that is not to the begin of one, and then
    /// nothing changes.
    #[tactic(auto, unfolding(ct_core::specs::Access::end_result))]
    pub fn end(&mut self, at: Pointer) -> Result<(), FaultKind>
        ensures { MatchResult result (λ _. end_result at self.old ≡ Ok self.new) (λ fault. (end_result at self.old ≡ Err fault) × (self.new ≡ self.old)) }
    {
        if !begins(self.objects(at.space), at) {
            return Err(FaultKind::BadFree);
        }
        let alloc = self.alloc;
        match at.space {
            Space::Project => end_object(alloc, &mut self.project[at.number as usize]),
            Space::Tool => end_object(alloc, &mut self.tool[at.number as usize]),
        }
        Ok(())
    }

    /// The value that a live object holds at a place. The faults are `DeadObject`, `OutOfBounds`,
    /// `Misaligned`, `Uninitialised` and `PointerBytes`, the first of them in this order.
    #[tactic(auto, unfolding(ct_core::specs::Access::load_result))]
    pub fn load(&self, at: Pointer, t: Scalar) -> Result<Value, FaultKind>
        ensures { result ≡ load_result at t self.now }
    {
        let object = reach(self.objects(at.space), at, t)?;
        let start = at.offset as usize;
        value_in(t, &object.cells.as_slice()[start..start + size_of(t)])
    }

    /// Stores a value of the type at a place of a live object. The faults are `DeadObject`,
    /// `OutOfBounds`, `Misaligned` and `WriteConst`, the first of them in this order; a fault
    /// changes nothing.
    #[tactic(auto, unfolding(ct_core::specs::Access::store_result))]
    pub fn store(&mut self, at: Pointer, t: Scalar, v: Value) -> Result<(), FaultKind>
        requires { IsOf t v }
        ensures { MatchResult result (λ _. store_result at t v self.old ≡ Ok self.new) (λ fault. (store_result at t v self.old ≡ Err fault) × (self.new ≡ self.old)) }
    {
        if reach(self.objects(at.space), at, t)?.constant {
            return Err(FaultKind::WriteConst);
        }
        self.put(at, t, v);
        Ok(())
    }

    /// `store` without `WriteConst`.
    #[tactic(auto, unfolding(ct_core::specs::Access::initialise_result))]
    pub fn initialise(&mut self, at: Pointer, t: Scalar, v: Value) -> Result<(), FaultKind>
        requires { IsOf t v }
        ensures { MatchResult result (λ _. initialise_result at t v self.old ≡ Ok self.new) (λ fault. (initialise_result at t v self.old ≡ Err fault) × (self.new ≡ self.old)) }
    {
        let _object = reach(self.objects(at.space), at, t)?;
        self.put(at, t, v);
        Ok(())
    }

    /// The kind and the name with which an object was made, of ended objects too. None is where
    /// no such object was made.
    pub fn about(&self, at: Pointer) -> Option<(Kind, u32)>
        ensures { result ≡ about_object at self.now }
    {
        let object = self.objects(at.space).get(at.number as usize)?;
        Some((object.kind, object.name))
    }

    /// Stores a value of the type at a place that an access of it reaches.
    fn put(&mut self, at: Pointer, t: Scalar, v: Value)
        requires of { IsOf t v }
        requires reached { IsOk (reached_object at t (object_of at self.old)) }
        ensures { IfOk (reached_object at t (object_of at self.old)) (λ object. self.new ≡ memory_with at t v self.old object) }
    {
        match at.space {
            Space::Project => put(&mut self.project[at.number as usize], at.offset, t, v),
            Space::Tool => put(&mut self.tool[at.number as usize], at.offset, t, v),
        }
    }

    /// The objects of a space.
    fn objects(&self, space: Space) -> &[Object]
        ensures { result.now ≡ objects_in space self.now }
    {
        match space {
            Space::Project => self.project.as_slice(),
            Space::Tool => self.tool.as_slice(),
        }
    }
}

impl Look for Memory {
    ghost use Rattle.ct_core.specs.Memory.{cell_at};

    ghost cells = { λ m at. cell_at at m };

    fn cell(&self, at: Pointer) -> Option<Cell> {
        let object = self.objects(at.space).get(at.number as usize)?;
        Some(*object.cells.get(at.offset as usize)?)
    }
}
