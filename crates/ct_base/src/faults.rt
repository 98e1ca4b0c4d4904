//! The faults of a running test.

/// What a checked run can find undefined, or past a limit. A fault fails its test.
#[derive(Clone, Copy, Debug, PartialEq, Eq)]
pub enum FaultKind {
    /// An access, arithmetic other than adding 0, or a call through a null pointer.
    NullPointer,
    /// An access or arithmetic through a pointer to an object that has ended or never was.
    DeadObject,
    /// An access that does not lie inside its object.
    OutOfBounds,
    /// An access at an offset that its type does not allow.
    Misaligned,
    /// A store to a string literal or to an object that was defined `const`.
    WriteConst,
    /// A loaded value of which a byte was never written.
    Uninitialised,
    /// Bytes of a pointer read as a number, or a pointer read from other bytes.
    PointerBytes,
    /// A signed result outside its type (C11 6.5p5).
    SignedOverflow,
    /// A division by zero (C11 6.5.5p5).
    DivideByZero,
    /// A shift count, or a signed left shift, outside its range (C11 6.5.7).
    ShiftRange,
    /// Pointer arithmetic that leaves its object (C11 6.5.6p8).
    PointerRange,
    /// An order comparison of pointers into two objects (C11 6.5.8p5).
    PointerOrder,
    /// A difference of pointers into two objects, or of part of an element (C11 6.5.6p9).
    PointerDifference,
    /// A call through a pointer of another type than the definition's (C11 6.5.2.2p9).
    BadCall,
    /// The value of a function that ended without one is used (C11 6.9.1p12).
    MissingReturn,
    /// A copy between ranges that meet, where they must not.
    Overlap,
    /// A `free` of what is no live block.
    BadFree,
    /// More nested calls than a run allows.
    CallDepth,
    /// More steps than the budget of a test.
    StepBudget,
}
