//! The productions of an expression that wait for their last part.

ghost use Rattle.std.specs.Prelude.{◌≡◌, [], ◌∷◌, OnOk, MatchOption};
ghost use Rattle.ct_ppexpr.specs.View.{frame_of, stack};

use crate::values::Value;
use crate::words::Infix;
use ct_base::{Mem, UnaryOp};
use std::alloc::Global;

/// A production that waits for its last part.
#[derive(Clone, Copy, Debug, PartialEq, Eq)]
pub(crate) enum Frame {
    Paren,
    Prefix(UnaryOp),
    Between(Infix, Value),
    /// A test and its `?`.
    First(Value),
    /// A test, what it chooses where it holds, and the `:`.
    Second(Value, Value),
}

/// What comes next: an operand, or what stands behind one.
#[derive(Clone, Copy, Debug, PartialEq, Eq)]
pub(crate) enum Mode {
    Want,
    Have(Value),
}

/// The productions that wait, the innermost last.
#[derive(Drop)]
pub(crate) struct Open {
    frames: Vec<Frame>,
}

impl Open {
    pub fn new(alloc: Global) -> Open
        ensures { stack result ≡ [] }
    {
        Open {
            frames: Vec::new(alloc),
        }
    }

    #[tactic(auto, using(crate::proofs::Stacks::stack_snoc))]
    pub fn push(&mut self, frame: Frame) -> Mem<()>
        ensures { OnOk result (stack self.new ≡ frame_of frame ∷ stack self.old) }
    {
        self.frames.push(frame)?;
        Ok(())
    }

    #[tactic(auto, using(crate::proofs::Stacks::stack_snoc))]
    pub fn pop(&mut self) -> Option<Frame>
        ensures { MatchOption result ((stack self.old ≡ []) × (stack self.new ≡ [])) (λ f. stack self.old ≡ frame_of f ∷ stack self.new) }
    {
        self.frames.pop()
    }
}
