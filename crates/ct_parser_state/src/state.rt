//! The productions that are open, and the names in scope.

ghost use Rattle.std.specs.Prelude.{◌≡◌, [], ◌∷◌, OnOk, MatchOption};
ghost use Rattle.ct_parser_state.specs.Code.{entries, frames, scope, stack, outside};
ghost use Rattle.ct_parser_state.specs.declared.entries.Entry.TheVariants.{Scope as scope_entry, Name as name_entry};
ghost use Rattle.ct_grammar_machine.specs.Frames.{stack_needs};
ghost use Rattle.ct_parser_parts.specs.Parts.{declare_all as spec_all};
ghost use Rattle.ct_parser_parts.specs.Views.{names_of};

use crate::Names;
use crate::frames::{Frame, frame_needs};
use ct_base::{Bytes, Mem};
use ct_parser_parts::Declared;
use std::alloc::Global;

/// The productions that are open, the innermost last, and the names that are declared.
#[derive(Drop)]
pub struct ParserState {
    frames: Vec<Frame>,
    names: Names,
}

impl ParserState {
    /// Nothing is open, and nothing declared.
    pub fn new(alloc: Global) -> ParserState
        ensures frames { frames result ≡ [] }
        ensures names { entries result ≡ [] }
    {
        ParserState {
            frames: Vec::new(alloc),
            names: Names::new(alloc),
        }
    }

    /// Opens a production.
    #[tactic(auto, using(crate::proofs::Rules::reverse_last))]
    pub fn push(&mut self, frame: Frame) -> Mem<()>
        ensures frames { OnOk result (frames self.new ≡ frame ∷ frames self.old) }
        ensures names { entries self.new ≡ entries self.old }
    {
        self.frames.push(frame)?;
        Ok(())
    }

    /// Takes the innermost production.
    #[tactic(auto, using(crate::proofs::Rules::reverse_last))]
    pub fn pop(&mut self) -> Option<Frame>
        ensures frames { MatchOption result ((frames self.old ≡ []) × (frames self.new ≡ [])) (λ top. frames self.old ≡ top ∷ frames self.new) }
        ensures names { entries self.new ≡ entries self.old }
    {
        self.frames.pop()
    }

    /// Opens a scope.
    pub fn enter(&mut self) -> Mem<()>
        ensures names { OnOk result (entries self.new ≡ scope_entry ∷ entries self.old) }
        ensures frames { frames self.new ≡ frames self.old }
    {
        self.names.enter()
    }

    /// Leaves the innermost scope.
    pub fn leave(&mut self)
        ensures names { entries self.new ≡ outside (entries self.old) }
        ensures frames { frames self.new ≡ frames self.old }
    {
        self.names.leave();
    }

    /// Declares a name.
    pub fn declare(&mut self, name: Bytes, is_type: bool) -> Mem<()>
        ensures names { OnOk result (entries self.new ≡ name_entry name is_type ∷ entries self.old) }
        ensures frames { frames self.new ≡ frames self.old }
    {
        self.names.declare(name, is_type)
    }

    /// Declares names in their order.
    pub fn declare_all(&mut self, alloc: Global, names: &[Declared]) -> Mem<()>
        ensures scope { OnOk result (scope self.new ≡ spec_all (scope self.old) (names_of names.now)) }
        ensures outside { OnOk result (outside (entries self.new) ≡ outside (entries self.old)) }
        ensures frames { frames self.new ≡ frames self.old }
    {
        for declared in names {
            let name = Bytes::from_slice(alloc, declared.name.as_slice())?;
            self.declare(name, declared.is_type)?;
        }
        Ok(())
    }

    /// Whether a name is a typedef name: the entry that was declared last says so.
    #[tactic(auto, using(crate::proofs::Rules::scope_by_meaning))]
    pub fn is_type(&self, name: &[u8]) -> bool
        ensures { result ≡ scope self.now name.now }
    {
        self.names.meaning(name).unwrap_or(false)
    }

    /// The level that the part of the innermost production is at least of.
    #[tactic(auto, using(crate::proofs::Rules::needs_last, crate::proofs::Rules::needs_none))]
    pub fn needs(&self) -> u8
        ensures { result ≡ stack_needs (stack self.now) }
    {
        match self.frames.last() {
            None => 1,
            Some(frame) => frame_needs(frame),
        }
    }
}
