//! A text, line by line.

ghost use Rattle.std.specs.Prelude.{◌≡◌, ◌-◌, ◌<◌, ◌^◌, IfOk, IfErr, length};
ghost use Rattle.std.specs.Str as str_spec;
ghost use Rattle.ct_base.specs.Answers.{IfFault};
ghost use Rattle.ct_yaml.specs.Gives.{Gives};
ghost use Rattle.ct_yaml.specs.Run as spec;
ghost use Rattle.ct_yaml.specs.Stack as stack;
ghost use Rattle.ct_yaml.specs.Text.{line_number, text_lines, SpellsNode, IsFaultLine, IsRefused};

use crate::chars::{Unspelled, is_blank_line, is_marker};
use crate::lines::marks;
use crate::node::Node;
use crate::stack::OpenBlocks;
use bstr::ByteSlice;
use ct_base::{Fail, Mem, Out};
use std::alloc::Global;
use std::str;
use thiserror::Error;

/// A text that no node spells, by the line from which on no text begins so, or else its last. A line
/// past the end of the type is given as that end.
#[derive(Clone, Copy, Debug, PartialEq, Eq, Error)]
#[error("the text is outside the YAML profile")]
pub struct YamlFault {
    pub line: u32,
}

/// Which lines may come.
#[derive(Clone, Copy, Debug, PartialEq, Eq)]
pub enum Phase {
    /// None that counts has come: `---` may.
    Start,
    /// A line of the tree, or `...`.
    Body,
    /// `...` has come: blank lines and comments only.
    Ended,
}

/// A text that is being read.
#[derive(Debug, Drop)]
pub struct Reader {
    pub phase: Phase,
    pub blocks: OpenBlocks,
}

impl Reader {
    /// Before the first line.
    fn new(alloc: Global) -> Reader
        ensures { spec.place_of result ≡ spec.started }
    {
        Reader {
            phase: Phase::Start,
            blocks: OpenBlocks::new(alloc),
        }
    }

    /// Reads a line of the tree.
    fn body_line(&mut self, alloc: Global, line: &[u8]) -> Out<(), Unspelled>
        ensures { Gives (λ _. spec.place_of self.new) result
            (spec.body_step (stack.view self.old.blocks) line.now) }
    {
        let marks = marks(alloc, line)?;
        self.blocks.steps(alloc, marks)?;
        self.phase = Phase::Body;
        Ok(())
    }

    /// Reads a line that counts.
    fn other_line(&mut self, alloc: Global, line: &[u8]) -> Out<(), Unspelled>
        ensures { Gives (λ _. spec.place_of self.new) result
            (spec.other_step self.old.phase (stack.view self.old.blocks) line.now) }
    {
        match self.phase {
            Phase::Ended => return Err(Fail::Fault(Unspelled)),
            Phase::Start => {
                if is_marker(b'-', line) {
                    self.phase = Phase::Body;
                    return Ok(());
                }
            }
            Phase::Body => {}
        }
        if is_marker(b'.', line) {
            self.phase = Phase::Ended;
            return Ok(());
        }
        self.body_line(alloc, line)
    }

    /// Reads the next line.
    #[tactic(auto, unfolding(crate::specs::Run::line_step))]
    fn line(&mut self, alloc: Global, line: &[u8]) -> Out<(), Unspelled>
        ensures { Gives (λ _. spec.place_of self.new) result (spec.line_step (spec.place_of self.old) line.now) }
    {
        if !is_utf8(line) {
            return Err(Fail::Fault(Unspelled));
        }
        if is_blank_line(line) {
            return Ok(());
        }
        self.other_line(alloc, line)
    }
}

#[tactic(auto, using(crate::proofs::RunLemmas::utf8_rules))]
fn is_utf8(line: &[u8]) -> bool
    ensures { result ≡ str_spec.is_utf8 line.now }
{
    match str::from_utf8(line) {
        Ok(_) => true,
        Err(_) => false,
    }
}

/// The number of a line, which stands still at the type's end.
fn line_number(count: usize) -> u32
    ensures { result ≡ line_number count }
{
    u32::try_from(count).unwrap_or(u32::MAX)
}

/// Reads all lines.
#[tactic(auto, using(crate::proofs::CutLemmas::cut_lines, crate::proofs::CutLemmas::text_lines_few), unfolding(crate::specs::Run::run_all))]
fn read_lines(alloc: Global, bytes: &[u8]) -> Out<Node, YamlFault>
    ensures { spec.Comes result (spec.run_all (text_lines bytes.now)) }
{
    let mut reader = Reader::new(alloc);
    let mut count: usize = 0;
    for line in bytes.lines() {
        count += 1;
        match reader.line(alloc, line) {
            Ok(()) => {}
            Err(Fail::OutOfMemory) => return Err(Fail::OutOfMemory),
            Err(Fail::Fault(_)) => {
                let line = line_number(count);
                return Err(Fail::Fault(YamlFault { line }));
            }
        }
    }
    let node = reader.blocks.finish(alloc)?;
    Ok(node)
}

/// The node that the text spells. No other one does (`one_node`).
///
/// # Errors
///
/// A fault comes exactly where no node spells the text. Its line is the first, counted from 1, such that
/// the lines up to it begin no text, and the last line where there is none. Where the text has fewer than
/// 2 ^ 32 - 1 bytes, the number of the fault is that very line.
#[tactic(auto, using(crate::proofs::RunLemmas::answer_rules, crate::proofs::CutLemmas::comes_line))]
pub fn read(alloc: Global, bytes: &[u8]) -> Out<Node, YamlFault>
    ensures node { IfOk result (λ node. SpellsNode (text_lines bytes.now) node) }
    ensures refused { IfErr result (IsRefused (text_lines bytes.now)) }
    ensures line { length bytes.now < 2 ^ 32 - 1 → IfFault result (λ fault. IsFaultLine (text_lines bytes.now) fault.line) }
{
    read_lines(alloc, bytes)
}
