//! What is known between the lines of a unit.

ghost use Rattle.std.specs.Prelude.{◌≡◌, ◌∷◌, [], MatchOption, OnOk};
ghost use Rattle.ct_preproc.specs.Steps.{is_active};

use crate::units::{Definition, Include};
use ct_base::{Items, Mem, Text, Token};
use ct_macro::Macros;
use std::alloc::Global;
use std::marker::Model;

/// What is known behind the lines that were read.
#[derive(Drop)]
pub struct State {
    /// The tokens that are expanded, in order.
    pub tokens: Items<Token>,
    /// The paths of the files that were opened, each once, by their numbers.
    pub files: Items<Text>,
    pub includes: Items<Include>,
    pub macros: Macros,
    pub definitions: Items<Definition>,
    /// The tokens of text lines, and those that replacements put.
    pub counted: u64,
    /// The files that are not read again (`#pragma once`).
    pub once: Items<Text>,
}

/// The file that is read, how many includes lead to it, and whether it is a built-in header.
#[derive(Debug, Drop)]
pub struct Place {
    pub path: Text,
    pub depth: u32,
    pub built_in: bool,
}

/// An `#if`, `#ifdef` or `#ifndef` that is open (C11 6.10.1).
#[derive(Clone, Copy, Debug, PartialEq, Eq)]
pub struct Conditional {
    pub line: u32,
    /// Whether it stands in active text.
    pub outer: bool,
    /// Whether one of its groups was taken.
    pub taken: bool,
    /// Whether the group that is read is.
    pub now: bool,
    /// Whether its `#else` was read.
    pub last: bool,
}

/// The conditionals that are open in a file. Contracts see the list, the innermost first; the vector
/// has it last.
#[derive(Debug, Drop)]
pub struct Opens {
    items: Vec<Conditional>,
}

impl Model for Opens {
    ghost use Rattle.std.specs.Prelude.{List, reverse};
    ghost use Rattle.ct_preproc.specs.declared.state.Conditional.{Conditional};

    ghost Value = { List Conditional };

    ghost view = { λ opens. reverse opens.items.items };
}

impl Opens {
    /// No conditional is open.
    pub fn new(alloc: Global) -> Opens
        ensures { result ≡ [] }
    {
        Opens {
            items: Vec::new(alloc),
        }
    }

    /// Takes the innermost one.
    pub fn pop(&mut self) -> Option<Conditional>
        ensures { MatchOption result ((self.old ≡ []) × (self.new ≡ [])) (λ one. self.old ≡ one ∷ self.new) }
    {
        self.items.pop()
    }

    /// Opens one in those that are open.
    pub fn push(&mut self, one: Conditional) -> Mem<()>
        ensures { OnOk result (self.new ≡ one ∷ self.old) }
    {
        self.items.push(one)?;
        Ok(())
    }

    /// Whether the text behind them is read.
    pub fn is_active(&self) -> bool
        ensures { result ≡ is_active self.now }
    {
        match self.items.last() {
            Some(one) => one.now,
            None => true,
        }
    }
}
