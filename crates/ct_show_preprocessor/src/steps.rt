//! The steps of a row about macros.

use crate::kinds::push_text;
use crate::scan::tokens_of;
use ct_base::{Fail, Mem, OutOfMemory, Token, TokenKind};
use ct_directive::definition_in;
use ct_macro::{Expansion, MacroFault, MacroKind, Macros, expand};
use ct_show_rows::Part;
use std::alloc::Global;

/// The macros so far, and how texts are expanded.
#[derive(Drop)]
pub struct Steps {
    pub macros: Macros,
    /// How many tokens may be put.
    pub room: u64,
    /// Whether places are shown.
    pub places: bool,
}

fn name_of_kind(kind: MacroKind) -> &'static str {
    match kind {
        MacroKind::BadDefinition => "BadDefinition",
        MacroKind::Redefined => "Redefined",
        MacroKind::Arguments => "Arguments",
        MacroKind::OpenCall => "OpenCall",
        MacroKind::BadPaste => "BadPaste",
        MacroKind::TooLong => "TooLong",
    }
}

/// Appends a refusal: its kind, the name of the macro, and its line.
fn push_fault(alloc: Global, fault: &MacroFault, out: &mut String) -> Mem<()> {
    out.push_str(name_of_kind(fault.kind))?;
    out.push(' ')?;
    push_text(fault.name.as_slice(), out)?;
    let line = format!(in alloc; " {}\n", fault.line)?;
    Ok(out.push_str(line.as_str())?)
}

/// Appends the texts of tokens, with a space between two.
fn push_tokens(tokens: &[Token], out: &mut String) -> Mem<()> {
    for token in tokens {
        push_text(token.text.as_slice(), out)?;
        out.push(' ')?;
    }
    out.push('\n')?;
    Ok(())
}

/// Appends the line and the text of each token, and how many tokens were put.
fn push_places(alloc: Global, expansion: &Expansion, out: &mut String) -> Mem<()> {
    for token in expansion.tokens.as_slice() {
        let line = format!(in alloc; "{} ", token.span.line)?;
        out.push_str(line.as_str())?;
        if token.spaced {
            out.push_str("space ")?;
        }
        push_text(token.text.as_slice(), out)?;
        out.push('\n')?;
    }
    let counted = format!(in alloc; "{} tokens were put\n", expansion.counted)?;
    Ok(out.push_str(counted.as_str())?)
}

impl Steps {
    /// Defines a macro, as it stands behind `#define`. The answer is whether it was taken.
    fn define(&mut self, alloc: Global, line: &[Token], out: &mut String) -> Mem<bool> {
        let Some(found) = definition_in(alloc, line)? else {
            out.push_str("no definition\n")?;
            return Ok(false);
        };
        match self.macros.define(found) {
            Ok(()) => Ok(true),
            Err(Fail::Fault(fault)) => {
                push_fault(alloc, &fault, out)?;
                Ok(false)
            }
            Err(Fail::OutOfMemory) => Err(OutOfMemory),
        }
    }

    /// Defines the macros of a text, one on a line, up to the first that is refused.
    fn define_all(&mut self, alloc: Global, text: &[u8], out: &mut String) -> Mem<bool> {
        let all = match tokens_of(alloc, text) {
            Ok(all) => all,
            Err(Fail::Fault(_)) => return Ok(false),
            Err(Fail::OutOfMemory) => return Err(OutOfMemory),
        };
        for line in all.as_slice().split(|token| token.kind == TokenKind::Line) {
            if !line.is_empty() && !self.define(alloc, line, out)? {
                return Ok(false);
            }
        }
        Ok(true)
    }

    /// Appends what a text becomes.
    fn expand(&self, alloc: Global, text: &[u8], out: &mut String) -> Mem<()> {
        let all = match tokens_of(alloc, text) {
            Ok(all) => all,
            Err(Fail::Fault(_)) => return Ok(out.push_str("an open comment\n")?),
            Err(Fail::OutOfMemory) => return Err(OutOfMemory),
        };
        match expand(alloc, &self.macros, all.as_slice(), self.room, false) {
            Ok(expansion) if self.places => push_places(alloc, &expansion, out),
            Ok(expansion) => push_tokens(expansion.tokens.as_slice(), out),
            Err(Fail::Fault(fault)) => push_fault(alloc, &fault, out),
            Err(Fail::OutOfMemory) => Err(OutOfMemory),
        }
    }

    /// Appends whether a name is defined.
    fn show_name(&self, name: &str, out: &mut String) -> Mem<()> {
        out.push_str(name)?;
        match self.macros.get(name.as_bytes()) {
            Some(_) => Ok(out.push_str(" is defined\n")?),
            None => Ok(out.push_str(" is not defined\n")?),
        }
    }

    /// Takes a step. The answer is whether the next may follow.
    pub fn take(&mut self, alloc: Global, part: &Part, out: &mut String) -> Mem<bool> {
        let option = part.option.as_str();
        let (word, value) = option.split_once(' ').unwrap_or((option, ""));
        match word {
            "define" => return self.define_all(alloc, part.text.as_slice(), out),
            "undef" => self.macros.undef(value.as_bytes()),
            "room" => self.room = value.parse().unwrap_or(0),
            "places" => self.places = true,
            "name" => self.show_name(value, out)?,
            _ => self.expand(alloc, part.text.as_slice(), out)?,
        }
        Ok(true)
    }
}
