//! What is known while the lines of a file are read.

ghost use Rattle.std.specs.Prelude.{◌≡◌, IfOk, Ok, Err, map};
ghost use Rattle.ct_base.specs.Answers.{IfFault, OnAnswer};
ghost use Rattle.ct_token.specs.Lines as token_lines;
ghost use Rattle.ct_preproc.specs.Files as spec;
ghost use Rattle.ct_preproc.specs.Reading as reads;
ghost use Rattle.ct_preproc.specs.Steps as steps;

use crate::file::File;
use crate::paths::{with_file, with_path};
use crate::state::{Opens, Place, State};
use crate::units::Include;
use ct_base::{Bytes, Fail, Items, Mem, Out, Text, Token};
use ct_directive::{PreFault, PreKind};
use ct_token::tokens;
use std::alloc::Global;

/// Texts of so many lines want more memory than there is.
const MOST_LINES: usize = 4_294_967_295;

/// What is known behind some lines of a file: the state behind the last directive, the conditionals
/// that are open, and the text lines behind that directive, which are not yet expanded.
#[derive(Drop)]
pub struct Reading {
    pub state: State,
    pub opens: Opens,
    pub text: Items<Token>,
}

/// What is known at the begin of a file: it has a number, and its path is `__FILE__`.
pub fn begun(alloc: Global, place: &Place, state: State) -> Mem<Reading>
    ensures { IfOk result (λ reading. reading ≡ steps.begun place.now state) }
{
    let mut state = state;
    state.files = with_file(alloc, place.path.as_str(), state.files)?;
    state.macros = with_path(alloc, place.path.as_str(), state.macros)?;
    Ok(Reading {
        state,
        opens: Opens::new(alloc),
        text: Items::new(alloc),
    })
}

/// A state with one more include.
pub fn with_include(
    alloc: Global,
    place: &Place,
    line: u32,
    name: Bytes,
    path: &str,
    state: State,
) -> Mem<State>
    ensures { IfOk result (λ after. after ≡ spec.with_include place.now line name path.now state) }
{
    let mut state = state;
    state.includes.push(Include {
        name,
        path: Text::copy_of(alloc, path)?,
        depth: place.depth,
        line,
    })?;
    Ok(state)
}

impl File<'_> {
    /// A text line that is active.
    fn active_line(&self, reading: Reading, line: Items<Token>) -> Out<Reading, PreFault>
        ensures { OnAnswer result (λ answer. answer ≡ steps.text_answer reading line (reads.counts self.now.place.now self.now.limit reading.state.counted line)) }
    {
        let mut reading = reading;
        reading.state.counted = self.count(reading.state.counted, line.as_slice())?;
        reading.text.append(line)?;
        Ok(reading)
    }

    /// A text line.
    #[tactic(auto, using(crate::proofs::Choices::choice_rules))]
    pub fn text_line(&self, reading: Reading, line: Items<Token>) -> Out<Reading, PreFault>
        ensures { OnAnswer result (steps.StepsText self.now.place.now self.now.limit reading line) }
    {
        if reading.opens.is_active() {
            self.active_line(reading, line)
        } else {
            Ok(reading)
        }
    }

    /// The state at the end of the file, where these conditionals are open.
    fn end(&self, opens: Opens, state: State) -> Out<State, PreFault>
        ensures { OnAnswer result (λ answer. answer ≡ steps.closed self.now.place.now opens state) }
    {
        let mut opens = opens;
        match opens.pop() {
            Some(one) => Err(self.fault(one.line, PreKind::Unbalanced)),
            None => Ok(state),
        }
    }

    /// The state at the end of the file.
    pub fn closed(&self, reading: Reading) -> Out<State, PreFault>
        ensures { OnAnswer result (steps.Closes self.now.place.now self.now.limit reading) }
    {
        let Reading { state, opens, text } = reading;
        let state = self.ended(state, text)?;
        self.end(opens, state)
    }

    /// The tokens of the file.
    pub fn lexed(&self, built_in: bool, number: usize, text: &[u8]) -> Out<Vec<Token>, PreFault>
        ensures tokens { IfOk result (λ tokens. reads.IsLexed self.now.place.now built_in number text.now (Ok tokens.items)) }
        ensures open { IfFault result (λ fault. reads.IsLexed self.now.place.now built_in number text.now (Err fault)) }
    {
        let Ok(number) = u32::try_from(number) else {
            return Err(Fail::OutOfMemory);
        };
        if newlines(text) >= MOST_LINES {
            return Err(Fail::OutOfMemory);
        }
        match tokens(self.alloc, number, text) {
            Ok(tokens) => Ok(placed(self.alloc, built_in, tokens)?),
            Err(Fail::Fault(fault)) => {
                Err(self.fault(line_in(built_in, fault.line), PreKind::OpenComment))
            }
            Err(Fail::OutOfMemory) => Err(Fail::OutOfMemory),
        }
    }
}

/// The line that a fault has; in a built-in header it has none.
fn line_in(built_in: bool, line: u32) -> u32
    ensures { result ≡ reads.line_in built_in line }
{
    if built_in { 0 } else { line }
}

/// How many lines end in a text.
fn newlines(text: &[u8]) -> usize
    ensures { result ≡ token_lines.newlines text.now }
{
    let mut count = 0;
    let mut rest = text;
    while let Some((byte, more)) = rest.split_first() {
        if *byte == b'\n' {
            count += 1;
        }
        rest = more;
    }
    count
}

/// Tokens without their lines.
fn unplaced(alloc: Global, tokens: Vec<Token>) -> Mem<Vec<Token>>
    ensures { IfOk result (λ list. list.items ≡ map reads.unplaced tokens.items) }
{
    let mut list = Vec::new(alloc);
    for token in tokens {
        let mut token = token;
        token.span.line = 0;
        list.push(token)?;
    }
    Ok(list)
}

/// Tokens without their lines, where they are those of a built-in header.
fn placed(alloc: Global, built_in: bool, tokens: Vec<Token>) -> Mem<Vec<Token>>
    ensures { IfOk result (λ list. list.items ≡ reads.placed built_in tokens.items) }
{
    if built_in {
        unplaced(alloc, tokens)
    } else {
        Ok(tokens)
    }
}
