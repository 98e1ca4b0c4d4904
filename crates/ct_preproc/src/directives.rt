//! What a directive does (C11 6.10).

ghost use Rattle.std.specs.Prelude.{◌≡◌, ◌∷◌, IfOk};
ghost use Rattle.ct_base.specs.Answers.{OnAnswer};
ghost use Rattle.ct_directive.specs.Forms as forms;
ghost use Rattle.ct_preproc.specs.Directives as spec;
ghost use Rattle.ct_preproc.specs.Reading as reading;
ghost use Rattle.ct_preproc.specs.Steps as steps;

use crate::conditionals::{is_part, opened, opens_group};
use crate::file::File;
use crate::paths::with_file;
use crate::state::{Opens, State};
use ct_base::{Mem, Out, Token};
use ct_directive::{Header, PreFault, PreKind, first_other, is};

/// What stands behind a directive: the state and the open conditionals, and the header that is to be
/// included now.
#[derive(Drop)]
pub struct Step {
    pub state: State,
    pub opens: Opens,
    pub header: Option<Header>,
}

/// A step that includes nothing.
pub fn step_to(opens: Opens, state: State) -> Step
    ensures { result ≡ steps.step_to opens state }
{
    Step {
        state,
        opens,
        header: None,
    }
}

/// A step behind which one more conditional is open.
fn opening(line: u32, outer: bool, now: bool, opens: Opens, state: State) -> Mem<Step>
    ensures { IfOk result (λ step. step ≡ steps.step_to (steps.opened line outer now ∷ opens) state) }
{
    let mut opens = opens;
    opens.push(opened(line, outer, now))?;
    Ok(step_to(opens, state))
}

/// Whether `once` stands in a pragma alone.
fn is_once(tokens: &[Token]) -> bool
    ensures { result ≡ spec.is_once tokens.now }
{
    match tokens {
        [token] => is(b"once".as_slice(), token),
        _ => false,
    }
}

/// A directive in text that is skipped.
fn skipped(line: u32, state: State, opens: Opens, words: &[Token]) -> Mem<Step>
    ensures { IfOk result (λ step. step ≡ steps.skips line state opens words.now) }
{
    match words.first() {
        Some(name) if opens_group(name) => opening(line, false, false, opens, state),
        _ => Ok(step_to(opens, state)),
    }
}

impl File<'_> {
    /// `#pragma`.
    fn pragma(&self, state: State, tokens: &[Token]) -> Mem<State>
        ensures { IfOk result (λ after. after ≡ spec.pragma self.now.place.now state tokens.now) }
    {
        let mut state = state;
        if is_once(tokens) {
            state.once = with_file(self.alloc, self.place.path.as_str(), state.once)?;
        }
        Ok(state)
    }

    /// `#include`.
    fn include(
        &self,
        line: u32,
        state: State,
        tokens: &[Token],
    ) -> Out<(State, Option<Header>), PreFault>
        ensures { OnAnswer result (spec.Includes self.now.place.now self.now.limit line state tokens.now) }
    {
        let (header, state) = self.header(line, state, tokens)?;
        Ok((state, Some(header)))
    }

    /// `#define`.
    fn define(
        &self,
        line: u32,
        state: State,
        tokens: &[Token],
    ) -> Out<(State, Option<Header>), PreFault>
        ensures { OnAnswer result (spec.Changes (reading.HasDefined self.now.place.now line state (forms.definition_in tokens.now))) }
    {
        let state = self.defined(line, state, tokens)?;
        Ok((state, None))
    }

    /// `#undef`.
    fn undef(
        &self,
        line: u32,
        state: State,
        tokens: &[Token],
    ) -> Out<(State, Option<Header>), PreFault>
        ensures { OnAnswer result (spec.Changes (λ found. found ≡ reading.undefines self.now.place.now line state (forms.undefined_name tokens.now))) }
    {
        let state = self.undefined(line, state, tokens)?;
        Ok((state, None))
    }

    /// A control line whose tokens are preprocessing tokens, by its name.
    #[tactic(auto, using(crate::proofs::Choices::choice_rules))]
    fn named(
        &self,
        line: u32,
        state: State,
        name: &Token,
        tokens: &[Token],
    ) -> Out<(State, Option<Header>), PreFault>
        ensures { OnAnswer result (spec.NamedActs self.now.place.now self.now.limit line state name.now tokens.now) }
    {
        if is(b"include".as_slice(), name) {
            self.include(line, state, tokens)
        } else if is(b"define".as_slice(), name) {
            self.define(line, state, tokens)
        } else if is(b"undef".as_slice(), name) {
            self.undef(line, state, tokens)
        } else if is(b"warning".as_slice(), name) {
            Ok((state, None))
        } else {
            Err(self.fault(line, PreKind::BadDirective))
        }
    }

    /// A control line with these tokens behind its `#`.
    #[tactic(auto, using(crate::proofs::Choices::choice_rules))]
    fn control(
        &self,
        line: u32,
        state: State,
        words: &[Token],
    ) -> Out<(State, Option<Header>), PreFault>
        ensures { OnAnswer result (spec.Acts self.now.place.now self.now.limit line state words.now) }
    {
        let Some((name, tokens)) = words.split_first() else {
            return Ok((state, None));
        };
        if is(b"error".as_slice(), name) {
            return Err(self.fault(line, PreKind::Error));
        }
        if is(b"pragma".as_slice(), name) {
            return Ok((self.pragma(state, tokens)?, None));
        }
        match first_other(words) {
            Some(other) => Err(self.fault(other.span.line, PreKind::BadToken)),
            None => self.named(line, state, name, tokens),
        }
    }

    /// A step that is a control line.
    fn controlled(
        &self,
        line: u32,
        state: State,
        opens: Opens,
        words: &[Token],
    ) -> Out<Step, PreFault>
        ensures { OnAnswer result (steps.Controls self.now.place.now self.now.limit line state opens words.now) }
    {
        let (state, header) = self.control(line, state, words)?;
        Ok(Step {
            state,
            opens,
            header,
        })
    }

    /// A step that opens a conditional whose group may be read.
    fn open(
        &self,
        line: u32,
        state: State,
        opens: Opens,
        name: &Token,
        tokens: &[Token],
    ) -> Out<Step, PreFault>
        ensures { OnAnswer result (steps.Opens self.now.place.now self.now.limit line state opens name.now tokens.now) }
    {
        let (holds, state) = self.first_condition(line, state, name, tokens)?;
        Ok(opening(line, true, holds, opens, state)?)
    }

    /// A directive in text that is read.
    #[tactic(auto, using(crate::proofs::Choices::choice_rules))]
    fn active(&self, line: u32, state: State, opens: Opens, words: &[Token]) -> Out<Step, PreFault>
        ensures { OnAnswer result (steps.ActsInRead self.now.place.now self.now.limit line state opens words.now) }
    {
        match words.split_first() {
            Some((name, tokens)) if opens_group(name) => {
                self.open(line, state, opens, name, tokens)
            }
            _ => self.controlled(line, state, opens, words),
        }
    }

    /// A directive that is no part of an open conditional.
    #[tactic(auto, using(crate::proofs::Choices::choice_rules))]
    fn other(&self, line: u32, state: State, opens: Opens, words: &[Token]) -> Out<Step, PreFault>
        ensures { OnAnswer result (steps.OtherSteps self.now.place.now self.now.limit line state opens words.now) }
    {
        if opens.is_active() {
            self.active(line, state, opens, words)
        } else {
            Ok(skipped(line, state, opens, words)?)
        }
    }

    /// The directive with these tokens behind its `#`.
    #[tactic(auto, using(crate::proofs::Choices::choice_rules))]
    pub fn act(&self, line: u32, state: State, opens: Opens, words: &[Token]) -> Out<Step, PreFault>
        ensures { OnAnswer result (steps.Steps self.now.place.now self.now.limit line state opens words.now) }
    {
        match words.split_first() {
            Some((name, tokens)) if is_part(name) => self.part(line, state, opens, name, tokens),
            _ => self.other(line, state, opens, words),
        }
    }
}
