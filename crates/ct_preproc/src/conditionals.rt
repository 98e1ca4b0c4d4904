//! The groups of a conditional (C11 6.10.1).

ghost use Rattle.std.specs.Prelude.{◌≡◌, ◌∷◌, IfOk};
ghost use Rattle.ct_base.specs.Answers.{OnAnswer};
ghost use Rattle.ct_directive.specs.Groups as groups;
ghost use Rattle.ct_preproc.specs.Directives as directives;
ghost use Rattle.ct_preproc.specs.Steps as spec;

use crate::directives::{Step, step_to};
use crate::file::File;
use crate::state::{Conditional, Opens, State};
use ct_base::{Mem, Out, Token};
use ct_directive::{PreFault, PreKind, first_other, is, one_name};

/// A conditional that opens in this line.
pub fn opened(line: u32, outer: bool, now: bool) -> Conditional
    ensures { result ≡ spec.opened line outer now }
{
    Conditional {
        line,
        outer,
        taken: now,
        now,
        last: false,
    }
}

/// Whether a directive opens a conditional.
pub fn opens_group(name: &Token) -> bool
    ensures { result ≡ groups.opens_group name.now }
{
    is(b"if".as_slice(), name) || is(b"ifdef".as_slice(), name) || is(b"ifndef".as_slice(), name)
}

/// Whether a directive goes on with a conditional or closes it.
pub fn is_part(name: &Token) -> bool
    ensures { result ≡ spec.is_part name.now }
{
    is(b"elif".as_slice(), name) || is(b"else".as_slice(), name) || is(b"endif".as_slice(), name)
}

/// A conditional behind an `#elif` whose group is read or not.
fn regrouped(one: Conditional, now: bool) -> Conditional
    ensures { result ≡ spec.regrouped one now }
{
    Conditional {
        taken: one.taken || now,
        now,
        ..one
    }
}

/// A conditional behind its `#else`.
fn otherwise(one: Conditional) -> Conditional
    ensures { result ≡ spec.otherwise one }
{
    Conditional {
        taken: true,
        now: one.outer && !one.taken,
        last: true,
        ..one
    }
}

/// A step behind which this conditional is the innermost one.
fn going_on(one: Conditional, others: Opens, state: State) -> Mem<Step>
    ensures { IfOk result (λ step. step ≡ spec.step_to (one ∷ others) state) }
{
    let mut opens = others;
    opens.push(one)?;
    Ok(step_to(opens, state))
}

impl File<'_> {
    /// The condition of an `#if` or `#elif`.
    #[tactic(auto, using(crate::proofs::Choices::choice_rules))]
    fn condition(&self, line: u32, state: State, tokens: &[Token]) -> Out<(bool, State), PreFault>
        ensures { OnAnswer result (directives.Condition self.now.place.now self.now.limit line state tokens.now) }
    {
        match first_other(tokens) {
            Some(other) => Err(self.fault(other.span.line, PreKind::BadToken)),
            None => self.holds(line, state, tokens),
        }
    }

    /// The condition of an `#ifdef`, or of an `#ifndef` where the name shall not be defined.
    #[tactic(auto, using(crate::proofs::Choices::choice_rules))]
    fn name_condition(
        &self,
        line: u32,
        defined: bool,
        state: State,
        tokens: &[Token],
    ) -> Out<(bool, State), PreFault>
        ensures { OnAnswer result (directives.NameCondition self.now.place.now line defined state tokens.now) }
    {
        match first_other(tokens) {
            Some(other) => Err(self.fault(other.span.line, PreKind::BadToken)),
            None => self.name_holds(line, defined, state, one_name(tokens)),
        }
    }

    /// The condition of a directive of this name which opens a conditional.
    #[tactic(auto, using(crate::proofs::Choices::choice_rules))]
    pub fn first_condition(
        &self,
        line: u32,
        state: State,
        name: &Token,
        tokens: &[Token],
    ) -> Out<(bool, State), PreFault>
        ensures { OnAnswer result (directives.FirstCondition self.now.place.now self.now.limit line state name.now tokens.now) }
    {
        if is(b"if".as_slice(), name) {
            self.condition(line, state, tokens)
        } else {
            self.name_condition(line, is(b"ifdef".as_slice(), name), state, tokens)
        }
    }

    /// The `#elif` of a conditional in these others.
    #[tactic(auto, using(crate::proofs::Choices::choice_rules))]
    fn elif(
        &self,
        line: u32,
        state: State,
        one: Conditional,
        others: Opens,
        tokens: &[Token],
    ) -> Out<Step, PreFault>
        ensures { OnAnswer result (spec.Elifs self.now.place.now self.now.limit line state one others tokens.now) }
    {
        if !one.outer || one.taken {
            return Ok(going_on(regrouped(one, false), others, state)?);
        }
        let (holds, state) = self.condition(line, state, tokens)?;
        Ok(going_on(regrouped(one, holds), others, state)?)
    }

    /// An `#elif`, `#else` or `#endif`.
    #[tactic(auto, using(crate::proofs::Choices::choice_rules))]
    pub fn part(
        &self,
        line: u32,
        state: State,
        opens: Opens,
        name: &Token,
        tokens: &[Token],
    ) -> Out<Step, PreFault>
        ensures { OnAnswer result (spec.Parts self.now.place.now self.now.limit line state opens name.now tokens.now) }
    {
        let mut others = opens;
        let Some(one) = others.pop() else {
            return Err(self.fault(line, PreKind::Unbalanced));
        };
        if is(b"endif".as_slice(), name) {
            return Ok(step_to(others, state));
        }
        if one.last {
            return Err(self.fault(line, PreKind::Unbalanced));
        }
        if is(b"else".as_slice(), name) {
            return Ok(going_on(otherwise(one), others, state)?);
        }
        self.elif(line, state, one, others, tokens)
    }
}
