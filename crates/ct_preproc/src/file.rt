//! A file while it is read, and what is done with its tokens.

ghost use Rattle.std.specs.Prelude.{true, ◌≡◌, IfOk};
ghost use Rattle.std.specs.Option.{option_copied};
ghost use Rattle.ct_base.specs.Answers.{OnAnswer};
ghost use Rattle.ct_directive.specs.Forms as forms;
ghost use Rattle.ct_preproc.specs.Reading as spec;

use crate::state::{Place, State};
use crate::units::Definition;
use ct_base::{Bytes, Fail, Items, LimitKind, Mem, Out, Text, Token, TokenKind};
use ct_directive::{
    Header, PreFault, PreKind, definition_in, has_operator, header_in, is_defined, quoted_header,
    undefined_name, without_defined, without_pragmas,
};
use ct_macro::{MacroKind, expand};
use ct_ppexpr::condition;
use std::alloc::Global;

/// A file while it is read, and the most tokens that may be counted in its unit.
#[derive(Clone, Copy)]
pub struct File<'a> {
    pub alloc: Global,
    pub place: &'a Place,
    pub limit: u64,
}

/// What a refusal of a macro is.
fn kind_of(kind: MacroKind) -> PreKind
    ensures { result ≡ spec.kind_of kind }
{
    match kind {
        MacroKind::BadDefinition => PreKind::BadDefinition,
        MacroKind::Redefined => PreKind::Redefined,
        MacroKind::Arguments => PreKind::Arguments,
        MacroKind::OpenCall => PreKind::OpenCall,
        MacroKind::BadPaste => PreKind::BadPaste,
        MacroKind::TooLong => PreKind::Limit(LimitKind::Tokens),
    }
}

impl File<'_> {
    /// A refusal in a line of the file.
    pub fn fault(&self, line: u32, kind: PreKind) -> Fail<PreFault>
        ensures { spec.IsFault result (spec.fault_at self.now.place.now line kind) }
    {
        match Text::copy_of(self.alloc, self.place.path.as_str()) {
            Ok(file) => Fail::Fault(PreFault { file, line, kind }),
            Err(_) => Fail::OutOfMemory,
        }
    }

    /// The number of tokens that are counted behind a text line.
    pub fn count(&self, counted: u64, line: &[Token]) -> Out<u64, PreFault>
        ensures { OnAnswer result (λ answer. answer ≡ spec.counts self.now.place.now self.now.limit counted line.now) }
    {
        let mut counted = counted;
        let mut rest = line;
        while let Some((token, more)) = rest.split_first() {
            if token.kind == TokenKind::Other {
                return Err(self.fault(token.span.line, PreKind::BadToken));
            }
            if token.kind != TokenKind::Line {
                if counted >= self.limit {
                    return Err(self.fault(token.span.line, PreKind::Limit(LimitKind::Tokens)));
                }
                counted += 1;
            }
            rest = more;
        }
        Ok(counted)
    }

    /// The expansion of the tokens of a condition, or of a text, without the pragmas in it, and the state behind it.
    pub fn expanded(
        &self,
        state: State,
        tokens: &[Token],
        condition: bool,
    ) -> Out<(Items<Token>, State), PreFault>
        ensures { OnAnswer result (spec.Expands condition self.now.place.now self.now.limit state tokens.now) }
    {
        let mut state = state;
        let room = self.limit.saturating_sub(state.counted);
        match expand(self.alloc, &state.macros, tokens, room, condition) {
            Ok(expansion) => {
                let Some(counted) = state.counted.checked_add(expansion.counted) else {
                    return Err(Fail::OutOfMemory);
                };
                state.counted = counted;
                Ok((without_pragmas(self.alloc, expansion.tokens)?, state))
            }
            Err(Fail::Fault(fault)) => Err(self.fault(fault.line, kind_of(fault.kind))),
            Err(Fail::OutOfMemory) => Err(Fail::OutOfMemory),
        }
    }

    /// The state behind the tokens of text lines.
    fn text_expanded(&self, state: State, tokens: &[Token]) -> Out<State, PreFault>
        ensures { OnAnswer result (spec.Ends self.now.place.now self.now.limit state tokens.now) }
    {
        let (expanded, state) = self.expanded(state, tokens, false)?;
        let mut state = state;
        state.tokens.append(expanded)?;
        Ok(state)
    }

    /// The state behind text lines.
    pub fn ended(&self, state: State, text: Items<Token>) -> Out<State, PreFault>
        ensures { OnAnswer result (spec.Ends self.now.place.now self.now.limit state text) }
    {
        self.text_expanded(state, text.as_slice())
    }

    /// The expansion of tokens in which each `defined` with its name is replaced, and the state behind it.
    fn condition_expanded(
        &self,
        state: State,
        tokens: &[Token],
    ) -> Out<(Items<Token>, State), PreFault>
        ensures { OnAnswer result (spec.Expands true self.now.place.now self.now.limit state (forms.without_defined state.macros tokens.now)) }
    {
        let words = without_defined(self.alloc, &state.macros, tokens)?;
        self.expanded(state, words.as_slice(), true)
    }

    /// Whether tokens hold in which each `defined` with its name is replaced.
    fn judged(&self, line: u32, state: State, words: &[Token]) -> Out<(bool, State), PreFault>
        ensures { OnAnswer result (spec.Judged self.now.place.now line state words.now) }
    {
        if has_operator(words) {
            return Err(self.fault(line, PreKind::Condition));
        }
        match condition(self.alloc, words) {
            Ok(holds) => Ok((holds, state)),
            Err(Fail::Fault(_)) => Err(self.fault(line, PreKind::Condition)),
            Err(Fail::OutOfMemory) => Err(Fail::OutOfMemory),
        }
    }

    /// Whether the condition of a directive holds, and the state behind it.
    pub fn holds(&self, line: u32, state: State, tokens: &[Token]) -> Out<(bool, State), PreFault>
        ensures { OnAnswer result (spec.Holds self.now.place.now self.now.limit line state tokens.now) }
    {
        let (expanded, state) = self.condition_expanded(state, tokens)?;
        let words = without_defined(self.alloc, &state.macros, expanded.as_slice())?;
        self.judged(line, state, words.as_slice())
    }

    /// Whether a name is defined, or, where this is not asked for, whether it is not.
    pub fn name_holds(
        &self,
        line: u32,
        defined: bool,
        state: State,
        name: Option<&[u8]>,
    ) -> Out<(bool, State), PreFault>
        ensures { OnAnswer result (λ answer. answer ≡ spec.name_answer self.now.place.now line defined state (option_copied name.entry)) }
    {
        let Some(name) = name else {
            return Err(self.fault(line, PreKind::BadDirective));
        };
        let holds = is_defined(&state.macros, name) == defined;
        Ok((holds, state))
    }

    /// The header name that tokens are once they are expanded, and the state behind it.
    fn expanded_header(
        &self,
        line: u32,
        state: State,
        tokens: &[Token],
    ) -> Out<(Header, State), PreFault>
        ensures { OnAnswer result (spec.NamesExpanded self.now.place.now self.now.limit line state tokens.now) }
    {
        let (expanded, state) = self.expanded(state, tokens, false)?;
        match quoted_header(self.alloc, expanded.as_slice())? {
            Some(header) => Ok((header, state)),
            None => Err(self.fault(line, PreKind::BadDirective)),
        }
    }

    /// The header name of a directive, and the state behind it.
    #[tactic(auto, using(crate::proofs::Choices::choice_rules))]
    pub fn header(
        &self,
        line: u32,
        state: State,
        tokens: &[Token],
    ) -> Out<(Header, State), PreFault>
        ensures { OnAnswer result (spec.Names self.now.place.now self.now.limit line state tokens.now) }
    {
        match header_in(self.alloc, tokens)? {
            Some(header) => Ok((header, state)),
            None => self.expanded_header(line, state, tokens),
        }
    }

    /// The state with the place of a definition, where no macro of its name stands.
    fn noted(&self, name: &[u8], state: State) -> Mem<State>
        ensures { IfOk result (λ after. after ≡ record state { definitions = spec.with_definition self.now.place.now name.now state.macros state.definitions }) }
    {
        let mut state = state;
        if state.macros.get(name).is_none() {
            state.definitions.push(Definition {
                name: Bytes::from_slice(self.alloc, name)?,
                path: Text::copy_of(self.alloc, self.place.path.as_str())?,
                built_in: self.place.built_in,
            })?;
        }
        Ok(state)
    }

    /// The state behind a `#define` with these tokens.
    pub fn defined(&self, line: u32, state: State, tokens: &[Token]) -> Out<State, PreFault>
        ensures { OnAnswer result (spec.HasDefined self.now.place.now line state (forms.definition_in tokens.now)) }
    {
        let Some(macro_) = definition_in(self.alloc, tokens)? else {
            return Err(self.fault(line, PreKind::BadDirective));
        };
        let mut state = self.noted(macro_.name.as_slice(), state)?;
        match state.macros.define(macro_) {
            Ok(()) => Ok(state),
            Err(Fail::Fault(fault)) => Err(self.fault(line, kind_of(fault.kind))),
            Err(Fail::OutOfMemory) => Err(Fail::OutOfMemory),
        }
    }

    /// The state behind an `#undef` with these tokens.
    pub fn undefined(&self, line: u32, state: State, tokens: &[Token]) -> Out<State, PreFault>
        ensures { OnAnswer result (λ answer. answer ≡ spec.undefines self.now.place.now line state (forms.undefined_name tokens.now)) }
    {
        let Some(name) = undefined_name(tokens) else {
            return Err(self.fault(line, PreKind::BadDirective));
        };
        let mut state = state;
        state.macros.undef(name);
        Ok(state)
    }
}
