//! The reader of files and of what they include (C11 6.10, 6.10.2).

ghost use Rattle.std.specs.Prelude.{◌≡◌, ◌+◌, ◌<◌, ◌^◌, IfOk, MatchOption, Ok, Err};
ghost use Rattle.ct_base.specs.Answers.{IfFault, OnAnswer};
ghost use Rattle.ct_preproc.specs.Files as spec;
ghost use Rattle.ct_directive.specs.Headers.{built_in_headers};
ghost use Rattle.ct_preproc.specs.Reading as reads;
ghost use Rattle.ct_preproc.specs.Steps as steps;
ghost use Rattle.ct_directive.specs.Search as search;

use crate::directives::Step;
use crate::file::File;
use crate::paths::{file_number, is_among, with_path};
use crate::reading::{Reading, begun, with_include};
use crate::state::{Opens, Place, State};
use ct_base::{Items, LimitKind, Mem, Out, Token};
use ct_directive::{
    Header, PreFault, PreKind, Search, Target, directive_in, each_outline, lines_of,
};
use ct_outside::Finder;

/// What reads the files of a unit: where includes are found.
#[derive(Drop)]
pub struct Reader<'a, F> {
    pub search: Search<'a, F>,
}

impl<F: Finder> Reader<'_, F> {
    /// What a header name means in the file that is read, if it means anything.
    fn target(&self, file: File<'_>, header: &Header) -> Mem<Option<Target>>
        ensures { IfOk result (λ target. search.Means (F.texts self.now.search.finder.now) self.now.search.folders.now self.now.search.heads.now built_in_headers file.entry.place.now.path header.now target) }
    {
        self.search
            .target(file.alloc, file.place.path.as_str(), header)
    }

    /// An include of a header in a line, where so many more may nest.
    #[cycle(reads)]
    fn enter(
        &self,
        more: u32,
        file: File<'_>,
        line: u32,
        header: Header,
        state: State,
    ) -> Out<State, PreFault>
        requires { file.place.now.depth + more < 2 ^ 32 }
        ensures { OnAnswer result (spec.Enters (F.texts self.now.search.finder.now) self.now.search.folders.now self.now.search.heads.now built_in_headers file.entry.limit more file.entry.place.now line header state) }
    {
        let Some(target) = self.target(file, &header)? else {
            return Err(file.fault(line, PreKind::MissingInclude));
        };
        match more.checked_sub(1) {
            Some(less) => self.enter_target(less, file, line, header, state, target),
            None => Err(file.fault(line, PreKind::Limit(LimitKind::IncludeDepth))),
        }
    }

    /// The file that an include means, if it is not one that is read once.
    #[tactic(auto, using(crate::proofs::Choices::choice_rules))]
    #[cycle(reads)]
    fn enter_target(
        &self,
        more: u32,
        file: File<'_>,
        line: u32,
        header: Header,
        state: State,
        target: Target,
    ) -> Out<State, PreFault>
        requires { file.place.now.depth + more + 1 < 2 ^ 32 }
        ensures { OnAnswer result (λ answer. spec.ReadsTarget file.entry.limit (spec.Enters (F.texts self.now.search.finder.now) self.now.search.folders.now self.now.search.heads.now built_in_headers file.entry.limit more) file.entry.place.now line header state answer target) }
    {
        let once = is_among(target.path.as_str(), state.once.as_slice());
        let Header { name, quoted: _ } = header;
        let state = with_include(
            file.alloc,
            file.place,
            line,
            name,
            target.path.as_str(),
            state,
        )?;
        if once {
            Ok(state)
        } else {
            self.inside(more, file, target, state)
        }
    }

    /// What an include means, and the file that includes it again behind it.
    #[cycle(reads)]
    fn inside(
        &self,
        more: u32,
        file: File<'_>,
        target: Target,
        state: State,
    ) -> Out<State, PreFault>
        requires { file.place.now.depth + more + 1 < 2 ^ 32 }
        ensures { OnAnswer result (spec.Returns file.entry.limit (spec.Enters (F.texts self.now.search.finder.now) self.now.search.folders.now self.now.search.heads.now built_in_headers file.entry.limit more) file.entry.place.now target state) }
    {
        let Target {
            path,
            text,
            built_in,
        } = target;
        let inner = Place {
            path,
            depth: file.place.depth + 1,
            built_in,
        };
        let inner_file = File {
            alloc: file.alloc,
            place: &inner,
            limit: file.limit,
        };
        let mut state = self.read(more, inner_file, text.as_slice(), state)?;
        state.macros = with_path(file.alloc, file.place.path.as_str(), state.macros)?;
        Ok(state)
    }

    /// What follows a directive: an include, or nothing.
    #[tactic(auto, using(crate::proofs::Choices::choice_rules))]
    #[cycle(reads)]
    fn included(
        &self,
        more: u32,
        file: File<'_>,
        line: u32,
        header: Option<Header>,
        state: State,
    ) -> Out<State, PreFault>
        requires { file.place.now.depth + more < 2 ^ 32 }
        ensures { OnAnswer result (spec.Follows file.entry.limit (spec.Enters (F.texts self.now.search.finder.now) self.now.search.folders.now self.now.search.heads.now built_in_headers file.entry.limit more) file.entry.place.now line header state) }
    {
        match header {
            Some(header) => self.enter(more, file, line, header, state),
            None => Ok(state),
        }
    }

    /// What is known behind a directive.
    #[cycle(reads)]
    fn follow(&self, more: u32, file: File<'_>, line: u32, step: Step) -> Out<Reading, PreFault>
        requires { file.place.now.depth + more < 2 ^ 32 }
        ensures { OnAnswer result (steps.FollowsTo file.entry.limit (spec.Enters (F.texts self.now.search.finder.now) self.now.search.folders.now self.now.search.heads.now built_in_headers file.entry.limit more) file.entry.place.now line step) }
    {
        let Step {
            state,
            opens,
            header,
        } = step;
        let state = self.included(more, file, line, header, state)?;
        Ok(Reading {
            state,
            opens,
            text: Items::new(file.alloc),
        })
    }

    /// A directive, behind what stands before it.
    #[cycle(reads)]
    fn acted(
        &self,
        more: u32,
        file: File<'_>,
        line: u32,
        state: State,
        opens: Opens,
        words: &[Token],
    ) -> Out<Reading, PreFault>
        requires { file.place.now.depth + more < 2 ^ 32 }
        ensures { OnAnswer result (steps.StepsThen file.entry.limit (spec.Enters (F.texts self.now.search.finder.now) self.now.search.folders.now self.now.search.heads.now built_in_headers file.entry.limit more) file.entry.place.now line opens words.now state) }
    {
        let step = file.act(line, state, opens, words)?;
        self.follow(more, file, line, step)
    }

    /// A directive, in a file of which this is known.
    #[cycle(reads)]
    fn directive(
        &self,
        more: u32,
        file: File<'_>,
        reading: Reading,
        line: u32,
        words: &[Token],
    ) -> Out<Reading, PreFault>
        requires { file.place.now.depth + more < 2 ^ 32 }
        ensures { OnAnswer result (steps.StepsDirective file.entry.limit (spec.Enters (F.texts self.now.search.finder.now) self.now.search.folders.now self.now.search.heads.now built_in_headers file.entry.limit more) file.entry.place.now reading line words.now) }
    {
        let Reading { state, opens, text } = reading;
        let state = file.ended(state, text)?;
        self.acted(more, file, line, state, opens, words)
    }

    /// A line of a file.
    #[tactic(auto, using(crate::proofs::Choices::choice_rules))]
    #[cycle(reads)]
    fn line(
        &self,
        more: u32,
        file: File<'_>,
        reading: Reading,
        line: Items<Token>,
    ) -> Out<Reading, PreFault>
        requires { file.place.now.depth + more < 2 ^ 32 }
        ensures { OnAnswer result (steps.StepsLine file.entry.limit (spec.Enters (F.texts self.now.search.finder.now) self.now.search.folders.now self.now.search.heads.now built_in_headers file.entry.limit more) file.entry.place.now reading line) }
    {
        match directive_in(line.as_slice()) {
            Some((hash, words)) => self.directive(more, file, reading, hash.span.line, words),
            None => file.text_line(reading, line),
        }
    }

    /// The lines of a file.
    #[cycle(reads)]
    fn lines(
        &self,
        more: u32,
        file: File<'_>,
        reading: Reading,
        lines: Vec<Items<Token>>,
    ) -> Out<State, PreFault>
        requires { file.place.now.depth + more < 2 ^ 32 }
        ensures { OnAnswer result (steps.StepsLines file.entry.limit (spec.Enters (F.texts self.now.search.finder.now) self.now.search.folders.now self.now.search.heads.now built_in_headers file.entry.limit more) file.entry.place.now reading lines.items) }
    {
        let mut reading = reading;
        for line in lines {
            reading = self.line(more, file, reading, line)?;
        }
        file.closed(reading)
    }

    /// A file, where so many more includes may nest.
    #[cycle(reads)]
    pub fn read(&self, more: u32, file: File<'_>, text: &[u8], state: State) -> Out<State, PreFault>
        requires { file.place.now.depth + more < 2 ^ 32 }
        ensures { OnAnswer result (spec.ReadsFile file.entry.limit (spec.Enters (F.texts self.now.search.finder.now) self.now.search.folders.now self.now.search.heads.now built_in_headers file.entry.limit more) file.entry.place.now text.now state) }
    {
        each_outline();
        let tokens = numbered(file, text, &state)?;
        let lines = lines_of(file.alloc, tokens)?;
        let reading = begun(file.alloc, file.place, state)?;
        self.lines(more, file, reading, lines)
    }
}

/// The tokens of a file, by the number that it has in a state or is given there.
fn numbered(file: File<'_>, text: &[u8], state: &State) -> Out<Vec<Token>, PreFault>
    ensures tokens { IfOk result (λ tokens. reads.IsLexed file.entry.place.now file.entry.place.now.built_in (reads.file_number file.entry.place.now.path state.now.files) text.now (Ok tokens.items)) }
    ensures open { IfFault result (λ fault. reads.IsLexed file.entry.place.now file.entry.place.now.built_in (reads.file_number file.entry.place.now.path state.now.files) text.now (Err fault)) }
{
    let number = file_number(file.place.path.as_str(), state.files.as_slice());
    file.lexed(file.place.built_in, number, text)
}
